// The rules for a frame by itself: the limits of its fields, and the frame at a place that keeps them.
ghost use Rattle.std.specs.Prelude.{◌≡◌, ℕ, ◌≤◌, ◌<◌, cond, length, drop};
ghost use Rattle.image.specs.Inner.{defined_in};
ghost use Rattle.image.specs.Limits.{is_shown, all_shown, is_name, is_note, is_short, fair};
ghost use Rattle.image.specs.Reading.{Small, node_in, head_first, strict_first};
ghost use Rattle.image.specs.declared.head.Head.TheVariants.{Bad};

use super::head::{Head, Lengths, head_of, span_of};
use buffer::{part, rest};

// The largest byte of a text, 7E.
const LAST: u8 = 0x7E;

// Whether a byte is from `low` to 7E.
fn is_shown(low: u8, byte: u8) -> bool
    ensures { result ≡ is_shown low byte }
{
    (low..=LAST).contains(&byte)
}

// Whether all bytes of t are from `low` to 7E: by `&` and no early exit, so that the backend takes many at once.
fn each_shown(low: u8, t: &[u8]) -> bool
    ensures { result ≡ all_shown low t.now }
{
    t.iter()
        .fold(true, |shown, byte| shown & is_shown(low, *byte))
}

// The same in whole blocks of that size and the last block, of which some bytes may be seen twice.
fn blocks_shown(low: u8, t: &[u8], size: usize) -> bool
    requires { (0 < size) × (size ≤ length t.now) }
    ensures { result ≡ all_shown low t.now }
{
    if !each_shown(low, &t[t.len() - size..]) {
        return false;
    }
    for block in t.chunks_exact(size) {
        if !each_shown(low, block) {
            return false;
        }
    }
    true
}

// The same for every text: in blocks of 16 bytes or of 8, and byte by byte where it is shorter.
fn all_shown(low: u8, t: &[u8]) -> bool
    ensures { result ≡ all_shown low t.now }
{
    if t.len() < 8 {
        return each_shown(low, t);
    }
    if t.len() < 16 {
        return blocks_shown(low, t, 8);
    }
    blocks_shown(low, t, 16)
}

// Names and longs: 1 to 32 bytes of 21-7E.
#[tactic(auto, unfolding(crate::specs::Limits::is_name))]
fn is_name(t: &[u8]) -> bool
    ensures { result ≡ is_name t.now }
{
    (1..=32).contains(&t.len()) && all_shown(0x21, t)
}

// Descriptions and usages: 0 to 96 bytes of 20-7E.
#[tactic(auto, unfolding(crate::specs::Limits::is_note))]
fn is_note(t: &[u8]) -> bool
    ensures { result ≡ is_note t.now }
{
    t.len() <= 96 && all_shown(0x20, t)
}

// A short: 0 for none, or a byte of 21-7E.
#[tactic(auto, unfolding(crate::specs::Limits::is_short))]
fn is_short(c: usize) -> bool
    ensures { result ≡ is_short c }
{
    c == 0 || (0x21..=0x7E).contains(&c)
}

// Whether a node frame at the front of s is within its limits.
fn fair_node(s: &[u8], depth: usize, texts: Lengths) -> bool
    requires { Small texts }
    ensures { (handler : ℕ) → handler < 65536 → result ≡ fair (node_in s.now depth handler texts) }
{
    if 7 < depth {
        return false;
    }
    if !is_name(part(s, 5, texts.name)) {
        return false;
    }
    let at = 6 + texts.name;
    if !is_note(part(s, at, texts.description)) {
        return false;
    }
    match texts.other {
        Some(n) => is_note(part(s, at + texts.description + 1, n)),
        None => true,
    }
}

// Whether what options and flags have in common is within its limits; p is the place of the name's length byte. In line, for each of the two.
#[inline(always)]
fn is_definable(s: &[u8], p: usize, short: usize, texts: Lengths) -> bool
    requires { (p ≤ 3) × Small texts }
    ensures { result ≡ defined_in s.now p short texts }
{
    if !is_short(short) {
        return false;
    }
    if !is_name(part(s, p + 1, texts.name)) {
        return false;
    }
    let at = p + 2 + texts.name;
    if !is_note(part(s, at + span_of(texts.other) + 1, texts.description)) {
        return false;
    }
    match texts.other {
        Some(n) => is_name(part(s, at, n)),
        None => true,
    }
}

// Whether the frame of a head that was read at the front of s is within its limits, where there is one.
fn is_fair(s: &[u8], head: Head) -> bool
    requires { head ≡ head_first s.now }
    ensures { cond result head Bad ≡ strict_first s.now }
{
    match head {
        Head::Node { depth, texts, .. } => fair_node(s, depth, texts),
        Head::Option {
            required,
            short,
            texts,
        } => required <= 1 && is_definable(s, 3, short, texts),
        Head::Flag { short, texts } => is_definable(s, 2, short, texts),
        Head::Bad | Head::End => true,
    }
}

// The first frame of s, if it is within the limits.
fn frame_of(s: &[u8]) -> Head
    ensures { result ≡ strict_first s.now }
{
    let head = head_of(s);
    if is_fair(s, head) { head } else { Head::Bad }
}

// The frame at the place `at` of an image, if it is within the limits.
pub fn frame_at(image: &[u8], at: usize) -> Head
    ensures { result ≡ strict_first (drop at image.now) }
{
    frame_of(rest(image, at))
}
