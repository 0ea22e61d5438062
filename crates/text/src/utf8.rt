// UTF-8: the character at a place, after Unicode's Table 3-7, and the longest well-formed prefix.
ghost use Rattle.std.specs.Prelude.{◌≡◌, length, drop, get_or, ◌%◌, ◌≤◌, ◌<◌};
ghost use Rattle.text.specs.Decoding.{least_second, greatest_second, within, second, later, decode_two, decode_three, decode_four, table, decode_first, letter_first, well_formed_length};
ghost use Rattle.text.specs.Inner.{length_of, letter_head};

use buffer::{greatest_byte, octet_at};

// What stands at a place of a text.
// Three cases that callers part by name: an Option of a Result would be no plainer.
#[derive(Clone, Copy)]
pub enum Decoded {
    // A character: its scalar value, and its length in bytes.
    Character { code: u32, length: usize },
    // No character begins here.
    IllFormed,
    // The text has ended.
    End,
}

// The least second byte after the first byte a.
#[tactic(auto, unfolding(crate::specs::Decoding::least_second))]
pub(crate) fn least_second(a: u8) -> u8
    ensures { result ≡ least_second a }
{
    match a {
        0xE0 => 0xA0,
        0xF0 => 0x90,
        _ => 0x80,
    }
}

// The greatest second byte after the first byte a.
#[tactic(auto, unfolding(crate::specs::Decoding::greatest_second))]
pub(crate) fn greatest_second(a: u8) -> u8
    ensures { result ≡ greatest_second a }
{
    match a {
        0xED => 0x9F,
        0xF4 => 0x8F,
        _ => 0xBF,
    }
}

// Whether b can be the second byte after the first byte a.
fn is_second(a: u8, b: u8) -> bool
    ensures { result ≡ second a b }
{
    is_within(least_second(a), greatest_second(a), b)
}

// Whether b can be the third or fourth byte of a character.
fn is_later(b: u8) -> bool
    ensures { result ≡ later b }
{
    is_within(0x80, 0xBF, b)
}

// Whether a byte lies from one bound to another.
#[tactic(auto, unfolding(crate::specs::Decoding::within))]
pub(crate) fn is_within(least: u8, greatest: u8, b: u8) -> bool
    ensures { result ≡ within least greatest b }
{
    (least..=greatest).contains(&b)
}

// The low six bits of a byte after the first.
fn six_bits(b: u8) -> u32
    ensures { result ≡ b % 0x40 }
{
    u32::from(b % 0x40)
}

// The character of two bytes, if they are one.
#[tactic(auto, unfolding(crate::specs::Decoding::decode_two))]
fn two(a: u8, b: u8) -> Decoded
    ensures { result ≡ decode_two a b }
{
    if is_second(a, b) {
        return Decoded::Character {
            code: u32::from(a % 0x20) * 0x40 + six_bits(b),
            length: 2,
        };
    }
    Decoded::IllFormed
}

// The character of three bytes, if they are one.
#[tactic(auto, unfolding(crate::specs::Decoding::decode_three))]
fn three(a: u8, b: u8, c: u8) -> Decoded
    ensures { result ≡ decode_three a b c }
{
    if is_second(a, b) && is_later(c) {
        return Decoded::Character {
            code: u32::from(a % 0x10) * 0x1000 + six_bits(b) * 0x40 + six_bits(c),
            length: 3,
        };
    }
    Decoded::IllFormed
}

// The character of four bytes, if they are one.
#[tactic(auto, unfolding(crate::specs::Decoding::decode_four))]
fn four(a: u8, b: u8, c: u8, d: u8) -> Decoded
    ensures { result ≡ decode_four a b c d }
{
    if is_second(a, b) && is_later(c) && is_later(d) {
        return Decoded::Character {
            code: u32::from(a % 0x08) * 0x40000
                + six_bits(b) * 0x1000
                + six_bits(c) * 0x40
                + six_bits(d),
            length: 4,
        };
    }
    Decoded::IllFormed
}

// The character that begins with a, no ASCII byte, and goes on with b, c and d as far as it needs them.
#[tactic(auto, using(crate::proofs::TableRows::row_none, crate::proofs::TableRows::row_two, crate::proofs::TableRows::row_three, crate::proofs::TableRows::row_four, crate::proofs::TableRows::row_past))]
fn longer(a: u8, b: u8, c: u8, d: u8) -> Decoded
    requires { 0x80 ≤ a }
    ensures { result ≡ table a b c d }
{
    match a {
        0x00..=0xC1 => Decoded::IllFormed,
        0xC2..=0xDF => two(a, b),
        0xE0..=0xEF => three(a, b, c),
        0xF0..=0xF4 => four(a, b, c, d),
        0xF5..=0xFF => Decoded::IllFormed,
    }
}

// What stands at a place where a byte is no ASCII byte.
fn decode_longer(s: &[u8], at: usize) -> Decoded
    requires { (at < length s.now) × (0x80 ≤ get_or s.now at 0) }
    ensures { result ≡ decode_first (drop at s.now) }
{
    longer(
        s[at],
        octet_at(s, at + 1),
        octet_at(s, at + 2),
        octet_at(s, at + 3),
    )
}

// What stands at a place of a text: a character, nothing well-formed, or the end. Kept short, so that callers have it in line.
pub fn decode(s: &[u8], at: usize) -> Decoded
    ensures { result ≡ decode_first (drop at s.now) }
{
    let Some(&a) = s.get(at) else {
        return Decoded::End;
    };
    if a < 0x80 {
        return Decoded::Character {
            code: u32::from(a),
            length: 1,
        };
    }
    decode_longer(s, at)
}

// The length of the character that was decoded, if there is one.
fn length_of(decoded: Decoded) -> Option<usize>
    ensures { result ≡ length_of decoded }
{
    match decoded {
        Decoded::Character { code: _, length } => Some(length),
        Decoded::IllFormed | Decoded::End => None,
    }
}

// Whether a character of three bytes that begins with a is a letter: among those that begin with E1 to E3 is white space.
#[tactic(auto, unfolding(crate::specs::Inner::letter_head, crate::specs::Decoding::within))]
fn is_letter_head(a: u8) -> bool
    ensures { result ≡ letter_head a }
{
    matches!(a, 0xE0 | 0xE4..=0xEF)
}

// The length of the letter at a place, if there is one: most characters outside ASCII, and whoever looks for white space
// can pass over them without their code.
pub fn letter_at(s: &[u8], at: usize) -> Option<usize>
    ensures { result ≡ letter_first (drop at s.now) }
{
    let &a = s.get(at)?;
    if a < 0xC3 {
        return None;
    }
    if a < 0xE0 {
        return length_of(two(a, octet_at(s, at + 1)));
    }
    if is_letter_head(a) {
        return length_of(three(a, octet_at(s, at + 1), octet_at(s, at + 2)));
    }
    None
}

// The length of the character at a place where a byte is no ASCII byte, if one begins there.
fn longer_length(s: &[u8], at: usize) -> Option<usize>
    requires { (at < length s.now) × (0x80 ≤ get_or s.now at 0) }
    ensures { result ≡ length_of (decode_first (drop at s.now)) }
{
    // Most are letters, and need no decoder.
    if let Some(n) = letter_at(s, at) {
        return Some(n);
    }
    length_of(decode_longer(s, at))
}

// The length of the longest well-formed prefix of s: all of s exactly if s is well-formed.
pub fn well_formed_prefix(s: &[u8]) -> usize
    ensures { result ≡ well_formed_length s.now }
{
    // ASCII is well-formed, and the greatest byte is found many bytes at a time.
    if greatest_byte(s) < 0x80 {
        return s.len();
    }
    let mut at = 0;
    while at < s.len() {
        // An ASCII byte is a character by itself.
        if s[at] < 0x80 {
            at += 1;
        } else {
            let Some(n) = longer_length(s, at) else {
                return at;
            };
            at += n;
        }
    }
    at
}
