// The head of a frame: its kind, its numbers and the lengths of its texts. What the texts hold is not looked at.
ghost use Rattle.std.specs.Prelude.{◌≡◌, ◌≤◌, drop};
ghost use Rattle.image.specs.Reading.{other_of, span, node_lengths, definition_lengths, node_first, option_first, flag_first, head_first};

use buffer::{byte_at, rest};

// The lengths of a frame's texts; `other` is a node's usage or a definition's long, if it has one. And the frame's whole size.
#[derive(Clone, Copy)]
pub struct Lengths {
    pub name: usize,
    pub description: usize,
    pub other: Option<usize>,
    pub size: usize,
}

// What stands at a place.
// Three kinds of frame and two ways of having none: an Option of a Result would be no plainer.
#[derive(Clone, Copy)]
pub enum Head {
    Node {
        depth: usize,
        handler: usize,
        texts: Lengths,
    },
    Option {
        required: usize,
        short: usize,
        texts: Lengths,
    },
    Flag {
        short: usize,
        texts: Lengths,
    },
    Bad,
    End,
}

// The length of a text that may be missing, by its length byte: 255 for none.
fn other_of(n: usize) -> Option<usize>
    ensures { result ≡ other_of n }
{
    if n == 255 { None } else { Some(n) }
}

// How many bytes it takes after that byte.
#[tactic(auto, unfolding(crate::specs::Reading::span))]
pub fn span_of(other: Option<usize>) -> usize
    ensures { result ≡ span other }
{
    other.unwrap_or(0)
}

fn node_lengths(s: &[u8]) -> Lengths
    ensures { result ≡ node_lengths s.now }
{
    let name = byte_at(s, 4);
    let description = byte_at(s, 5 + name);
    let usage = byte_at(s, 6 + name + description);
    let other = other_of(usage);
    Lengths {
        name,
        description,
        other,
        size: 7 + name + description + span_of(other),
    }
}

// The texts of an option or a flag, whose first length byte stands at p.
fn definition_lengths(s: &[u8], p: usize) -> Lengths
    requires { p ≤ 3 }
    ensures { result ≡ definition_lengths p s.now }
{
    let name = byte_at(s, p);
    let long = byte_at(s, p + 1 + name);
    let other = other_of(long);
    let span = span_of(other);
    let description = byte_at(s, p + 2 + name + span);
    Lengths {
        name,
        description,
        other,
        size: p + 3 + name + span + description,
    }
}

// The three kinds differ in the bytes that they read; what they share is the one test of the size.
fn node_head(s: &[u8]) -> Head
    ensures { result ≡ node_first s.now }
{
    let texts = node_lengths(s);
    if s.len() < texts.size {
        return Head::Bad;
    }
    Head::Node {
        depth: byte_at(s, 1),
        handler: byte_at(s, 2) * 256 + byte_at(s, 3),
        texts,
    }
}

fn option_head(s: &[u8]) -> Head
    ensures { result ≡ option_first s.now }
{
    let texts = definition_lengths(s, 3);
    if s.len() < texts.size {
        return Head::Bad;
    }
    Head::Option {
        required: byte_at(s, 1),
        short: byte_at(s, 2),
        texts,
    }
}

fn flag_head(s: &[u8]) -> Head
    ensures { result ≡ flag_first s.now }
{
    let texts = definition_lengths(s, 2);
    if s.len() < texts.size {
        return Head::Bad;
    }
    Head::Flag {
        short: byte_at(s, 1),
        texts,
    }
}

// The head of the first frame of s. In line: a call would pass the answer through memory, and each caller takes it apart at once.
#[inline(always)]
pub fn head_of(s: &[u8]) -> Head
    ensures { result ≡ head_first s.now }
{
    if s.len() == 0 {
        return Head::End;
    }
    match s[0] {
        0x01 => node_head(s),
        0x02 => option_head(s),
        0x03 => flag_head(s),
        _ => Head::Bad,
    }
}

// The head of the frame at the place `at` of an image.
pub fn head_at(image: &[u8], at: usize) -> Head
    ensures { result ≡ head_first (drop at image.now) }
{
    head_of(rest(image, at))
}
