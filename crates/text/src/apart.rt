// A text taken apart at white space: trimmed, tested for being blank, and its words one after the other.
ghost use Rattle.std.specs.Prelude.{◌+◌, ◌≤◌, ◌≡◌, length, drop};
ghost use Rattle.text.specs.Decoding.{pieces_of, bytes_all};
ghost use Rattle.text.specs.Apart.{run_of, trim_end, trimmed, blank, next_word};
ghost use Rattle.text.specs.Inner.{seen_first};

use crate::space::is_white_space;
use crate::utf8::{Decoded, decode};
use buffer::Span;

// A piece of a text, as white space goes: a character, or a byte that belongs to none, which is no white space.
#[derive(Clone, Copy)]
struct Seen {
    white: bool,
    length: usize,
}

// What stands at a place of a text, if it has not ended there. In line: a call would pass the answer through memory.
#[inline(always)]
fn see(s: &[u8], at: usize) -> Option<Seen>
    ensures { result ≡ seen_first (pieces_of (drop at s.now)) }
{
    match decode(s, at) {
        Decoded::Character { code, length } => Some(Seen {
            white: is_white_space(code),
            length,
        }),
        Decoded::IllFormed => Some(Seen {
            white: false,
            length: 1,
        }),
        Decoded::End => None,
    }
}

// The place after the run at a place: of white space, or of anything else. In line, so that each kind has a loop of its own.
#[inline(always)]
fn run_end(s: &[u8], from: usize, is_white: bool) -> usize
    requires { from ≤ length s.now }
    ensures { result ≡ from + length (bytes_all (run_of is_white (pieces_of (drop from s.now)))) }
{
    let mut at = from;
    while let Some(seen) = see(s, at) {
        if seen.white != is_white {
            return at;
        }
        at += seen.length;
    }
    at
}

// The place after the last piece from a place on that is no white space; that place itself if there is none.
fn last_solid(s: &[u8], from: usize) -> usize
    requires { from ≤ length s.now }
    ensures { result ≡ from + length (bytes_all (trim_end (pieces_of (drop from s.now)))) }
{
    let mut end = from;
    let mut at = from;
    while let Some(seen) = see(s, at) {
        at += seen.length;
        if !seen.white {
            end = at;
        }
    }
    end
}

// s without the white space at either end.
pub fn trim(s: &[u8]) -> &[u8]
    ensures { result.now ≡ trimmed s.now }
{
    let start = run_end(s, 0, true);
    let end = last_solid(s, start);
    &s[start..end]
}

// Whether s is nothing but white space.
pub fn is_blank(s: &[u8]) -> bool
    ensures { result ≡ blank s.now }
{
    run_end(s, 0, true) == s.len()
}

// Where the first word of s between white space at or after a place lies, if there is one.
pub fn next_word(s: &[u8], at: usize) -> Option<Span>
    ensures { result ≡ next_word at (drop at s.now) }
{
    if s.len() <= at {
        return None;
    }
    let start = run_end(s, at, true);
    if s.len() <= start {
        return None;
    }
    let end = run_end(s, start, false);
    Some(Span { start, end })
}
