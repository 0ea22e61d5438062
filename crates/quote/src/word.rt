// A word shown: plain, or in quotes with `\` before `"` and `\`; measured, and written at a place.
ghost use Rattle.std.specs.Prelude.{◌+◌, ◌≤◌, ◌≡◌, false, length, drop};
ghost use Rattle.buffer.specs.Write.{Pushed};
ghost use Rattle.text.specs.Unicode.{encode_all};
ghost use Rattle.text.specs.Decoding.{codes_in, well_formed_length};
ghost use Rattle.quote.specs.Shown.{special, quoting, escaped, shown};
ghost use Rattle.quote.specs.Inner.{quiet_first, plain_word, specials, escaped_bytes};

use buffer::{push, push_byte};
use text::{Decoded, decode, is_white_space};
use words::ordinary_at;

// Whether a character is `"` or `\`.
#[tactic(auto, unfolding(crate::specs::Shown::special))]
fn is_special(code: u32) -> bool
    ensures { result ≡ special code }
{
    matches!(code, 0x22 | 0x5C)
}

// Whether a character is white space, `"` or `\`.
#[tactic(auto, unfolding(crate::specs::Shown::quoting))]
fn calls_for_quotes(code: u32) -> bool
    ensures { result ≡ quoting code }
{
    is_special(code) || is_white_space(code)
}

// The length of the character at a place, if there is one that calls for no quotes.
fn quiet_at(word: &[u8], at: usize) -> Option<usize>
    ensures { result ≡ quiet_first (drop at word.now) }
{
    // Most characters are ordinary ones, and need no decoder.
    if let Some(n) = ordinary_at(word, at) {
        return Some(n);
    }
    let Decoded::Character { code, length } = decode(word, at) else {
        return None;
    };
    if calls_for_quotes(code) {
        return None;
    }
    Some(length)
}

// Whether a word is well-formed and no character of it is white space, `"` or `\`.
pub fn is_plain(word: &[u8]) -> bool
    ensures { result ≡ plain_word word.now }
{
    let mut at = 0;
    while at < word.len() {
        let Some(n) = quiet_at(word, at) else {
            return false;
        };
        at += n;
    }
    true
}

// How many characters of a well-formed word are `"` or `\`.
fn escapes(word: &[u8]) -> usize
    requires { well_formed_length word.now ≡ length word.now }
    ensures { (result ≡ specials (codes_in word.now)) × (result ≤ length word.now) }
{
    let mut n = 0;
    let mut at = 0;
    while at < word.len() {
        let Decoded::Character { code, length } = decode(word, at) else {
            return n;
        };
        if is_special(code) {
            n += 1;
        }
        at += length;
    }
    n
}

// How many bytes a well-formed word that is not plain takes when it is shown.
pub fn quoted_size(word: &[u8]) -> usize
    requires word_value { (well_formed_length word.now ≡ length word.now) × (plain_word word.now ≡ false) }
    requires word_bound { 3 + length word.now ≤ 0x8000000000000000 }
    ensures { result ≡ length (shown word.now) }
{
    word.len() + escapes(word) + 2
}

// Writes a character's bytes at the place `at`, with `\` before them where it needs one, and returns the place after.
fn push_character(code: u32, bytes: &[u8], out: &mut [u8], at: usize) -> usize
    requires { at + length (escaped_bytes (special code) bytes.now) ≤ length out.old }
    ensures { Pushed (escaped_bytes (special code) bytes.now) out.old at result out.new }
{
    if is_special(code) {
        let next = push_byte(0x5C, out, at);
        return push(bytes, out, next);
    }
    push(bytes, out, at)
}

// Writes a well-formed word's characters at the place `start`, with `\` before `"` and `\`, and returns the place after.
fn push_escaped(word: &[u8], out: &mut [u8], start: usize) -> usize
    requires word_value { well_formed_length word.now ≡ length word.now }
    requires word_in_bounds { start + length (encode_all (escaped (codes_in word.now))) ≤ length out.old }
    ensures { Pushed (encode_all (escaped (codes_in word.now))) out.old start result out.new }
{
    let mut o = start;
    let mut at = 0;
    while at < word.len() {
        let Decoded::Character { code, length } = decode(word, at) else {
            return o;
        };
        let end = at + length;
        o = push_character(code, &word[at..end], out, o);
        at = end;
    }
    o
}

// Writes a well-formed word as it is shown at the place `at` and returns the place after.
pub fn push_shown(word: &[u8], out: &mut [u8], at: usize) -> usize
    requires word_value { well_formed_length word.now ≡ length word.now }
    requires word_in_bounds { at + length (shown word.now) ≤ length out.old }
    ensures { Pushed (shown word.now) out.old at result out.new }
{
    if is_plain(word) {
        return push(word, out, at);
    }
    let start = push_byte(0x22, out, at);
    let end = push_escaped(word, out, start);
    push_byte(0x22, out, end)
}
