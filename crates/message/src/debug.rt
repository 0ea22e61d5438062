// The message for an unknown word of a help line, which the Rust prints by `Debug`.
ghost use Rattle.std.specs.Prelude.{◌≡◌, ◌+◌, ◌*◌, ◌≤◌, ◌<◌, length};
ghost use Rattle.frame.specs.Limits.{text_limit};
ghost use Rattle.buffer.specs.Showing.{Showing};
ghost use Rattle.buffer.specs.Inks.{Inked, InkedFrom};
ghost use Rattle.message.specs.Debug.{hex_digits, code_text, debug_byte, debug_bytes, unknown_help};

use buffer::{TooShort, put, put_byte, show_by};
use frame::hex_digit;

// A byte in hexadecimal digits, without a leading 0: its clause says which bytes lie there, so no `Display` writes them.
fn put_digits(n: u8, out: &mut [u8], at: usize) -> usize
    requires { at < 4294967000 }
    ensures { Inked (hex_digits n) out.old at result out.new × (result ≤ at + 2) }
{
    if n < 16 {
        return put_byte(hex_digit(n), out, at);
    }
    let low = put_byte(hex_digit(n / 16), out, at);
    put_byte(hex_digit(n % 16), out, low)
}

// A control as its code.
fn put_code(n: u8, out: &mut [u8], at: usize) -> usize
    requires { at < 4294966000 }
    ensures { Inked (code_text n) out.old at result out.new × (result ≤ at + 6) }
{
    let digits = put(b"\\u{", out, at);
    let end = put_digits(n, out, digits);
    put(b"}", out, end)
}

// A byte of a word, as `Debug` writes it.
#[tactic(auto, unfolding(crate::specs::Debug::debug_byte, buffer::specs::Ascii::ascii))]
fn put_debug(byte: u8, out: &mut [u8], at: usize) -> usize
    requires { at < 4294966000 }
    ensures { Inked (debug_byte byte) out.old at result out.new × (result ≤ at + 6) }
{
    match byte {
        0x22 => put(b"\\\"", out, at),
        0x5C => put(b"\\\\", out, at),
        0x00 => put(b"\\0", out, at),
        0x09 => put(b"\\t", out, at),
        0x0A => put(b"\\n", out, at),
        0x0D => put(b"\\r", out, at),
        0x01..=0x1F | 0x7F => put_code(byte, out, at),
        _ => put_byte(byte, out, at),
    }
}

// The bytes of a word, one after the other.
fn put_word(word: &[u8], out: &mut [u8], at: usize) -> usize
    requires { at + 64 * length word.now < 4294966000 }
    ensures { InkedFrom word.now (debug_bytes word.now) out.old at result out.new }
{
    let mut end = at;
    for byte in word {
        end = put_debug(*byte, out, end);
    }
    end
}

fn put_unknown_help(word: &[u8], out: &mut [u8]) -> usize
    requires { length word.now ≤ text_limit }
    ensures { Inked (unknown_help word.now) out.old 0 result out.new }
{
    let start = put(b"Error: UnknownCommand(\"", out, 0);
    let end = put_word(word, out, start);
    put(b"\")\n", out, end)
}

// The message for a word of a help line that names no node.
pub fn show_unknown_help(word: &[u8], out: &mut [u8]) -> Result<usize, TooShort>
    requires { length word.now ≤ text_limit }
    ensures { Showing (unknown_help word.now) out.old result out.new }
{
    show_by(|out| put_unknown_help(word, out), out)
}
