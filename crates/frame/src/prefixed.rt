// A text after its length, which takes two bytes, the highest first: read, measured and written.
ghost use Rattle.std.specs.Prelude.{◌≡◌, ◌≤◌, ◌<◌, ◌^◌, length, drop};
ghost use Rattle.buffer.specs.Write.{Written};
ghost use Rattle.frame.specs.Text.{text_of, read_text};

use buffer::{push, push_byte};

// The length of the text at the place `at` of s, after a length of two bytes, unless the length or the text runs past the end.
pub fn long_text(s: &[u8], at: usize) -> Option<usize>
    ensures { result ≡ read_text 2 (drop at s.now) }
{
    let left = s.len().saturating_sub(at);
    if left < 2 {
        return None;
    }
    let n = usize::from(s[at]) * 256 + usize::from(s[at + 1]);
    if 2 + n <= left { Some(n) } else { None }
}

// How many bytes t takes after a length of two bytes.
pub fn long_text_size(t: &[u8]) -> usize
    ensures { result ≡ length (text_of 2 t.now) }
{
    2 + t.len()
}

// Writes t after a length of two bytes, the highest first, at the front of out and returns how many bytes that is.
pub fn write_long_text(t: &[u8], out: &mut [u8]) -> usize
    requires { (length t.now < 256 ^ 2) × (length (text_of 2 t.now) ≤ length out.old) }
    ensures { Written (text_of 2 t.now) out.old result out.new }
{
    let n = t.len();
    let low = push_byte((n / 256) as u8, out, 0);
    let at = push_byte((n % 256) as u8, out, low);
    push(t, out, at)
}
