// `clear_line_and_redraw`: measures a redraw of the line, then writes it into a lent buffer.
ghost use Rattle.std.specs.Prelude.{◌≡◌, ◌+◌, ◌-◌, ◌≤◌, min, length};
ghost use Rattle.buffer.specs.Write.{Pushed};
ghost use Rattle.screen.specs.Redraw.{move_back, redraw, greatest_number, Redraw};

use super::decimal::{decimal_size, push_decimal};
use buffer::{TooShort, push, push_byte};

// How many places after the cursor the content ends.
fn beyond(content: &[u8], cursor: usize) -> usize
    ensures { result ≡ length content.now - cursor }
{
    content.len().saturating_sub(cursor)
}

// How many bytes the move by n places back takes: with 64 bits for n, few.
fn move_size(n: usize) -> usize
    ensures { (result ≡ length (move_back n)) × (result ≤ 23) }
{
    if n == 0 {
        return 0;
    }
    decimal_size(n) + 3
}

// How many bytes the redraw takes. Two slices of nearly 2^63 bytes each come to more than 64 bits hold: the sum stops there.
fn redraw_size(prompt: &[u8], content: &[u8], cursor: usize) -> usize
    ensures { result ≡ min (length (redraw prompt.now content.now cursor)) greatest_number }
{
    let texts = prompt.len() + content.len();
    let rest = move_size(beyond(content, cursor)) + 5;
    texts.saturating_add(rest)
}

// Writes the move by n places back at the place `at` and returns the place after it.
fn push_move(n: usize, out: &mut [u8], at: usize) -> usize
    requires { at + length (move_back n) ≤ length out.old }
    ensures { Pushed (move_back n) out.old at result out.new }
{
    if n == 0 {
        return at;
    }
    let digits = push(b"\x1b[", out, at);
    let end = push_decimal(n, out, digits);
    push_byte(b'D', out, end)
}

// Clears the line and shows prompt and content, with the cursor at its place, at the front of out.
pub fn clear_line_and_redraw(
    prompt: &[u8],
    content: &[u8],
    cursor: usize,
    out: &mut [u8],
) -> Result<usize, TooShort>
    ensures { Redraw prompt.now content.now cursor out.old result out.new }
{
    let needed = redraw_size(prompt, content, cursor);
    if out.len() < needed {
        return Err(TooShort { needed });
    }
    let start = push(b"\r\x1b[2K", out, 0);
    let text = push(prompt, out, start);
    let end = push(content, out, text);
    push_move(beyond(content, cursor), out, end);
    Ok(needed)
}
