// A step over a piece of the input, and the input's end.
ghost use Rattle.std.specs.Prelude.{◌≡◌, ◌≤◌, length};
ghost use Rattle.session.specs.Sizes.{last_line};
ghost use Rattle.stream.specs.Held.{Sound, Stepping, last_of, Finished};
ghost use Rattle.stream.specs.Inner.{Resumed, TakesPiece};

use super::pressing::press_some;
use super::standing::{Printout, Step, Stream};
use super::taking::{print_last, take_bytes};
use buffer::rest;
use session::KEY_ROOM;

// Presses the keys that wait.
fn resume_keys(
    stream: Stream,
    line: &[u8],
    image: &[u8],
    slots: &mut [u8],
    out: &mut [u8],
) -> Printout
    requires { Sound stream line.now image.now slots.old }
    ensures { Resumed stream line.now image.now slots.old out.old result slots.new out.new }
{
    if stream.over || stream.keys <= stream.next {
        return Printout { stream, printed: 0 };
    }
    press_some(
        stream.session,
        stream.next,
        stream.keys,
        line,
        image,
        slots,
        out,
        0,
    )
}

// Takes bytes of a piece line by line, as long as out has room for what one key may print, and no key waits.
fn take_piece(
    stream: Stream,
    piece: &[u8],
    line: &mut [u8],
    image: &mut [u8],
    slots: &mut [u8],
    out: &mut [u8],
    at: usize,
) -> Step
    requires { Sound stream line.old image.old slots.old × (at ≤ length out.old) }
    ensures { TakesPiece stream piece.now line.old image.old slots.old out.old at result line.new image.new slots.new out.new }
{
    let mut here = stream;
    let mut printed = at;
    let mut took = 0;
    while took < piece.len() {
        if here.is_busy() || out.len() - printed < KEY_ROOM {
            return Step {
                stream: here,
                took,
                printed,
            };
        }
        let more = take_bytes(here, rest(piece, took), line, image, slots, out, printed);
        here = more.stream;
        printed = more.printed;
        took += more.took;
    }
    Step {
        stream: here,
        took,
        printed,
    }
}

// Takes as much of a piece as out has room to answer: what is printed stands at its front. The stream was begun by `start`, with zeros for slots, or
// left by the step before.
pub fn step(
    stream: Stream,
    piece: &[u8],
    line: &mut [u8],
    image: &mut [u8],
    slots: &mut [u8],
    out: &mut [u8],
) -> Step
    requires { Sound stream line.old image.old slots.old }
    ensures { Stepping stream piece.now line.old image.old slots.old out.old result line.new image.new slots.new out.new }
{
    let first = resume_keys(stream, line, image, slots, out);
    take_piece(first.stream, piece, line, image, slots, out, first.printed)
}

// The input's end: a line that is not at its end is a bad one, and what that prints stands at the front of out.
pub fn finish(stream: Stream, out: &mut [u8]) -> usize
    requires { (stream.session.lines ≤ last_line) × (7 ≤ length out.old) }
    ensures { Finished (last_of stream) out.old result out.new }
{
    if stream.is_busy() || stream.held == 0 {
        return 0;
    }
    print_last(stream.session.lines + 1, out)
}
