// Bytes taken up to the end of a line, and the line given to the session.
ghost use Rattle.std.specs.Prelude.{◌≡◌, [], ◌∷◌, false, ◌+◌, ◌<◌, ◌≤◌, length, take};
ghost use Rattle.buffer.specs.Write.{Written};
ghost use Rattle.session.specs.Prints.{bad_line, lines_of};
ghost use Rattle.session.specs.Sizes.{last_line, frame_room, key_room};
ghost use Rattle.stream.specs.Held.{busy_with, Ready, Sound};
ghost use Rattle.stream.specs.Inner.{PressedSome, LineRead, Refuses, LineMoved, TakesBytes};

use super::holding::hold;
use super::pressing::press_some;
use super::standing::{Printout, Step, Stream};
use buffer::{copy, part, rest};
use session::{Printing, Session, Taken, Took, refuse, take_line};

// Room for the frame of a line.
fn blank_frame() -> [u8; Session::FRAME_ROOM]
    ensures { frame_room ≡ length result }
{
    [0; Session::FRAME_ROOM]
}

// Prints the 2F of a line, which is the last that is printed, and returns how many bytes that is.
pub(super) fn print_last(number: usize, out: &mut [u8]) -> usize
    requires { 7 ≤ length out.old }
    ensures { Written (lines_of (bad_line number ∷ [])) out.old result out.new }
{
    match refuse(number, out) {
        Ok(Printing::Ends(n)) => n,
        _ => 0,
    }
}

// The same at a place.
fn refuse_at(session: Session, number: usize, out: &mut [u8], at: usize) -> Printout
    requires { at + 7 ≤ length out.old }
    ensures { Refuses session number out.old at result out.new }
{
    let n = print_last(number, &mut out[at..]);
    Printout {
        stream: Stream::stopped(session),
        printed: at + n,
    }
}

// Gives the line that is the first bytes of its buffer to the session.
fn read_whole(
    session: Session,
    held: usize,
    line: &[u8],
    image: &mut [u8],
    frame: &mut [u8],
) -> Took
    ensures { LineRead session (take held line.now) image.old frame.old result image.new frame.new }
{
    take_line(session, part(line, 0, held), image, frame)
}

// Presses keys; they are put into the buffer for a line, where those stay that find no room.
fn press_keys(
    session: Session,
    keys: &[u8],
    line: &mut [u8],
    image: &[u8],
    slots: &mut [u8],
    out: &mut [u8],
    at: usize,
) -> Printout
    requires ready { Ready session line.old image.now slots.old }
    requires keys_len_bound { (length keys.now ≤ frame_room) × (at ≤ length out.old) }
    ensures { PressedSome session keys.now image.now slots.old out.old at result line.new slots.new out.new }
{
    let n = copy(keys, line);
    press_some(session, 0, n, line, image, slots, out, at)
}

// A whole line of so many bytes: what it is, and what follows from that.
fn take_whole(
    session: Session,
    held: usize,
    line: &mut [u8],
    image: &mut [u8],
    slots: &mut [u8],
    out: &mut [u8],
    at: usize,
) -> Printout
    requires ready { Ready session line.old image.old slots.old }
    requires lines_lt_last_line { (session.lines < last_line) × (at + key_room ≤ length out.old) }
    ensures { LineMoved session (take held line.old) image.old slots.old out.old at result line.new image.new slots.new out.new }
{
    let mut frame = blank_frame();
    let took = read_whole(session, held, line, image, &mut frame);
    match took.answer {
        Taken::Tree => Printout {
            stream: Stream::settled(took.session),
            printed: at,
        },
        Taken::Keys(n) => {
            let keys = rest(part(&frame, 0, n), 1);
            press_keys(took.session, keys, line, image, slots, out, at)
        }
        Taken::BadLine(number) => refuse_at(session, number, out, at),
        _ => Printout {
            stream: Stream::stopped(session),
            printed: at,
        },
    }
}

// Takes bytes up to the end of a line, or all of them.
pub fn take_bytes(
    stream: Stream,
    bytes: &[u8],
    line: &mut [u8],
    image: &mut [u8],
    slots: &mut [u8],
    out: &mut [u8],
    at: usize,
) -> Step
    requires { Sound stream line.old image.old slots.old × (busy_with stream ≡ false) × (at + key_room ≤ length out.old) }
    ensures { TakesBytes stream bytes.now line.old image.old slots.old out.old at result line.new image.new slots.new out.new }
{
    let Some(count) = hold(line, stream.held, bytes) else {
        return Step {
            stream: Stream::reading(stream.session, stream.held + bytes.len()),
            took: bytes.len(),
            printed: at,
        };
    };
    let done = take_whole(stream.session, count, line, image, slots, out, at);
    Step {
        stream: done.stream,
        took: count - stream.held,
        printed: done.printed,
    }
}
