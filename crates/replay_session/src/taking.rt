// The loop of `console`: step over what is left of a piece, keep what is printed, and go on to the next piece when this one is taken and no key waits.
ghost use Rattle.std.specs.Prelude.{◌≡◌, false, [], ◌<◌, ◌≤◌, length};
ghost use Rattle.history.specs.Journal.{no_entries, slots_of};
ghost use Rattle.stream.specs.Bytes.{line_room};
ghost use Rattle.stream.specs.Held.{busy_with, Sound};

use buffer::{part, rest};
use keys::Profile;
use replay::line::put_all;
use stream::{Stream, finish, step};

// A stream, how many bytes of its piece are taken, and how many are printed.
#[derive(Clone, Copy)]
pub struct Taken {
    pub stream: Stream,
    pub took: usize,
    pub printed: usize,
}

// Whether nothing is left to do with a piece of so many bytes.
fn is_done(told: Taken, length: usize) -> bool {
    told.stream.over || !told.stream.is_busy() && told.took == length
}

// A step over what is left of a piece.
fn turn(
    told: Taken,
    piece: &[u8],
    line: &mut [u8],
    image: &mut [u8],
    slots: &mut [u8],
    out: &mut [u8],
    answer: &mut [u8],
) -> Taken
    requires { Sound told.stream line.old image.old slots.old × (told.took ≤ length piece.now) }
    ensures { Sound result.stream line.new image.new slots.new × (result.took ≤ length piece.now) }
{
    let next = step(told.stream, rest(piece, told.took), line, image, slots, out);
    Taken {
        stream: next.stream,
        took: told.took + next.took,
        printed: put_all(part(out, 0, next.printed), answer, told.printed),
    }
}

// Takes a whole piece. A proved loop has to end, so its turns are counted up to a number that no piece uses up.
fn take_piece(
    told: Taken,
    piece: &[u8],
    line: &mut [u8],
    image: &mut [u8],
    slots: &mut [u8],
    out: &mut [u8],
    answer: &mut [u8],
) -> Taken
    requires { Sound told.stream line.old image.old slots.old × (told.took ≤ length piece.now) }
    ensures { Sound result.stream line.new image.new slots.new }
{
    let mut here = told;
    for _ in 0..u64::MAX {
        if is_done(here, piece.len()) {
            return here;
        }
        here = turn(here, piece, line, image, slots, out, answer);
    }
    here
}

// The input's end: what it prints is put after what was. It prints nothing where a key still waits.
fn end(stream: Stream, out: &mut [u8], answer: &mut [u8], printed: usize) -> usize
    requires { (busy_with stream ≡ false → stream.session.lines < 65535) × (7 ≤ length out.old) }
{
    if stream.is_busy() {
        return printed;
    }
    let n = finish(stream, out);
    put_all(part(out, 0, n), answer, printed)
}

// All pieces of a session, of so many bytes each, with keys read as the profile has them: puts what is printed into the answer, and returns how many bytes
// that is.
pub fn take_all(
    profile: Profile,
    session: &[u8],
    size: usize,
    line: &mut [u8],
    image: &mut [u8],
    slots: &mut [u8],
    out: &mut [u8],
    answer: &mut [u8],
) -> usize
    requires { (length line.old ≡ line_room) × (length image.old ≡ 32768) × (slots.old ≡ slots_of no_entries) × (0 < size) × (7 ≤ length out.old) }
{
    let mut told = Taken {
        stream: Stream::start(profile),
        took: 0,
        printed: 0,
    };
    for piece in session.chunks(size) {
        let next = Taken { took: 0, ..told };
        told = take_piece(next, piece, line, image, slots, out, answer);
    }
    end(told.stream, out, answer, told.printed)
}
