// Read, step, write: the loop of the console.
ghost use Rattle.std.specs.Prelude.{◌≡◌, true, false, [], ◌≤◌, length};
ghost use Rattle.tree.specs.Rules.{image_limit};
ghost use Rattle.history.specs.Journal.{no_entries, slots_of};
ghost use Rattle.session.specs.Sizes.{last_line};
ghost use Rattle.stream.specs.Bytes.{line_room};
ghost use Rattle.console.specs.Turns.{piece_room, out_room, starting, stopped, Ready, ReadOn, Turning};

use crate::channels::{read_piece, write_out};
use buffer::{part, rest};
use keys::Profile;
use session::KEY_ROOM;
use stream::{Stream, blank_image, blank_line, blank_slots, finish, step};

// The stream, where what is left of the piece that was read lies in its buffer, and whether the console is at its end: the contract of a turn tells the stream
// then too, so it is no Option.
#[derive(Clone, Copy)]
pub struct Console {
    pub stream: Stream,
    pub at: usize,
    pub end: usize,
    pub over: bool,
}

impl Console {
    // With nothing read yet, and keys read as the profile has them.
    fn start(profile: Profile) -> Console
        ensures { result ≡ starting profile }
    {
        Console {
            stream: Stream::start(profile),
            at: 0,
            end: 0,
            over: false,
        }
    }

    // At its end: nothing is read or written any more.
    fn stopped(stream: Stream) -> Console
        ensures { result ≡ stopped stream }
    {
        Console {
            stream,
            at: 0,
            end: 0,
            over: true,
        }
    }
}

// Reads the next piece. At the input's end a line that is not at its end is told; a read that failed is not the input's end.
fn read_on(rt: &HostRuntime, stream: Stream, input: &mut [u8], out: &mut [u8]) -> Console
    requires { (stream.session.lines ≤ last_line) × (7 ≤ length out.old) }
    ensures { ReadOn stream input.old out.old result input.new out.new }
{
    match read_piece(rt, input) {
        Some(0) => {
            let n = finish(stream, out);
            write_out(rt, part(out, 0, n));
            Console::stopped(stream)
        }
        Some(n) => Console {
            stream,
            at: 0,
            end: n,
            over: false,
        },
        None => Console::stopped(stream),
    }
}

// A step over what is left of the piece; what it prints is written before anything more is read, and after a write that failed nothing is.
fn turn(
    rt: &HostRuntime,
    console: Console,
    input: &mut [u8],
    line: &mut [u8],
    image: &mut [u8],
    slots: &mut [u8],
    out: &mut [u8],
) -> Console
    requires { Ready console input.old line.old image.old slots.old out.old }
    ensures { Turning console input.old line.old image.old slots.old out.old result input.new line.new image.new slots.new out.new }
{
    let at = console.at;
    let end = console.end;
    let piece = rest(part(input, 0, end), at);
    let made = step(console.stream, piece, line, image, slots, out);
    let stream = made.stream;
    let next = at + made.took;
    if !write_out(rt, part(out, 0, made.printed)) || stream.over {
        return Console::stopped(stream);
    }
    if next < end || stream.is_busy() {
        return Console {
            stream,
            at: next,
            end,
            over: false,
        };
    }
    read_on(rt, stream, input, out)
}

// Turns up to the end. A proved loop has to end and an input need not, so turns are counted up to a number that no run uses up.
fn turns(
    rt: &HostRuntime,
    profile: Profile,
    input: &mut [u8],
    line: &mut [u8],
    image: &mut [u8],
    slots: &mut [u8],
    out: &mut [u8],
)
    requires { (length input.old ≡ piece_room) × (length line.old ≡ line_room) × (length image.old ≡ image_limit) × (slots.old ≡ slots_of no_entries) × (length out.old ≡ out_room) }
{
    let mut console = Console::start(profile);
    for _ in 0..u64::MAX {
        if console.over {
            return;
        }
        console = turn(rt, console, input, line, image, slots, out);
    }
}

// Room for what two keys may print.
const OUT_ROOM: usize = 2 * KEY_ROOM;

fn blank_out() -> [u8; OUT_ROOM]
    ensures { length result ≡ out_room }
{
    [0; OUT_ROOM]
}

pub fn run(rt: &HostRuntime, profile: Profile) {
    let mut input = [0u8; 65536];
    let mut line = blank_line();
    let mut image = blank_image();
    let mut slots = blank_slots();
    let mut out = blank_out();
    turns(
        rt, profile, &mut input, &mut line, &mut image, &mut slots, &mut out,
    );
}
