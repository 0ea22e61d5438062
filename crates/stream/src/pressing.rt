// Keys that wait are pressed, as long as there is room for what one of them may print.
ghost use Rattle.std.specs.Prelude.{◌≡◌, ◌+◌, ◌≤◌, length};
ghost use Rattle.session.specs.Sizes.{key_room};
ghost use Rattle.session.specs.Held.{Holds};
ghost use Rattle.stream.specs.Bytes.{line_room};
ghost use Rattle.stream.specs.Held.{standing_of, keys_of, Ready};
ghost use Rattle.stream.specs.Inner.{PressedAt, PressedSome};

use super::standing::{Printout, Stream};
use session::{KEY_ROOM, Printing, Session, press};

// A session after a key, the place after what the key printed, and whether it was the last: session and place are told either way, so it is no enum.
#[derive(Clone, Copy)]
pub struct Keyed {
    pub session: Session,
    pub printed: usize,
    pub ends: bool,
}

// Presses a key, and prints at a place. A key that finds room in a session that is held is never refused.
fn press_at(
    session: Session,
    image: &[u8],
    slots: &mut [u8],
    byte: u8,
    out: &mut [u8],
    at: usize,
) -> Keyed
    requires { Holds (standing_of session image.now slots.old) session image.now slots.old × (at + key_room ≤ length out.old) }
    ensures { PressedAt session byte image.now slots.old out.old at result slots.new out.new }
{
    let pressing = press(session, image, slots, byte, &mut out[at..]);
    match pressing.answer.unwrap() {
        Printing::Goes(n) => Keyed {
            session: pressing.session,
            printed: at + n,
            ends: false,
        },
        Printing::Ends(n) => Keyed {
            session: pressing.session,
            printed: at + n,
            ends: true,
        },
    }
}

// Presses the keys of a line from `next` up to `keys`. After the last of them the line is at its end.
pub fn press_some(
    session: Session,
    next: usize,
    keys: usize,
    line: &[u8],
    image: &[u8],
    slots: &mut [u8],
    out: &mut [u8],
    at: usize,
) -> Printout
    requires ready { Ready session line.now image.now slots.old }
    requires next_le_keys { (next ≤ keys) × (keys ≤ line_room) × (at ≤ length out.old) }
    ensures { PressedSome session (keys_of line.now next keys) image.now slots.old out.old at result line.now slots.new out.new }
{
    let mut here = session;
    let mut printed = at;
    for k in next..keys {
        if out.len() - printed < KEY_ROOM {
            return Printout {
                stream: Stream::waiting(here, k, keys),
                printed,
            };
        }
        let key = press_at(here, image, slots, line[k], out, printed);
        here = key.session;
        printed = key.printed;
        if key.ends {
            return Printout {
                stream: Stream::stopped(here),
                printed,
            };
        }
    }
    Printout {
        stream: Stream::settled(here),
        printed,
    }
}
