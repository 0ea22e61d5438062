// The ways by which a session is replayed: in pieces of 1, 7, 64 and 1,000 bytes and all at once, and with room for what one key may print or two.
ghost use Rattle.std.specs.Prelude.{◌≡◌, ◌<◌, ◌≤◌, length};

use crate::taking::take_all;
use keys::Profile;
use stream::{blank_image, blank_line, blank_slots};

// The number of ways: five sizes of pieces, and one of them again with more room.
pub const WAYS: usize = 6;

// Room for what one key may print.
fn blank_out() -> [u8; 131101]
    ensures { length result ≡ 131101 }
{
    [0; 131101]
}

// Room for what two keys may print.
fn blank_wide() -> [u8; 262202]
    ensures { length result ≡ 262202 }
{
    [0; 262202]
}

// Replays a session in pieces of so many bytes: puts what it prints into the answer, and returns how many bytes that is.
fn replay(profile: Profile, session: &[u8], size: usize, out: &mut [u8], answer: &mut [u8]) -> usize
    requires { (0 < size) × (7 ≤ length out.old) }
{
    let mut line = blank_line();
    let mut image = blank_image();
    let mut slots = blank_slots();
    take_all(
        profile, session, size, &mut line, &mut image, &mut slots, out, answer,
    )
}

// The size of the pieces of a way.
fn size_of(way: usize) -> usize
    ensures { 0 < result }
{
    match way {
        0 => 1,
        1 => 7,
        2 => 64,
        3 => 1000,
        4 => usize::MAX,
        _ => 64,
    }
}

// Replays a session by the way of that number; the last has room for what two keys may print.
pub fn replay_by(way: usize, profile: Profile, session: &[u8], answer: &mut [u8]) -> usize {
    if way == WAYS - 1 {
        let mut wide = blank_wide();
        return replay(profile, session, size_of(way), &mut wide, answer);
    }
    let mut out = blank_out();
    replay(profile, session, size_of(way), &mut out, answer)
}
