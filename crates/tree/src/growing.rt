// One frame more at the end of an image that lies at the front of a lent buffer.
ghost use Rattle.std.specs.Prelude.{◌≡◌};
ghost use Rattle.tree.specs.Growth.{has_room, Grows};

use super::check::IMAGE_LIMIT;
use super::walk::{Walk, step_over};
use buffer::push;

// Whether the walk's numbers are in range and so many bytes have room after its place: in the buffer, and in an image.
fn has_room(walk: Walk, size: usize, room: usize) -> bool
    ensures { result ≡ has_room walk size room }
{
    if 8 < walk.deep {
        return false;
    }
    if IMAGE_LIMIT < walk.at {
        return false;
    }
    if IMAGE_LIMIT - walk.at < size {
        return false;
    }
    walk.at + size <= room
}

// Appends bytes to the image that the walk has passed, if they are one frame and nothing else, which keeps all rules after the frames before: the walk
// after it. A refusal leaves the buffer as it is, and the walk is still where it stands.
pub fn add_frame(walk: Walk, bytes: &[u8], buffer: &mut [u8]) -> Option<Walk>
    ensures { Grows walk bytes.now buffer.old result buffer.new }
{
    if !has_room(walk, bytes.len(), buffer.len()) {
        return None;
    }
    let next = step_over(buffer, walk, bytes)?;
    let at = walk.at;
    if next.at != at + bytes.len() {
        return None;
    }
    push(bytes, buffer, at);
    Some(next)
}
