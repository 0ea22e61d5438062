// From frame to frame by places in an image: what the reader's functions leave to functions with plain parameters.
ghost use Rattle.std.specs.Prelude.{◌≡◌, length, drop};
ghost use Rattle.tree.specs.Images.{frames_of};
ghost use Rattle.reader.specs.Places.{size_first, next_place};

use image::{Head, head_at};

// How many bytes a frame takes, 0 where there is none: so much is passed, as the definition `next_place` says.
fn size_of(head: Head) -> usize
    ensures { result ≡ size_first head }
{
    match head {
        Head::Node { texts, .. } | Head::Option { texts, .. } | Head::Flag { texts, .. } =>
            texts.size,
        Head::Bad | Head::End => 0,
    }
}

// The place after the frame at a place; the same place where there is none.
pub fn next_at(image: &[u8], at: usize) -> usize
    ensures { result ≡ next_place image.now at }
{
    at + size_of(head_at(image, at))
}

// How many frames there are from a place on.
pub fn count_from(image: &[u8], at: usize) -> usize
    ensures { result ≡ length (frames_of (drop at image.now)) }
{
    let mut n = 0;
    let mut place = at;
    while place < image.len() {
        let next = next_at(image, place);
        if next == place {
            return n;
        }
        place = next;
        n += 1;
    }
    n
}
