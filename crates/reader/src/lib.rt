// A frame reader: a struct that holds an image and a place in it, and thin functions over it, each of which leaves the work to a
// function of `walk` or of the crate image. Callers that hold no reader use `frames`, whose parameter is plain.
#![tactic(auto)]

mod walk;

ghost use Rattle.std.specs.Prelude.{◌≡◌, length, drop};
ghost use Rattle.image.specs.Reading.{head_first};
ghost use Rattle.tree.specs.Images.{frames_of};
ghost use Rattle.reader.specs.Places.{next_place};

use image::{Head, head_at};
use walk::{count_from, next_at};

#[derive(Clone, Copy)]
pub struct Reader<'a> {
    pub image: &'a [u8],
    pub at: usize,
}

// A reader at the beginning of an image.
pub fn new<'a>(image: &'a [u8]) -> Reader<'a>
    ensures { (result.image ≡ image.entry) × (result.at ≡ 0) }
{
    Reader { image, at: 0 }
}

// Where a reader stands.
pub fn place<'a>(r: Reader<'a>) -> usize
    ensures { result ≡ r.entry.at }
{
    r.at
}

// The head of the frame where a reader stands.
pub fn head<'a>(r: Reader<'a>) -> Head
    ensures { result ≡ head_first (drop r.entry.at r.entry.image.now) }
{
    head_at(r.image, r.at)
}

// The reader after that frame; where there is none it stays.
pub fn next<'a>(r: Reader<'a>) -> Reader<'a>
    ensures { (result.image ≡ r.entry.image) × (result.at ≡ next_place r.entry.image.now r.entry.at) }
{
    Reader {
        at: next_at(r.image, r.at),
        ..r
    }
}

// How many frames there are from where a reader stands.
pub fn count<'a>(r: Reader<'a>) -> usize
    ensures { result ≡ length (frames_of (drop r.entry.at r.entry.image.now)) }
{
    count_from(r.image, r.at)
}

// How many frames an image has, before anything that is none.
pub fn frames(image: &[u8]) -> usize
    ensures { result ≡ length (frames_of image.now) }
{
    count(new(image))
}
