// The search itself: frame after frame until what is sought, the end of the search or the end of the image.
ghost use Rattle.std.specs.Prelude.{◌≡◌};
ghost use Rattle.lookup.specs.Searches.{wanted, ended_by};
ghost use Rattle.lookup.specs.Spots.{spot};

use super::look::{Look, Sought, look_first};
use buffer::rest;

// The first frame that is sought, from a place on.
pub fn seek(image: &[u8], from: usize, sought: Sought, key: &[u8]) -> Option<usize>
    ensures { result ≡ spot (wanted sought key.now) (ended_by sought) image.now from }
{
    let mut at = from;
    while at < image.len() {
        match look_first(rest(image, at), sought, key) {
            Look::Hit => return Some(at),
            Look::Pass(size) => at += size,
            Look::Stop => return None,
        }
    }
    None
}
