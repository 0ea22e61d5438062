// Lists of rows over frames, and a list after its title.
ghost use Rattle.std.specs.Prelude.{◌≡◌, ◌+◌, ◌*◌, ◌<◌, length};
ghost use Rattle.tree.specs.Images.{frames_of};
ghost use Rattle.buffer.specs.Inks.{InkedFrom, count_limit};
ghost use Rattle.rows.specs.Rows.{rows, TitledRows};

use super::row::{Listing, listed_size, put_row};
use buffer::{put, rest};

// The rows that frames give in a list.
pub fn put_rows(frames: &[u8], listing: Listing, out: &mut [u8], at: usize) -> usize
    requires { at + 64 * length frames.now < count_limit }
    ensures { InkedFrom frames.now (rows listing (frames_of frames.now)) out.old at result out.new }
{
    let mut place = 0;
    let mut end = at;
    while place < frames.len() {
        let s = rest(frames, place);
        let Some(size) = listed_size(s, listing) else {
            return end;
        };
        end = put_row(s, listing, out, end);
        place += size;
    }
    end
}

// How long those rows are: the same walk, with no room to write.
fn rows_size(frames: &[u8], listing: Listing) -> usize
    requires { 64 * length frames.now < count_limit }
    ensures { result ≡ length (rows listing (frames_of frames.now)) }
{
    put_rows(frames, listing, &mut [], 0)
}

// A list after its title; an empty one has none.
pub fn put_titled(title: &[u8], frames: &[u8], listing: Listing, out: &mut [u8], at: usize) -> usize
    requires { at + length title.now + 64 * length frames.now < count_limit }
    ensures { TitledRows title.now frames.now listing out.old at result out.new }
{
    if rows_size(frames, listing) == 0 {
        return at;
    }
    let first = put(title, out, at);
    put_rows(frames, listing, out, first)
}
