// What is saved of a history between two calls: its numbers, a byte each and two for the total; and a history read back, where it is good.
ghost use Rattle.std.specs.Prelude.{◌+◌, ◌≤◌, ◌≡◌, length};
ghost use Rattle.buffer.specs.Write.{Pushed};
ghost use Rattle.history.specs.Saved.{saved_size, saved_of, restored, Fits};

use super::stepping::History;
use super::testing::is_good;
use buffer::push;

impl History {
    // How many bytes are saved.
    pub const SAVED: usize = 5;

    // Writes the record at a place and returns the place after it.
    pub fn save(self, out: &mut [u8], at: usize) -> usize
        requires { Fits self × (at + saved_size ≤ length out.old) }
        ensures { Pushed (saved_of self) out.old at result out.new }
    {
        let [high, low] = (self.total as u16).to_be_bytes();
        let bytes = [
            self.count as u8,
            self.place as u8,
            high,
            low,
            self.first as u8,
        ];
        push(&bytes, out, at)
    }

    // The record that bytes hold, if they have its length and it is good with these slots.
    pub fn restored(bytes: &[u8], slots: &[u8]) -> Option<History>
        ensures { result ≡ restored bytes.now slots.now }
    {
        let &[count, place, high, low, first] = bytes else {
            return None;
        };
        let history = History {
            count: usize::from(count),
            place: usize::from(place),
            total: usize::from(u16::from_be_bytes([high, low])),
            first: usize::from(first),
        };
        if is_good(history, slots) {
            Some(history)
        } else {
            None
        }
    }
}
