// The pairs of a table, in the order of their keys, as frames of options or of flags: measured, and written.
ghost use Rattle.std.specs.Prelude.{◌≡◌, ℕ, List, ◌≤◌, ◌<◌, ◌^◌, length};
ghost use Rattle.buffer.specs.Write.{Written};
ghost use Rattle.frame.specs.Series.{runs};
ghost use Rattle.table.specs.Inner.{map_of};
ghost use Rattle.report.specs.Report.{option_frame, flag_frame};
ghost use Rattle.report.specs.Pairs.{Short, option_short, flag_short};

use buffer::push_byte;
use frame::{frame_size, long_text_size, write_frame, write_long_text};
use table::{Table, key, value};

// What frame a pair becomes.
pub trait PairFrame {
    ghost frame: { List ℕ × List ℕ → List ℕ };

    // How many bytes the frame takes.
    fn size(key: &[u8], value: &[u8]) -> usize
        requires { (length key.now < 256 ^ 2) × (length value.now < 256 ^ 2) }
        ensures { result ≡ length (frame (key.now, value.now)) };

    // Writes the frame at the front of out and returns how many bytes that is.
    fn write(key: &[u8], value: &[u8], out: &mut [u8]) -> usize
        requires key_len_bound { (length key.now < 256 ^ 2) × (length value.now < 256 ^ 2) }
        requires value_in_bounds { length (frame (key.now, value.now)) ≤ length out.old }
        ensures { Written (frame (key.now, value.now)) out.old result out.new };

    // An entry has 16 bits for the length of its key and 13 for that of its value: its frame is short.
    ghost short: { Short frame };
}

// The frame of an option: its key and then its value.
#[derive(Clone, Copy)]
pub struct OptionFrame;

impl PairFrame for OptionFrame {
    ghost frame = { option_frame };

    fn size(key: &[u8], value: &[u8]) -> usize {
        1 + long_text_size(key) + long_text_size(value)
    }

    fn write(key: &[u8], value: &[u8], out: &mut [u8]) -> usize {
        let at = push_byte(0x12, out, 0);
        let next = at + write_long_text(key, &mut out[at..]);
        next + write_long_text(value, &mut out[next..])
    }

    ghost short = { option_short };
}

// The frame of a flag, which has the key alone.
#[derive(Clone, Copy)]
pub struct FlagFrame;

impl PairFrame for FlagFrame {
    ghost frame = { flag_frame };

    fn size(key: &[u8], _value: &[u8]) -> usize {
        frame_size(key)
    }

    fn write(key: &[u8], _value: &[u8], out: &mut [u8]) -> usize {
        write_frame(0x13, key, out)
    }

    ghost short = { flag_short };
}

// How many bytes the frames of the pairs take.
pub fn pairs_size<'a, P: PairFrame>(words: &'a [u8], image: &'a [u8], pairs: Table) -> usize
    ensures { (result ≡ length (runs P.frame (map_of words.now image.now pairs))) × (result ≤ 0x800000) }
{
    let n = pairs.size();
    let mut size = 0;
    for e in &pairs.at[..n] {
        size += P::size(key(words, image, *e), value(words, *e));
    }
    size
}

// Writes the frames of the pairs at the front of out and returns how many bytes that is.
pub fn write_pairs<'a, P: PairFrame>(
    words: &'a [u8],
    image: &'a [u8],
    pairs: Table,
    out: &mut [u8],
) -> usize
    requires { length (runs P.frame (map_of words.now image.now pairs)) ≤ length out.old }
    ensures { Written (runs P.frame (map_of words.now image.now pairs)) out.old result out.new }
{
    let n = pairs.size();
    let mut o = 0;
    for e in &pairs.at[..n] {
        o += P::write(key(words, image, *e), value(words, *e), &mut out[o..]);
    }
    o
}
