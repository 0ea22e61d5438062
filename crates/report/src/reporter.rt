// `write_report`: measures the frames of a parsed command, then writes them into a lent buffer.
ghost use Rattle.std.specs.Prelude.{◌≡◌, ◌+◌, ◌≤◌, ◌<◌, length};
ghost use Rattle.buffer.specs.Write.{over};
ghost use Rattle.frame.specs.Series.{AllFrames};
ghost use Rattle.report.specs.Inner.{report_held, Reporting};

use super::pairs::{FlagFrame, OptionFrame, pairs_size, write_pairs};
use super::series::{words_size, write_words};
use buffer::TooShort;
use table::Table;

// The kinds of the frames of words.
const PATH: u8 = 0x11;

const POSITIONAL: u8 = 0x14;

// How many bytes the report takes. A table comes to at most 8 MiB, so with slices that are in memory together the sum is in range.
fn report_size<'a>(
    words: &'a [u8],
    image: &'a [u8],
    path: &[u8],
    options: Table,
    flags: Table,
    rest: &[u8],
) -> usize
    requires { (length path.now + length rest.now < 0x8000000000000000) × AllFrames path.now × AllFrames rest.now }
    ensures { result ≡ length (report_held words.now image.now path.now options flags rest.now) }
{
    let texts = words_size(path) + words_size(rest);
    texts
        + pairs_size::<OptionFrame>(words, image, options)
        + pairs_size::<FlagFrame>(words, image, flags)
}

// Writes the report at the front of out. The writer of each kind is lent the rest of it, from the cursor on, and returns its length.
fn write_frames<'a>(
    words: &'a [u8],
    image: &'a [u8],
    path: &[u8],
    options: Table,
    flags: Table,
    rest: &[u8],
    out: &mut [u8],
)
    requires { (length (report_held words.now image.now path.now options flags rest.now) ≤ length out.old) × AllFrames path.now × AllFrames rest.now }
    ensures { out.new ≡ over (report_held words.now image.now path.now options flags rest.now) out.old }
{
    let mut at = write_words(PATH, path, out);
    at += write_pairs::<OptionFrame>(words, image, options, &mut out[at..]);
    at += write_pairs::<FlagFrame>(words, image, flags, &mut out[at..]);
    write_words(POSITIONAL, rest, &mut out[at..]);
}

// The report of the path words, the options, the flags and the positionals, at the front of out. The words of `path` and `rest` come as frames,
// and the keys and values of the tables lie in words and image.
pub fn write_report<'a>(
    words: &'a [u8],
    image: &'a [u8],
    path: &[u8],
    options: Table,
    flags: Table,
    rest: &[u8],
    out: &mut [u8],
) -> Result<usize, TooShort>
    requires { (length path.now + length rest.now < 0x8000000000000000) × AllFrames path.now × AllFrames rest.now }
    ensures { Reporting (report_held words.now image.now path.now options flags rest.now) out.old result out.new }
{
    let needed = report_size(words, image, path, options, flags, rest);
    if out.len() < needed {
        return Err(TooShort { needed });
    }
    write_frames(words, image, path, options, flags, rest, out);
    Ok(needed)
}
