// The words of a line, one after the other.
ghost use Rattle.std.specs.Prelude.{◌+◌, ◌*◌, ◌<◌, length};
ghost use Rattle.text.specs.Apart.{words_between};
ghost use Rattle.buffer.specs.Inks.{InkedFrom, count_limit};
ghost use Rattle.help.specs.Texts.{spaced};

use buffer::put;
use text::next_word;

// The words of a line, each after a space.
pub fn put_words(line: &[u8], out: &mut [u8], at: usize) -> usize
    requires { at + 64 * length line.now < count_limit }
    ensures { InkedFrom line.now (spaced (words_between line.now)) out.old at result out.new }
{
    let mut place = 0;
    let mut end = at;
    while let Some(word) = next_word(line, place) {
        let space = put(b" ", out, end);
        end = put(word.of(line), out, space);
        place = word.end;
    }
    end
}
