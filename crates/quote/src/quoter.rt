// `quote`: measures the line of the words that are given, then writes it into a lent buffer.
ghost use Rattle.std.specs.Prelude.{◌+◌, ◌≤◌, ◌≡◌, ◌++◌, length};
ghost use Rattle.buffer.specs.Write.{over, Pushed};
ghost use Rattle.text.specs.Decoding.{well_formed_length};
ghost use Rattle.quote.specs.Given.{listed, judge_words};
ghost use Rattle.quote.specs.Shown.{shown};
ghost use Rattle.quote.specs.Joined.{gap_before};
ghost use Rattle.quote.specs.Answer.{line_of, Quotation};
ghost use Rattle.quote.specs.Inner.{line_size_of, IsFine};

use super::given::word_at;
use super::word::push_shown;
use buffer::push_byte;
use frame::{Framed, LINE_LIMIT, read_frame, told_length};

// Why words are not quoted.
#[derive(Clone, Copy)]
pub enum QuoteRefusal {
    // A word is empty, ill-formed or broken: its number, from 0.
    BadWord(usize),
    // The line has over 1,024 bytes: its length, 65,535 if more.
    LineTooLong(usize),
    // The buffer is too short: the length needed.
    NoRoom(usize),
}

// How many bytes stand before a word that n words precede.
fn gap_size(n: usize) -> usize
    ensures { result ≡ length (gap_before n) }
{
    usize::from(n != 0)
}

// The length of the words' line, or `Err` with the number of the first bad word.
fn measure(words: &[u8]) -> Result<usize, usize>
    ensures { result ≡ line_size_of words.now }
{
    let mut size = 0;
    let mut n = 0;
    let mut at = 0;
    while at < words.len() {
        let word = word_at(words, at).ok_or(n)?;
        size = size + gap_size(n) + word.size;
        n += 1;
        at = at + 3 + word.length;
    }
    Ok(size)
}

// Writes a word that n words precede at the place `at` and returns the place after.
fn push_word(n: usize, word: &[u8], out: &mut [u8], at: usize) -> usize
    requires word_value { well_formed_length word.now ≡ length word.now }
    requires word_in_bounds { at + length (gap_before n ++ shown word.now) ≤ length out.old }
    ensures { Pushed (gap_before n ++ shown word.now) out.old at result out.new }
{
    if n == 0 {
        return push_shown(word, out, at);
    }
    let next = push_byte(0x20, out, at);
    push_shown(word, out, next)
}

// Writes the line of words that are all good.
fn write(words: &[u8], out: &mut [u8])
    requires fine { IsFine (judge_words (listed words.now)) }
    requires words_in_bounds { length (line_of words.now) ≤ length out.old }
    ensures { out.new ≡ over (line_of words.now) out.old }
{
    let mut o = 0;
    let mut n = 0;
    let mut at = 0;
    while at < words.len() {
        let Framed::Frame { length, .. } = read_frame(words, at) else {
            return;
        };
        let start = at + 3;
        let end = start + length;
        o = push_word(n, &words[start..end], out, o);
        n += 1;
        at = end;
    }
}

// The line of the words that are given as frames of kind 14, at the front of out.
pub fn quote(words: &[u8], out: &mut [u8]) -> Result<usize, QuoteRefusal>
    ensures { Quotation words.now out.old result out.new }
{
    match measure(words) {
        Err(number) => Err(QuoteRefusal::BadWord(number)),
        Ok(needed) => {
            if LINE_LIMIT < needed {
                return Err(QuoteRefusal::LineTooLong(told_length(needed)));
            }
            if out.len() < needed {
                return Err(QuoteRefusal::NoRoom(needed));
            }
            write(words, out);
            Ok(needed)
        }
    }
}
