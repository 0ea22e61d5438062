// Words that come as frames one after the other, of any kind and up to the end, and go as frames of one kind: path words and positionals.
ghost use Rattle.std.specs.Prelude.{◌≡◌, ℕ, ◌≤◌, length};
ghost use Rattle.buffer.specs.Write.{Written};
ghost use Rattle.frame.specs.Framed.{frame_of};
ghost use Rattle.frame.specs.Series.{texts_in, runs, AllFrames};

use frame::{Framed, read_frame, write_frame};

// How many bytes the words take as frames of any kind: as many as they are read from.
pub fn words_size(words: &[u8]) -> usize
    requires { AllFrames words.now }
    ensures { ((kind : ℕ) → result ≡ length (runs (frame_of kind) (texts_in words.now))) × (result ≤ length words.now) }
{
    let mut at = 0;
    while at < words.len() {
        let Framed::Frame { kind: _, length } = read_frame(words, at) else {
            return 0;
        };
        at = at + 3 + length;
    }
    at
}

// Writes the words as frames of that kind at the front of out and returns how many bytes that is. A word goes to the place that it is read from.
pub fn write_words(kind: u8, words: &[u8], out: &mut [u8]) -> usize
    requires { (length (runs (frame_of kind) (texts_in words.now)) ≤ length out.old) × AllFrames words.now }
    ensures { Written (runs (frame_of kind) (texts_in words.now)) out.old result out.new }
{
    let mut at = 0;
    while at < words.len() {
        let Framed::Frame { kind: _, length } = read_frame(words, at) else {
            return 0;
        };
        let start = at + 3;
        let end = start + length;
        at += write_frame(kind, &words[start..end], &mut out[at..]);
    }
    at
}
