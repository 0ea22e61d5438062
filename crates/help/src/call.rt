// The call: help for the words of a line, or the first refusal in the order of the standard.
ghost use Rattle.std.specs.Prelude.{◌≡◌, ◌≤◌, length, Ok, Err};
ghost use Rattle.tree.specs.Rules.{check_tree};
ghost use Rattle.help.specs.Answer.{unknown, help_line, Helping};
ghost use Rattle.help.specs.declared.call.HelpRefusal.TheVariants.{BadTree, NoRoom};
ghost use Rattle.help.specs.Inner.{Replied};
ghost use Rattle.frame.specs.Limits.{line_limit};

use super::path::follow;
use super::show::show_help;
use buffer::TooShort;
use frame::{LINE_LIMIT, frame_size, told_length, write_frame};
use text::{next_word, well_formed_prefix};
use tree::{BadFrame, check_tree};

// Why no help is shown.
#[derive(Clone, Copy)]
pub enum HelpRefusal {
    // The image is bad: the number of the first frame that breaks a rule.
    BadTree(usize),
    // The line has over 1,024 bytes: its length, 65,535 if more.
    LineTooLong(usize),
    // The line is ill-formed: the length of its longest well-formed prefix.
    IllFormed(usize),
    // The line has no words.
    NoWords,
    // A word names no node: a frame 1E with it stands in the buffer, so many bytes.
    UnknownCommand(usize),
    // The buffer is too short: the length needed.
    NoRoom(usize),
}

impl From<BadFrame> for HelpRefusal {
    ghost from_gives = { λ bad refusal. refusal ≡ BadTree bad.number };

    fn from(bad: BadFrame) -> HelpRefusal {
        HelpRefusal::BadTree(bad.number)
    }
}

impl From<TooShort> for HelpRefusal {
    ghost from_gives = { λ short refusal. refusal ≡ NoRoom short.needed };

    fn from(short: TooShort) -> HelpRefusal {
        HelpRefusal::NoRoom(short.needed)
    }
}

// The refusal of a word that is unknown, with the frame 1E of it.
fn put_unknown(word: &[u8], out: &mut [u8]) -> HelpRefusal
    requires { length word.now ≤ line_limit }
    ensures { Replied (unknown word.now) out.old (Err result) out.new }
{
    let needed = frame_size(word);
    if out.len() < needed {
        return HelpRefusal::NoRoom(needed);
    }
    HelpRefusal::UnknownCommand(write_frame(0x1E, word, out))
}

// The reply to the words of a line.
fn reply(image: &[u8], line: &[u8], out: &mut [u8]) -> Result<usize, HelpRefusal>
    requires { (check_tree image.now ≡ Ok tt) × (length line.now ≤ line_limit) }
    ensures { Replied (help_line image.now line.now) out.old result out.new }
{
    if next_word(line, 0).is_none() {
        return Err(HelpRefusal::NoWords);
    }
    match follow(image, line) {
        Ok(node) => {
            let length = show_help(node.of(image), line, out)?;
            Ok(length)
        }
        Err(word) => Err(put_unknown(word.of(line), out)),
    }
}

// The help for the words of a line, split on white space only, at the front of out.
pub fn help(image: &[u8], line: &[u8], out: &mut [u8]) -> Result<usize, HelpRefusal>
    ensures { Helping image.now line.now out.old result out.new }
{
    check_tree(image)?;
    if LINE_LIMIT < line.len() {
        return Err(HelpRefusal::LineTooLong(told_length(line.len())));
    }
    let place = well_formed_prefix(line);
    if place < line.len() {
        return Err(HelpRefusal::IllFormed(place));
    }
    reply(image, line, out)
}
