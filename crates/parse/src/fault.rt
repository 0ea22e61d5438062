// The fault of a verdict: its number, and its text in two parts, dashes and what stands after them.
ghost use Rattle.std.specs.Prelude.{◌≡◌, ◌<◌};
ghost use Rattle.parse.specs.Commands.{empty_command};
ghost use Rattle.parse.specs.Inner.{number_of, dashes_of, text_of};

use super::judging::Fault;
use buffer::part;

// 0 where there is none.
pub fn number_of(verdict: Result<(), Fault>) -> u8
    ensures { result ≡ number_of verdict }
{
    match verdict {
        Ok(()) => 0,
        Err(Fault::NoWords | Fault::UnknownCommand(_)) => 4,
        Err(Fault::UnknownOption(_)) => 5,
        Err(Fault::MissingValue(_)) => 6,
        Err(Fault::MissingRequired(_)) => 7,
    }
}

pub fn dashes_of(verdict: Result<(), Fault>) -> usize
    ensures { (result ≡ dashes_of verdict) × (result < 256) }
{
    match verdict {
        Err(Fault::UnknownOption(told) | Fault::MissingValue(told)) => usize::from(told.dashes),
        _ => 0,
    }
}

// What stands after the dashes: a part of the words, of the command's part of the image, or the text of a line without a word.
pub fn text_of<'a>(
    words: &'a [u8],
    node: &'a [u8],
    empty: &'a [u8],
    verdict: Result<(), Fault>,
) -> &'a [u8]
    requires { empty.now ≡ empty_command }
    ensures { result.now ≡ text_of words.now node.now verdict }
{
    match verdict {
        Ok(()) => part(words, 0, 0),
        Err(Fault::NoWords) => empty,
        Err(Fault::UnknownCommand(word)) => part(words, word.start, word.length),
        Err(Fault::UnknownOption(told) | Fault::MissingValue(told)) => {
            part(words, told.start, told.length)
        }
        Err(Fault::MissingRequired(name)) => part(node, name.start, name.length),
    }
}
