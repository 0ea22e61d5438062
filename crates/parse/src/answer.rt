// Why a line has no report.
ghost use Rattle.std.specs.Prelude.{◌≡◌, Err};
ghost use Rattle.parse.specs.Answer.{fault_answer};
ghost use Rattle.parse.specs.Inner.{fault_number};
ghost use Rattle.parse.specs.declared.answer.ParseRefusal.TheVariants.{BadTree, NoRoom};

use super::judging::Fault;
use buffer::TooShort;
use tree::BadFrame;

#[derive(Clone, Copy)]
pub enum ParseRefusal {
    // The tree is bad: the number of its first frame that breaks a rule.
    BadTree(usize),
    // The line has over 1,024 bytes: its length, 65,535 if more.
    LineTooLong(usize),
    // The line is ill-formed: the length of its longest well-formed prefix.
    IllFormed(usize),
    // A fault: one frame with its text, so many bytes.
    UnknownCommand(usize),
    UnknownOption(usize),
    MissingValue(usize),
    MissingRequired(usize),
    // The buffer is too short: the length needed.
    NoRoom(usize),
}

impl From<BadFrame> for ParseRefusal {
    ghost from_gives = { λ bad refusal. refusal ≡ BadTree bad.number };

    fn from(bad: BadFrame) -> ParseRefusal {
        ParseRefusal::BadTree(bad.number)
    }
}

impl From<TooShort> for ParseRefusal {
    ghost from_gives = { λ short refusal. refusal ≡ NoRoom short.needed };

    fn from(short: TooShort) -> ParseRefusal {
        ParseRefusal::NoRoom(short.needed)
    }
}

// The refusal of a line with a fault, whose frame was written, so many bytes.
pub fn refusal_of(fault: Fault, length: usize) -> ParseRefusal
    ensures { Err result ≡ fault_answer (fault_number fault) length }
{
    match fault {
        Fault::NoWords | Fault::UnknownCommand(_) => ParseRefusal::UnknownCommand(length),
        Fault::UnknownOption(_) => ParseRefusal::UnknownOption(length),
        Fault::MissingValue(_) => ParseRefusal::MissingValue(length),
        Fault::MissingRequired(_) => ParseRefusal::MissingRequired(length),
    }
}
