// What running a line answers, or why the line is not run.
ghost use Rattle.std.specs.Prelude.{◌≡◌};
ghost use Rattle.shell.specs.declared.answer.RunRefusal.TheVariants.{BadTree, NoRoom};

use buffer::TooShort;
use tree::BadFrame;

// What a line that was run answers. What it says stands at the front of the buffer, so many bytes.
#[derive(Clone, Copy)]
pub enum Ran {
    // Nothing is to be done, and nothing is said.
    Nothing,
    // A text: a message with its number, or help, the list of commands or `clear` with 0.
    Text { number: u8, length: usize },
    // The end is asked for: its text of so many bytes.
    Exit(usize),
    // The line calls a handler, by its number: the report for it.
    Handler { handler: u16, length: usize },
}

// Why a line is not run. The buffer is left as it was.
#[derive(Clone, Copy)]
pub enum RunRefusal {
    // The tree is bad: the number of its first frame that breaks a rule.
    BadTree(usize),
    // The line has over 1,024 bytes: its length, 65,535 if more.
    LineTooLong(usize),
    // What the line says is longer than the buffer: its length.
    NoRoom(usize),
}

impl From<BadFrame> for RunRefusal {
    ghost from_gives = { λ bad refusal. refusal ≡ BadTree bad.number };

    fn from(bad: BadFrame) -> RunRefusal {
        RunRefusal::BadTree(bad.number)
    }
}

impl From<TooShort> for RunRefusal {
    ghost from_gives = { λ short refusal. refusal ≡ NoRoom short.needed };

    fn from(short: TooShort) -> RunRefusal {
        RunRefusal::NoRoom(short.needed)
    }
}
