// The parts of each call's answer: the number, the value, the kind and the second value. A function for each call, and no conversion of its refusal alone,
// since the kinds of what is done and the numbers of what is refused are one list of the standard.
ghost use Rattle.words.specs.Answer.{number as words_number, value as words_value};
ghost use Rattle.quote.specs.Answer.{number as quote_number, value as quote_value};
ghost use Rattle.state.specs.Calls.{number as begin_number, value as begin_value};
ghost use Rattle.history.specs.Answer.{number as add_number, value as add_value};
ghost use Rattle.history.specs.Forgotten.{number as forget_number, value as forget_value};
ghost use Rattle.tree.specs.Answer.{number as tree_number, value as tree_value};
ghost use Rattle.parse.specs.Answer.{number as parse_number, value as parse_value};
ghost use Rattle.help.specs.Answer.{number as help_number, value as help_value};
ghost use Rattle.editor.specs.Answer.{number as key_number, value as key_value, kind as key_kind, beside as key_beside};
ghost use Rattle.shell.specs.Answer.{value as run_value, kind as run_kind};
ghost use Rattle.rissemat.specs.Inner.{Tells, run_number, run_second};

use crate::pack::Parts;
use editor::{KeyRefusal, Pressed};
use help::HelpRefusal;
use history::{AddRefusal, ForgetRefusal};
use parse::ParseRefusal;
use quote::QuoteRefusal;
use shell::{Ran, RunRefusal};
use state::BeginRefusal;
use tree::BadFrame;
use words::TokenizeRefusal;

pub fn of_words(answer: Result<usize, TokenizeRefusal>) -> Parts
    ensures { Tells result (words_number answer) (words_value answer) 0 0 }
{
    match answer {
        Ok(n) => Parts::done(n),
        Err(TokenizeRefusal::LineTooLong(n)) => Parts::refused(2, n),
        Err(TokenizeRefusal::IllFormed(n)) => Parts::refused(3, n),
        Err(TokenizeRefusal::NoRoom(n)) => Parts::refused(9, n),
    }
}

pub fn of_quote(answer: Result<usize, QuoteRefusal>) -> Parts
    ensures { Tells result (quote_number answer) (quote_value answer) 0 0 }
{
    match answer {
        Ok(n) => Parts::done(n),
        Err(QuoteRefusal::BadWord(n)) => Parts::refused(10, n),
        Err(QuoteRefusal::LineTooLong(n)) => Parts::refused(2, n),
        Err(QuoteRefusal::NoRoom(n)) => Parts::refused(9, n),
    }
}

pub fn of_fresh(answer: Result<(), BeginRefusal>) -> Parts
    ensures { Tells result (begin_number answer) (begin_value answer) 0 0 }
{
    match answer {
        Ok(()) => Parts::done(0),
        Err(BeginRefusal::NoRoom(n)) => Parts::refused(9, n),
        Err(BeginRefusal::BadState) => Parts::refused(12, 0),
    }
}

pub fn of_key(answer: Result<Pressed, KeyRefusal>) -> Parts
    ensures { Tells result (key_number answer) (key_value answer) (key_kind answer) (key_beside answer) }
{
    match answer {
        Ok(Pressed::Shown(n)) => Parts::done(n),
        Ok(Pressed::Entered(n)) => Parts::of_kind(1, 1, n),
        Ok(Pressed::Dropped) => Parts::of_kind(2, 0, 0),
        Err(KeyRefusal::BadState) => Parts::refused(12, 0),
        Err(KeyRefusal::BadPrompt(n)) => Parts::refused(11, n),
        Err(KeyRefusal::NoRoom(n)) => Parts::refused(9, n),
    }
}

pub fn of_add(answer: Result<(), AddRefusal>) -> Parts
    ensures { Tells result (add_number answer) (add_value answer) 0 0 }
{
    match answer {
        Ok(()) => Parts::done(0),
        Err(AddRefusal::BadState) => Parts::refused(12, 0),
        Err(AddRefusal::TooLong(n)) => Parts::refused(13, n),
        Err(AddRefusal::IllFormed(n)) => Parts::refused(3, n),
    }
}

pub fn of_forget(answer: Result<usize, ForgetRefusal>) -> Parts
    ensures { Tells result (forget_number answer) (forget_value answer) 0 0 }
{
    match answer {
        Ok(n) => Parts::done(n),
        Err(ForgetRefusal::BadState) => Parts::refused(12, 0),
        Err(ForgetRefusal::NoEntry(k)) => Parts::refused(18, k),
    }
}

pub fn of_tree(answer: Result<(), BadFrame>) -> Parts
    ensures { Tells result (tree_number answer) (tree_value answer) 0 0 }
{
    match answer {
        Ok(()) => Parts::done(0),
        Err(BadFrame { number }) => Parts::refused(1, number),
    }
}

pub fn of_parse(answer: Result<usize, ParseRefusal>) -> Parts
    ensures { Tells result (parse_number answer) (parse_value answer) 0 0 }
{
    match answer {
        Ok(n) => Parts::done(n),
        Err(ParseRefusal::BadTree(n)) => Parts::refused(1, n),
        Err(ParseRefusal::LineTooLong(n)) => Parts::refused(2, n),
        Err(ParseRefusal::IllFormed(n)) => Parts::refused(3, n),
        Err(ParseRefusal::UnknownCommand(n)) => Parts::refused(4, n),
        Err(ParseRefusal::UnknownOption(n)) => Parts::refused(5, n),
        Err(ParseRefusal::MissingValue(n)) => Parts::refused(6, n),
        Err(ParseRefusal::MissingRequired(n)) => Parts::refused(7, n),
        Err(ParseRefusal::NoRoom(n)) => Parts::refused(9, n),
    }
}

pub fn of_help(answer: Result<usize, HelpRefusal>) -> Parts
    ensures { Tells result (help_number answer) (help_value answer) 0 0 }
{
    match answer {
        Ok(n) => Parts::done(n),
        Err(HelpRefusal::BadTree(n)) => Parts::refused(1, n),
        Err(HelpRefusal::LineTooLong(n)) => Parts::refused(2, n),
        Err(HelpRefusal::IllFormed(n)) => Parts::refused(3, n),
        Err(HelpRefusal::NoWords) => Parts::refused(14, 0),
        Err(HelpRefusal::UnknownCommand(n)) => Parts::refused(4, n),
        Err(HelpRefusal::NoRoom(n)) => Parts::refused(9, n),
    }
}

pub fn of_run(answer: Result<Ran, RunRefusal>) -> Parts
    ensures { Tells result (run_number answer) (run_value answer) (run_kind answer) (run_second answer) }
{
    match answer {
        Ok(Ran::Nothing) => Parts::done(0),
        Ok(Ran::Text { number, length }) => Parts {
            number,
            ..Parts::of_kind(1, length, 0)
        },
        Ok(Ran::Exit(n)) => Parts::of_kind(2, n, 0),
        Ok(Ran::Handler { handler, length }) => Parts::of_kind(3, length, usize::from(handler)),
        Err(RunRefusal::BadTree(n)) => Parts::refused(1, n),
        Err(RunRefusal::LineTooLong(n)) => Parts::refused(2, n),
        Err(RunRefusal::NoRoom(n)) => Parts::refused(9, n),
    }
}
