// The library's face to Rust and C: each call answers 64 bits and proves nothing new. The crate rissemat_c exports the calls.
//
// Bits 0-31 are the value (bytes written, entries that went, or what the refusal returns; above 4,294,967,295 that number), bits 32-39 the
// refusal's number (0: none), or the number beside a text, bits 40-47 the kind of answer where a call has several, bits 48-63 a
// second value where a call has one. rissemat.h and rissemat.rs beside this crate declare the calls for C and for Rust.
#![tactic(auto)]

mod answers;
mod pack;

ghost use Rattle.rissemat.specs.Calls.{WordsCall, QuoteCall, FreshWithCall, FreshCall, KeyCall, AddCall, ForgetCall, TreeCall, ParseCall, HelpCall, RunCall};

use answers::{
    of_add, of_forget, of_fresh, of_help, of_key, of_parse, of_quote, of_run, of_tree, of_words,
};
use help::help;
use keys::Profile;
use pack::packed;
use parse::parse;
use quote::quote;
use shell::run;
use state::{add, begin, forget, press};
use tree::check_tree;
use words::tokenize;

// The words of a line as frames of kind 14, at the front of out.
pub fn rissemat_words(line: &[u8], out: &mut [u8]) -> u64
    ensures { WordsCall line.now out.old result out.new }
{
    packed(of_words(tokenize(line, out)))
}

// The line that splits into the words of these frames of kind 14, at the front of out.
pub fn rissemat_quote(words: &[u8], out: &mut [u8]) -> u64
    ensures { QuoteCall words.now out.old result out.new }
{
    packed(of_quote(quote(words, out)))
}

// A fresh session in a state of 266 bytes and slots of 25,600, its keys read as the original reads them.
pub fn rissemat_fresh(state: &mut [u8], slots: &mut [u8]) -> u64
    ensures { FreshCall state.old slots.old result state.new slots.new }
{
    rissemat_fresh_with(u8::from(Profile::Rust), state, slots)
}

// The same with keys read by a profile: 0 as the original reads them, 1 as ECMA-48 has them.
pub fn rissemat_fresh_with(profile: u8, state: &mut [u8], slots: &mut [u8]) -> u64
    ensures { FreshWithCall profile state.old slots.old result state.new slots.new }
{
    packed(of_fresh(begin(profile, state, slots)))
}

// One key: kind 1 at Enter, with the length of the line that is submitted as second value; kind 2 when the byte was dropped.
pub fn rissemat_key(
    state: &mut [u8],
    slots: &mut [u8],
    prompt: &[u8],
    key: u8,
    line: &mut [u8],
    screen: &mut [u8],
) -> u64
    ensures { KeyCall state.old slots.old prompt.now key line.old screen.old result state.new slots.new line.new screen.new }
{
    packed(of_key(press(state, slots, prompt, key, line, screen)))
}

// A text added to a session's history.
pub fn rissemat_history_add(state: &mut [u8], slots: &mut [u8], text: &[u8]) -> u64
    ensures { AddCall state.old slots.old text.now result state.new slots.new }
{
    packed(of_add(add(state, slots, text)))
}

// An entry of a session's history forgotten, the oldest being 0: how many entries went, 1 or 2.
pub fn rissemat_history_forget(state: &mut [u8], slots: &mut [u8], k: usize) -> u64
    ensures { ForgetCall state.old slots.old k result state.new slots.new }
{
    packed(of_forget(forget(state, slots, k)))
}

// The test of a tree image: refused with the number, from 0, of the first frame that breaks a rule.
pub fn rissemat_tree(image: &[u8]) -> u64
    ensures { TreeCall image.now result }
{
    packed(of_tree(check_tree(image)))
}

// The report of a line under a tree, at the front of out, as frames of kinds 11 to 14; or the fault of the line, 4 to 7, as one frame of kind 1E.
pub fn rissemat_parse(image: &[u8], line: &[u8], out: &mut [u8]) -> u64
    ensures { ParseCall image.now line.now out.old result out.new }
{
    packed(of_parse(parse(image, line, out)))
}

// The help for the words of a line, at the front of out; or the word that is unknown, 4, as one frame of kind 1E.
pub fn rissemat_help(image: &[u8], line: &[u8], out: &mut [u8]) -> u64
    ensures { HelpCall image.now line.now out.old result out.new }
{
    packed(of_help(help(image, line, out)))
}

// A line run under a tree: kind 1 a text, with its number where a refusal's stands; kind 2 the end, with its text; kind 3 a handler, whose
// number is the second value, with the report for it; kind 0 nothing.
pub fn rissemat_run(image: &[u8], line: &[u8], out: &mut [u8]) -> u64
    ensures { RunCall image.now line.now out.old result out.new }
{
    packed(of_run(run(image, line, out)))
}
