// The calls of rissemat under C's names: what `rissemat.h` and `rissemat.rs` beside the crate rissemat declare.
#![tactic(auto)]

ghost use Rattle.rissemat.specs.Calls.{WordsCall, QuoteCall, FreshWithCall, FreshCall, KeyCall, AddCall, ForgetCall, TreeCall, ParseCall, HelpCall, RunCall};

// The words of a line as frames of kind 14, at the front of out.
#[unsafe(no_mangle)]
pub extern "C" fn rissemat_words(line: &[u8], out: &mut [u8]) -> u64
    ensures { WordsCall line.now out.old result out.new }
{
    rissemat::rissemat_words(line, out)
}

// The line that splits into the words of these frames of kind 14, at the front of out.
#[unsafe(no_mangle)]
pub extern "C" fn rissemat_quote(words: &[u8], out: &mut [u8]) -> u64
    ensures { QuoteCall words.now out.old result out.new }
{
    rissemat::rissemat_quote(words, out)
}

// A fresh session in a state of 266 bytes and slots of 25,600, its keys read as the original reads them.
#[unsafe(no_mangle)]
pub extern "C" fn rissemat_fresh(state: &mut [u8], slots: &mut [u8]) -> u64
    ensures { FreshCall state.old slots.old result state.new slots.new }
{
    rissemat::rissemat_fresh(state, slots)
}

// The same with keys read by a profile: 0 as the original reads them, 1 as ECMA-48 has them.
#[unsafe(no_mangle)]
pub extern "C" fn rissemat_fresh_with(profile: u8, state: &mut [u8], slots: &mut [u8]) -> u64
    ensures { FreshWithCall profile state.old slots.old result state.new slots.new }
{
    rissemat::rissemat_fresh_with(profile, state, slots)
}

// One key: kind 1 at Enter, with the length of the line that is submitted as second value; kind 2 when the byte was dropped.
#[unsafe(no_mangle)]
pub extern "C" fn rissemat_key(
    state: &mut [u8],
    slots: &mut [u8],
    prompt: &[u8],
    key: u8,
    line: &mut [u8],
    screen: &mut [u8],
) -> u64
    ensures { KeyCall state.old slots.old prompt.now key line.old screen.old result state.new slots.new line.new screen.new }
{
    rissemat::rissemat_key(state, slots, prompt, key, line, screen)
}

// A text added to a session's history.
#[unsafe(no_mangle)]
pub extern "C" fn rissemat_history_add(state: &mut [u8], slots: &mut [u8], text: &[u8]) -> u64
    ensures { AddCall state.old slots.old text.now result state.new slots.new }
{
    rissemat::rissemat_history_add(state, slots, text)
}

// An entry of a session's history forgotten, the oldest being 0: how many entries went, 1 or 2.
#[unsafe(no_mangle)]
pub extern "C" fn rissemat_history_forget(state: &mut [u8], slots: &mut [u8], k: usize) -> u64
    ensures { ForgetCall state.old slots.old k result state.new slots.new }
{
    rissemat::rissemat_history_forget(state, slots, k)
}

// The test of a tree image: refused with the number, from 0, of the first frame that breaks a rule.
#[unsafe(no_mangle)]
pub extern "C" fn rissemat_tree(image: &[u8]) -> u64
    ensures { TreeCall image.now result }
{
    rissemat::rissemat_tree(image)
}

// The report of a line under a tree, at the front of out, as frames of kinds 11 to 14; or the fault of the line, 4 to 7, as one frame of kind 1E.
#[unsafe(no_mangle)]
pub extern "C" fn rissemat_parse(image: &[u8], line: &[u8], out: &mut [u8]) -> u64
    ensures { ParseCall image.now line.now out.old result out.new }
{
    rissemat::rissemat_parse(image, line, out)
}

// The help for the words of a line, at the front of out; or the word that is unknown, 4, as one frame of kind 1E.
#[unsafe(no_mangle)]
pub extern "C" fn rissemat_help(image: &[u8], line: &[u8], out: &mut [u8]) -> u64
    ensures { HelpCall image.now line.now out.old result out.new }
{
    rissemat::rissemat_help(image, line, out)
}

// A line run under a tree: kind 1 a text, with its number where a refusal's stands; kind 2 the end, with its text; kind 3 a handler, whose
// number is the second value, with the report for it; kind 0 nothing.
#[unsafe(no_mangle)]
pub extern "C" fn rissemat_run(image: &[u8], line: &[u8], out: &mut [u8]) -> u64
    ensures { RunCall image.now line.now out.old result out.new }
{
    rissemat::rissemat_run(image, line, out)
}
