// `run`: a line under a tree, in the order of the Rust's `handle_builtin_commands`, `run_cmd_bytes` and `execute_command`.
ghost use Rattle.std.specs.Prelude.{◌≡◌, ◌≤◌, length, Ok};
ghost use Rattle.text.specs.Apart.{words_between};
ghost use Rattle.frame.specs.Limits.{line_limit, frames_limit};
ghost use Rattle.frame.specs.Series.{texts_in};
ghost use Rattle.tree.specs.Images.{frames_of};
ghost use Rattle.tree.specs.Rules.{check_tree};
ghost use Rattle.help.specs.Answer.{help_of};
ghost use Rattle.arguments.specs.Inner.{WellSplit};
ghost use Rattle.shell.specs.Lines.{help_said, execute, other_said, line_said};
ghost use Rattle.shell.specs.Answer.{Running};
ghost use Rattle.shell.specs.Inner.{Answered, Splits, Ready, SplitInto, ExecutionAsks, FaultAsks, FaultTold, HandingAsks, HandedOut};

use super::answer::{Ran, RunRefusal};
use super::builtin::{Builtin, builtin_of};
use super::fault::{error_of, show_dashed, show_no_handler};
use super::handler::handler_of;
use buffer::{part, rest, same};
use frame::{FRAMES_LIMIT, LINE_LIMIT, told_length};
use help::{follow, show_available_commands, show_help};
use message::{show_clear, show_goodbye, show_ill_formed, show_message, show_unknown_help};
use parse::{Fault, Judged, dashes_of, judge, number_of, text_of};
use report::write_report;
use text::{is_blank, next_word, trim, well_formed_prefix};
use tree::{Place, find_command};
use words::{TokenizeRefusal, tokenize};

// The message of a fault that was judged.
fn tell_fault<'a>(
    words: &'a [u8],
    image: &'a [u8],
    judged: Judged,
    fault: Fault,
    out: &mut [u8],
) -> Result<Ran, RunRefusal>
    requires { FaultAsks words.now image.now judged fault }
    ensures { FaultTold words.now image.now judged out.old result out.new }
{
    let told = error_of(fault);
    let number = number_of(Err(fault));
    let dashes = dashes_of(Err(fault));
    let node = &image[judged.place.start..judged.place.end];
    let text = text_of(words, node, b"empty command", Err(fault));
    if dashes == 0 {
        let length = show_message(told, text, out)?;
        return Ok(Ran::Text { number, length });
    }
    let length = show_dashed(told, dashes, text, out)?;
    Ok(Ran::Text { number, length })
}

// The report for a handler of a command that was judged, or that it has none.
fn tell_command<'a>(
    words: &'a [u8],
    image: &'a [u8],
    judged: Judged,
    rest: &[u8],
    handler: Option<u16>,
    out: &mut [u8],
) -> Result<Ran, RunRefusal>
    requires { HandingAsks words.now image.now judged rest.now }
    ensures { HandedOut words.now image.now judged rest.now handler out.old result out.new }
{
    let path = &words[..judged.place.at];
    let Some(handler) = handler else {
        let length = show_no_handler(path, out)?;
        return Ok(Ran::Text { number: 8, length });
    };
    let length = write_report(
        words,
        &image[judged.place.start..judged.place.end],
        path,
        judged.scan.options,
        judged.scan.flags,
        &rest[..judged.scan.kept],
        out,
    )?;
    Ok(Ran::Handler { handler, length })
}

// The words of a line under a well-formed tree, in which they lead to what was found.
fn execute_command<'a>(
    words: &'a [u8],
    image: &'a [u8],
    found: Option<Place>,
    out: &mut [u8],
) -> Result<Ran, RunRefusal>
    requires { ExecutionAsks words.now image.now found }
    ensures { Answered (execute (frames_of image.now) (texts_in words.now)) out.old result out.new }
{
    let mut rest = [0u8; FRAMES_LIMIT];
    let judged = judge(words, image, found, &mut rest);
    let verdict = judged.verdict;
    match verdict {
        Err(fault) => tell_fault(words, image, judged, fault, out),
        Ok(()) => {
            let handler = handler_of(&image[judged.place.start..judged.place.end]);
            tell_command(words, image, judged, &rest, handler, out)
        }
    }
}

// The help for words split on white space only.
fn help_for(image: &[u8], words: &[u8], out: &mut [u8]) -> Result<Ran, RunRefusal>
    requires { (check_tree image.now ≡ Ok tt) × (length words.now ≤ line_limit) }
    ensures { Answered (help_said (help_of (frames_of image.now) (words_between words.now))) out.old result out.new }
{
    if next_word(words, 0).is_none() {
        return Ok(Ran::Nothing);
    }
    match follow(image, words) {
        Ok(node) => {
            let length = show_help(node.of(image), words, out)?;
            Ok(Ran::Text { number: 0, length })
        }
        Err(word) => {
            let length = show_unknown_help(word.of(words), out)?;
            Ok(Ran::Text { number: 4, length })
        }
    }
}

// A line that is no builtin: the word `help` with a space after it asks for help, and all else is a command, whose words lead to what was found.
fn run_other<'a>(
    image: &'a [u8],
    line: &[u8],
    words: &'a [u8],
    found: Option<Place>,
    out: &mut [u8],
) -> Result<Ran, RunRefusal>
    requires { Ready image.now line.now words.now found }
    ensures { Answered (other_said (frames_of image.now) line.now) out.old result out.new }
{
    if same(part(line, 0, 5), b"help ") {
        return help_for(image, rest(line, 5), out);
    }
    if is_blank(line) {
        return Ok(Ran::Nothing);
    }
    execute_command(words, image, found, out)
}

// A well-formed line; the builtins come first.
fn handle_builtin_commands<'a>(
    image: &'a [u8],
    line: &[u8],
    words: &'a [u8],
    found: Option<Place>,
    out: &mut [u8],
) -> Result<Ran, RunRefusal>
    requires { Ready image.now line.now words.now found }
    ensures { Answered (line_said (frames_of image.now) line.now) out.old result out.new }
{
    let trimmed = trim(line);
    match builtin_of(trimmed) {
        Builtin::Help => {
            let length = show_available_commands(image, out)?;
            Ok(Ran::Text { number: 0, length })
        }
        Builtin::Exit => Ok(Ran::Exit(show_goodbye(out)?)),
        Builtin::Clear => {
            let length = show_clear(out)?;
            Ok(Ran::Text { number: 0, length })
        }
        Builtin::None => run_other(image, line, words, found, out),
    }
}

// A line with the words that it has once trimmed. The image is tested, and on the way the words are followed.
fn run_words<'a>(
    image: &'a [u8],
    line: &[u8],
    words: &'a [u8],
    out: &mut [u8],
) -> Result<Ran, RunRefusal>
    requires { (length words.now ≤ frames_limit) × Splits line.now words.now × WellSplit words.now }
    ensures { Running image.now line.now out.old result out.new }
{
    let found = find_command(words, image)?;
    if LINE_LIMIT < line.len() {
        return Err(RunRefusal::LineTooLong(told_length(line.len())));
    }
    if well_formed_prefix(line) < line.len() {
        let length = show_ill_formed(out)?;
        return Ok(Ran::Text { number: 3, length });
    }
    handle_builtin_commands(image, line, words, found, out)
}

// Splits a line into its words, as frames at the front of a buffer: how many bytes they take. A line that is refused has none, and is refused later.
// They always find room: four bytes for each byte of a line.
fn split(line: &[u8], words: &mut [u8]) -> usize
    requires { length words.old ≡ frames_limit }
    ensures { SplitInto line.now result words.new }
{
    match tokenize(line, words) {
        Ok(n) => n,
        _ => 0,
    }
}

// Runs a line under a tree: its text, or the report for its handler, at the front of out.
pub fn run(image: &[u8], line: &[u8], out: &mut [u8]) -> Result<Ran, RunRefusal>
    ensures { Running image.now line.now out.old result out.new }
{
    let mut words = [0u8; FRAMES_LIMIT];
    let n = split(trim(line), &mut words);
    run_words(image, line, &words[..n], out)
}
