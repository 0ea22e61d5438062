// One step through a line: a run of characters that are taken, or a single character and what it does.
ghost use Rattle.std.specs.Prelude.{◌≤◌, ◌<◌, ◌≡◌, Bool, length, drop};
ghost use Rattle.words.specs.Inner.{StepOf, Run, WholeRun};
ghost use Rattle.words.specs.Ordinary.{ordinary, ordinary_first};

use super::counting::Scan;
use super::role::{Role, role_of};
use text::{Decoded, decode, letter_at};

// What a step finds: characters that fill a length and together do one thing.
#[derive(Clone, Copy)]
pub struct Step {
    pub role: Role,
    pub length: usize,
}

// Whether a byte is an ASCII character that is taken anywhere: neither white space nor a control nor `"` nor `\`.
#[tactic(auto, unfolding(crate::specs::Ordinary::ordinary))]
fn is_ordinary(byte: u8) -> bool
    ensures { result ≡ ordinary byte }
{
    (0x21..0x7F).contains(&byte) && byte != 0x22 && byte != 0x5C
}

// The length of the character at a place if it is taken anywhere, as far as its bytes show it without a decoder: an ordinary
// ASCII character or a letter.
pub fn ordinary_at(line: &[u8], at: usize) -> Option<usize>
    ensures { result ≡ ordinary_first (drop at line.now) }
{
    if line.len() <= at {
        return None;
    }
    if is_ordinary(line[at]) {
        return Some(1);
    }
    letter_at(line, at)
}

// The place after the ordinary characters from a place on: most of a line.
fn ordinary_end(line: &[u8], start: usize) -> usize
    requires { start ≤ length line.now }
    ensures { (quotes : Bool) → Run line.now start quotes result }
{
    let mut at = start;
    while let Some(n) = ordinary_at(line, at) {
        at += n;
    }
    at
}

// The place after the characters that are taken from a place on, whatever stood before them.
fn run_end(line: &[u8], start: usize, quotes: bool) -> usize
    requires { start ≤ length line.now }
    ensures { WholeRun line.now start quotes result }
{
    let mut at = ordinary_end(line, start);
    while at < line.len() {
        let Decoded::Character { code, length } = decode(line, at) else {
            return at;
        };
        let Role::Take = role_of(quotes, false, code) else {
            return at;
        };
        at = ordinary_end(line, at + length);
    }
    at
}

// The step from where a scan stands in its line: what a character does, and those after it that are taken with it. `Err` with
// the place if no character stands there.
pub fn step_of(line: &[u8], scan: Scan) -> Result<Step, usize>
    requires { scan.at < length line.now }
    ensures { StepOf line.now scan result }
{
    let at = scan.at;
    let Decoded::Character { code, length } = decode(line, at) else {
        return Err(at);
    };
    let role = role_of(scan.quotes, scan.escaped, code);
    let Role::Take = role else {
        return Ok(Step { role, length });
    };
    Ok(Step {
        role,
        length: run_end(line, at + length, scan.quotes) - at,
    })
}
