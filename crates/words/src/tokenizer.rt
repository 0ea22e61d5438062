// `tokenize`: measures a line's words, then writes them as frames of kind 14 into a lent buffer.
ghost use Rattle.std.specs.Prelude.{◌+◌, ◌*◌, ◌≤◌, ◌<◌, ◌≡◌, length};
ghost use Rattle.buffer.specs.Write.{Written};
ghost use Rattle.text.specs.Decoding.{well_formed_length};
ghost use Rattle.words.specs.Answer.{written, Tokenized};
ghost use Rattle.words.specs.Inner.{closed_at, closed_by, advanced, headed, put_by, measured};
ghost use Rattle.frame.specs.Limits.{frames_limit, line_limit};

use super::counting::{Scan, closed};
use super::role::Role;
use super::step::step_of;
use buffer::{push, push_byte};
use frame::{LINE_LIMIT, told_length};
use text::well_formed_prefix;

// Why a line is not split into words.
#[derive(Clone, Copy)]
pub enum TokenizeRefusal {
    // It has over 1,024 bytes: its length, 65,535 if more.
    LineTooLong(usize),
    // It is ill-formed: the length of its longest well-formed prefix.
    IllFormed(usize),
    // The buffer is too short: the length needed.
    NoRoom(usize),
}

// The length of a line's frames, or `Err` with where it is ill-formed.
fn measure(line: &[u8]) -> Result<usize, usize>
    requires { length line.now ≤ line_limit }
    ensures { result ≡ measured line.now }
{
    let mut scan = Scan::start();
    while scan.at < line.len() {
        let step = step_of(line, scan)?;
        scan = scan.advance(step.role, step.length);
    }
    Ok(closed(scan.done, scan.word))
}

// Writes the head of a word's frame in front of its bytes; an empty word has none.
fn end_word(done: usize, word: usize, out: &mut [u8])
    requires { (closed_at done word ≤ length out.old) × (word ≤ frames_limit) }
    ensures { out.new ≡ headed done word out.old }
{
    if word == 0 {
        return;
    }
    let high = push_byte(0x14, out, done);
    let low = push_byte((word / 256) as u8, out, high);
    push_byte((word % 256) as u8, out, low);
}

// Writes what a step of n bytes adds: its bytes, or the head of the word that it ends.
fn put(line: &[u8], scan: Scan, role: Role, n: usize, out: &mut [u8])
    requires n_nonzero { (0 < n) × (scan.at + n ≤ length line.now) }
    requires word_le_frames_limit { (scan.word ≤ frames_limit) × (closed_by (advanced scan role n) ≤ length out.old) }
    ensures { out.new ≡ put_by line.now scan role n out.old }
{
    let from = scan.at;
    match role {
        Role::Take => {
            let end = from + n;
            push(&line[from..end], out, scan.done + 3 + scan.word);
        }
        Role::Gap => end_word(scan.done, scan.word, out),
        Role::Escape | Role::Toggle => {}
    }
}

// Writes the frames of a well-formed line's words and returns their length.
fn write(line: &[u8], out: &mut [u8]) -> usize
    requires line_len_bound { length line.now ≤ line_limit }
    requires line_value { well_formed_length line.now ≡ length line.now }
    requires line_in_bounds { length (written line.now) ≤ length out.old }
    ensures { Written (written line.now) out.old result out.new }
{
    let mut scan = Scan::start();
    while scan.at < line.len() {
        let Ok(step) = step_of(line, scan) else {
            return scan.done;
        };
        put(line, scan, step.role, step.length, out);
        scan = scan.advance(step.role, step.length);
    }
    end_word(scan.done, scan.word, out);
    closed(scan.done, scan.word)
}

// The words of a line whose buffer may be too short for them: measured first.
fn split_measured(line: &[u8], out: &mut [u8]) -> Result<usize, TokenizeRefusal>
    requires { length line.now ≤ line_limit }
    ensures { Tokenized line.now out.old result out.new }
{
    match measure(line) {
        Err(place) => Err(TokenizeRefusal::IllFormed(place)),
        Ok(needed) => {
            if out.len() < needed {
                return Err(TokenizeRefusal::NoRoom(needed));
            }
            Ok(write(line, out))
        }
    }
}

// The words of a line whose buffer has room for the words of any such line: one pass fewer.
fn split_roomy(line: &[u8], out: &mut [u8]) -> Result<usize, TokenizeRefusal>
    requires { (length line.now ≤ line_limit) × (4 * length line.now ≤ length out.old) }
    ensures { Tokenized line.now out.old result out.new }
{
    let place = well_formed_prefix(line);
    if place < line.len() {
        return Err(TokenizeRefusal::IllFormed(place));
    }
    Ok(write(line, out))
}

// The words of a line as frames of kind 14, at the front of out.
pub fn tokenize(line: &[u8], out: &mut [u8]) -> Result<usize, TokenizeRefusal>
    ensures { Tokenized line.now out.old result out.new }
{
    if LINE_LIMIT < line.len() {
        return Err(TokenizeRefusal::LineTooLong(told_length(line.len())));
    }
    if 4 * line.len() <= out.len() {
        return split_roomy(line, out);
    }
    split_measured(line, out)
}
