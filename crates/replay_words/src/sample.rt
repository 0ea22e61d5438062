// The stored sample: each line of the input is a line in hexadecimal, and is answered by a line.
use crate::answer::put_answer;
use replay::hex::read_hex;
use replay::input::each_line;
use replay::line::{Bytes, Line};
use std::fmt;
use std::io::{Input, Print};

// Puts a text and what is answered for it.
fn put<W: fmt::Write>(text: &[u8], line: &mut W) -> fmt::Result {
    write!(line, "{}", Bytes(text))?;
    put_answer(text, line)
}

// Answers a line of digits. A text has at most 1,100 bytes: what is longer is read as none, and shows in the answer.
fn answer(rt: &impl Print, digits: &[u8]) {
    let mut text = [0u8; 1100];
    let n = read_hex(digits, &mut text);
    let mut line = Line::<8192>::new();
    let all = put(&text[..n], &mut line);
    line.print(rt, all);
}

// Answers all of standard input, which has to be shorter than 65,536 bytes.
pub fn all(rt: &(impl Input + Print)) {
    each_line::<65536, _>(rt, |digits| answer(rt, digits));
}
