// The stored sample: a line of the input is a tree after `=`, or a line to run under the last tree, and is answered by a line.
use crate::answer::put_answer;
use replay::hex::read_hex;
use replay::line::{Bytes, Line};
use replay::planting::each_line_under_a_tree;
use std::fmt;
use std::io::{Input, Print};

// Puts a text and what is answered for it.
fn put<W: fmt::Write>(image: &[u8], text: &[u8], line: &mut W) -> fmt::Result {
    write!(line, "{}", Bytes(text))?;
    put_answer(image, text, line)
}

// Answers a line of digits. A text has at most 1,100 bytes: what is longer is read as none, and shows in the answer.
fn answer(rt: &impl Print, image: &[u8], digits: &[u8]) {
    let mut text = [0u8; 1100];
    let n = read_hex(digits, &mut text);
    let mut line = Line::<8192>::new();
    let all = put(image, &text[..n], &mut line);
    line.print(rt, all);
}

// Answers all of standard input, which has to be shorter than 65,536 bytes.
pub fn all(rt: &(impl Input + Print)) {
    each_line_under_a_tree(rt, |image, digits| answer(rt, image, digits));
}
