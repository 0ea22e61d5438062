// The stored sample: each line of the input is an image in hexadecimal, and is answered by a line.
use crate::answer::answer;
use replay::hex::read_hex;
use replay::input::each_line;
use std::io::{Input, Print};

// Answers a line of digits. An image has at most 4,096 bytes: what is longer is read as none, and shows in the answer.
fn answer_line(rt: &impl Print, digits: &[u8]) {
    let mut image = [0u8; 4096];
    let n = read_hex(digits, &mut image);
    answer(rt, &image[..n]);
}

// Answers all of standard input, which has to be shorter than 65,536 bytes.
pub fn all(rt: &(impl Input + Print)) {
    each_line::<65536, _>(rt, |digits| answer_line(rt, digits));
}
