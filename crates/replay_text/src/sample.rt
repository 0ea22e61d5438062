// The stored sample: each line of the input is a text in hexadecimal, and is answered by a line.
use crate::parts;
use replay::hex::read_hex;
use replay::input::each_line;
use replay::line::{Bytes, Line};
use std::fmt;
use std::io::{Input, Print};

// Puts the answer for a text: the text, the length of its well-formed part, its first code, and what only a well-formed text has: what trimming leaves,
// and its words.
fn put<W: fmt::Write>(s: &[u8], line: &mut W) -> fmt::Result {
    let length = text::well_formed_prefix(s);
    write!(line, "{} {length} ", Bytes(s))?;
    parts::put_first(s, line)?;
    if length < s.len() {
        return Ok(());
    }
    parts::put_trimmed(s, line)?;
    parts::put_words(s, line)
}

// Answers a line of digits. A text has at most 512 bytes: what is longer is read as none, and shows in the answer.
fn answer(rt: &impl Print, digits: &[u8]) {
    let mut text = [0u8; 512];
    let n = read_hex(digits, &mut text);
    let mut line = Line::<8192>::new();
    let all = put(&text[..n], &mut line);
    line.print(rt, all);
}

// Answers all of standard input, which has to be shorter than 65,536 bytes.
pub fn all(rt: &(impl Input + Print)) {
    let _ = rt.write_all(
        b"Texts of the input: length of the well-formed part, first code, what is left trimmed, words\n",
    );
    each_line::<65536, _>(rt, |digits| answer(rt, digits));
}
