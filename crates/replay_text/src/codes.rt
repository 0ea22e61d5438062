// Every input of one and of two bytes, a mark each: what is well-formed, what trimming leaves and where the words lie.
use crate::parts;
use replay::line::Line;
use std::fmt;
use std::io::Print;

// Marks for a well-formed input: it is white space; or what is left of it is its first byte, its second byte, or all.
const BLANK: char = '.';

const FIRST: char = 'f';

const SECOND: char = 's';

const WHOLE: char = 'w';
// The mark for answers that no short text has, or that contradict each other.
const ODD: char = '?';

// The mark by what trimming leaves, and by the test for blank.
fn trim_mark(s: &[u8]) -> char {
    let left = text::trim(s);
    if text::is_blank(s) {
        return if left.len() == 0 { BLANK } else { ODD };
    }
    if left.len() == s.len() {
        return WHOLE;
    }
    if left.len() != 1 {
        return ODD;
    }
    if s.starts_with(left) { FIRST } else { SECOND }
}

// The mark for one word, by where it lies in a text of a length.
fn place_mark(start: usize, end: usize, length: usize) -> char {
    if end == length {
        return if start == 0 { WHOLE } else { SECOND };
    }
    if start == 0 { FIRST } else { ODD }
}

// Whether another word begins at or after a place.
fn has_word(s: &[u8], at: usize) -> bool {
    text::next_word(s, at).is_some()
}

// The mark by the words.
fn word_mark(s: &[u8]) -> char {
    let Some(word) = text::next_word(s, 0) else {
        return BLANK;
    };
    if has_word(s, word.end) {
        return ODD;
    }
    place_mark(word.start, word.end, s.len())
}

// The mark of an input: where it is ill-formed the length of its well-formed part, 0 or 1.
fn mark(s: &[u8]) -> char {
    let length = text::well_formed_prefix(s);
    if length < s.len() {
        return if length == 0 { '0' } else { '1' };
    }
    let by_trim = trim_mark(s);
    if by_trim == word_mark(s) {
        by_trim
    } else {
        ODD
    }
}

// Puts the marks of all inputs of two bytes that begin with one byte.
fn put_two<W: fmt::Write>(first: u8, line: &mut W) -> fmt::Result {
    for second in 0..=255 {
        line.write_char(mark(&[first, second]))?;
    }
    Ok(())
}

// Writes the marks of all inputs of two bytes, a line for each first byte.
pub fn two_bytes(rt: &impl Print) {
    let _ = rt.write_all(b"Inputs of two bytes, a line for each first byte\n");
    for first in 0..=255 {
        let mut line = Line::<300>::new();
        let put = put_two(first, &mut line);
        line.print(rt, put);
    }
}

// Puts the marks of all inputs of one byte.
fn put_one<W: fmt::Write>(line: &mut W) -> fmt::Result {
    for byte in 0..=255 {
        line.write_char(mark(&[byte]))?;
    }
    Ok(())
}

// Writes the marks of all inputs of one byte, as one line.
pub fn one_byte(rt: &impl Print) {
    let _ = rt.write_all(b"Inputs of one byte\n");
    let mut line = Line::<300>::new();
    let put = put_one(&mut line);
    line.print(rt, put);
}

// Puts a first byte and the codes that begin with it and go on with each byte from 7E to C1.
fn put_codes<W: fmt::Write>(first: u8, line: &mut W) -> fmt::Result {
    write!(line, "{first:02x}")?;
    for second in 0x7E..0xC2 {
        write!(line, " ")?;
        parts::put_first(&[first, second], line)?;
    }
    Ok(())
}

// Writes the codes of two bytes, a line for each first byte from C0 to DF.
pub fn codes(rt: &impl Print) {
    let _ = rt.write_all(b"Codes of two bytes, from 7E to C1 after each from C0 to DF\n");
    for first in 0xC0..0xE0 {
        let mut line = Line::<300>::new();
        let put = put_codes(first, &mut line);
        line.print(rt, put);
    }
}
