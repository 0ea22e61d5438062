// What the programs put of an answer to a call that was lent a buffer: what was written, what stayed, a refusal.
use super::line::Bytes;
use std::fmt;

// What every byte of a buffer holds before a call.
const PATTERN: u8 = 0xAA;

// How long a buffer is that is lent.
const ROOM: usize = 4096;

// A buffer to lend, which holds the pattern.
pub fn buffer() -> [u8; ROOM] {
    [PATTERN; ROOM]
}

// An answer's number, 0 where it is no refusal and no fault, and the value beside it.
#[derive(Clone, Copy)]
pub struct Numbers {
    pub number: usize,
    pub value: usize,
}

impl fmt::Display for Numbers {
    fn fmt<W: fmt::Write>(&self, f: &mut fmt::Formatter<W>) -> fmt::Result {
        write!(f, "{} {}", self.number, self.value)
    }
}

// Whether the byte at a place of a buffer still holds the pattern.
#[derive(Clone, Copy)]
struct Kept<'a>(&'a [u8], usize);

impl<'a> fmt::Display for Kept<'a> {
    fn fmt<W: fmt::Write>(&self, f: &mut fmt::Formatter<W>) -> fmt::Result {
        match self.0.get(self.1) {
            Some(&PATTERN) => write!(f, " kept"),
            _ => write!(f, " touched"),
        }
    }
}

// The first bytes of a buffer, so many, and whether the byte after them stayed.
#[derive(Clone, Copy)]
pub struct Written<'a>(pub &'a [u8], pub usize);

impl<'a> fmt::Display for Written<'a> {
    fn fmt<W: fmt::Write>(&self, f: &mut fmt::Formatter<W>) -> fmt::Result {
        match self.0.get(..self.1) {
            Some(written) => write!(f, " {}{}", Bytes(written), Kept(self.0, self.1)),
            None => write!(f, " more than the buffer holds"),
        }
    }
}

// A refusal, and whether the first byte of the buffer stayed.
#[derive(Clone, Copy)]
pub struct Refused<'a>(pub Numbers, pub &'a [u8]);

impl<'a> fmt::Display for Refused<'a> {
    fn fmt<W: fmt::Write>(&self, f: &mut fmt::Formatter<W>) -> fmt::Result {
        write!(f, " refused {}{}", self.0, Kept(self.1, 0))
    }
}

// Puts what `call` answers where it is lent a buffer of one byte less than what it writes takes, if a buffer can be that short, and that long.
pub fn put_short<W: fmt::Write, F: FnOnce(&mut [u8]) -> Result<Numbers, Numbers>>(
    needed: usize,
    line: &mut W,
    call: F,
) -> fmt::Result
    requires { F.IsAlwaysCallable call }
{
    if needed == 0 || ROOM < needed {
        return Ok(());
    }
    let mut out = buffer();
    match call(&mut out[..needed - 1]) {
        Ok(numbers) | Err(numbers) => write!(line, " short {numbers}"),
    }
}
