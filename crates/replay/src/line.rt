// A line of output, gathered in memory of its own and printed at its end; and bytes put one after the other at a place of a buffer.
use buffer::part;
use frame::write_line;
use std::fmt;
use std::io::Print;

// A line of at most N bytes.
#[derive(Clone, Copy)]
pub struct Line<const N: usize> {
    bytes: [u8; N],
    length: usize,
}

impl<const N: usize> Line<N> {
    pub fn new() -> Self {
        Self {
            bytes: [0; N],
            length: 0,
        }
    }

    // What the line holds.
    pub fn text(&self) -> &[u8] {
        &self.bytes[..self.length.min(N)]
    }

    // Prints the line as far as it is put, without an end.
    pub fn print_part(&self, rt: &impl Print) {
        let _ = rt.write_all(self.text());
    }

    // Prints the line and its end by one write, if all was put that should be and a byte is left beside the end's; a line that doesn't fit is told.
    pub fn print(&mut self, rt: &impl Print, put: fmt::Result) {
        let end = self.length;
        if put.is_err() || end >= N.saturating_sub(1) {
            let _ = rt.write_all(b"an answer is longer than the line's buffer\n");
            return;
        }
        self.length = put_all(b"\n", &mut self.bytes, end);
        let _ = rt.write_all(self.text());
    }
}

impl<const N: usize> fmt::Write for Line<N> {
    fn write_str(&mut self, s: &str) -> fmt::Result {
        let at = self.length;
        self.length = put_all(s.as_bytes(), &mut self.bytes, at);
        if self.length.saturating_sub(at) < s.len() {
            return Err(fmt::Error);
        }
        Ok(())
    }
}

// How many bytes are put at a time.
const PIECE: usize = 64;

// Bytes as digits in hexadecimal, two each: those of house lines without their ends.
#[derive(Clone, Copy)]
pub struct Digits<'a>(pub &'a [u8]);

impl<'a> fmt::Display for Digits<'a> {
    fn fmt<W: fmt::Write>(&self, f: &mut fmt::Formatter<W>) -> fmt::Result {
        for piece in self.0.chunks(PIECE) {
            let mut line = [0u8; 2 * PIECE + 1];
            let end = write_line(piece, &mut line).map_err(|_| fmt::Error)?;
            let digits = part(&line, 0, end.saturating_sub(1));
            f.write_str(str::from_utf8(digits).map_err(|_| fmt::Error)?)?;
        }
        Ok(())
    }
}

// The same, and '-' for none.
#[derive(Clone, Copy)]
pub struct Bytes<'a>(pub &'a [u8]);

impl<'a> fmt::Display for Bytes<'a> {
    fn fmt<W: fmt::Write>(&self, f: &mut fmt::Formatter<W>) -> fmt::Result {
        if self.0.is_empty() {
            return write!(f, "-");
        }
        write!(f, "{}", Digits(self.0))
    }
}

// Puts bytes at a place of a buffer and returns the place after them. A full buffer takes no more.
pub fn put_all(bytes: &[u8], buffer: &mut [u8], at: usize) -> usize {
    let Some(room) = buffer.get_mut(at..) else {
        return at;
    };
    let n = bytes.len().min(room.len());
    room[..n].copy_from_slice(&bytes[..n]);
    at + n
}
