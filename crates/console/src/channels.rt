// Standard input and output: one read, a whole write. A call that was only interrupted is made again; a failure is told on standard error.
ghost use Rattle.std.specs.Prelude.{◌≤◌, ◌≡◌, length, IfOk, IfSome};

use std::io;
use std::io::{Cursor, ErrorKind, Print, Read, Write};

// Reads once, and returns how many bytes were read, 0 at the input's end; a read that was only interrupted is made again.
fn read_once(rt: &HostRuntime, input: &mut [u8]) -> io::Result<usize>
    ensures within { IfOk result (λ n. n ≤ length input.old) }
    ensures kept { length input.new ≡ length input.old }
{
    let mut stdin = rt.stdin();
    for _ in 0..u64::MAX {
        match stdin.read(input) {
            Ok(n) => return Ok(n),
            Err(error) => {
                if error.kind() != ErrorKind::Interrupted {
                    return Err(error);
                }
            }
        }
    }
    Err(io::Error::from(ErrorKind::Interrupted))
}

// Writes all bytes, or as many as can be written; a write that was only interrupted is made again. The library's `write_all` would tell a write of no
// byte by another text.
fn write_whole(rt: &HostRuntime, bytes: &[u8]) -> io::Result<()> {
    let mut stdout = rt.stdout();
    let mut left = bytes;
    for _ in 0..u64::MAX {
        if left.is_empty() {
            return Ok(());
        }
        match stdout.write(left) {
            Ok(0) => return Err(io::Error::from(ErrorKind::WriteZero)),
            Ok(n) => left = &left[n..],
            Err(error) => {
                if error.kind() != ErrorKind::Interrupted {
                    return Err(error);
                }
            }
        }
    }
    Err(io::Error::from(ErrorKind::Interrupted))
}

// Where the number of an error, which stands in brackets behind its text and a space, begins: the text without it ends there.
fn text_end(text: &[u8]) -> usize
    ensures { result ≤ length text.now }
{
    match text.iter().rposition(|byte| *byte == b'(') {
        Some(at) => at.saturating_sub(1),
        None => text.len(),
    }
}

// Room for an error's text and its number.
const ERROR_ROOM: usize = 256;

// Writes a line to standard error: what failed, as the caller names it, a colon and the error's text.
fn fail(rt: &HostRuntime, what: &[u8], error: io::Error) {
    let mut room = Cursor::new([0u8; ERROR_ROOM]);
    let _ = write!(room, "{error}");
    let length = (room.position() as usize).min(ERROR_ROOM);
    let text = room.into_inner();
    let end = text_end(&text[..length]);
    let stderr = rt.stderr();
    let _ = Print::write_all(&stderr, what);
    let _ = Print::write_all(&stderr, b": ");
    let _ = Print::write_all(&stderr, &text[..end]);
    let _ = Print::write_all(&stderr, b"\n");
}

// Reads the next piece, and returns how many bytes were read, 0 at the input's end. A read that fails is told on standard error.
pub fn read_piece(rt: &HostRuntime, input: &mut [u8]) -> Option<usize>
    ensures within { IfSome result (λ n. n ≤ length input.old) }
    ensures kept { length input.new ≡ length input.old }
{
    match read_once(rt, input) {
        Ok(n) => Some(n),
        Err(error) => {
            fail(rt, b"console: standard input", error);
            None
        }
    }
}

// Writes what was printed. A write that fails is told on standard error.
pub fn write_out(rt: &HostRuntime, bytes: &[u8]) -> bool {
    if let Err(error) = write_whole(rt, bytes) {
        fail(rt, b"console: standard output", error);
        return false;
    }
    true
}
