// Standard input, read whole, and its lines.
ghost use Rattle.std.specs.Prelude.{◌≤◌, ◌<◌, ◌^◌, ◌≡◌, length, take};

use std::io::{Input, Print, Read};

// Reads until a buffer is full, the input ends or a read fails, and returns how many bytes stand at the front of the buffer.
pub fn read_full<R: Read>(reader: &mut R, input: &mut [u8]) -> usize
    ensures { (result ≤ length input.new) × (result ≡ length (take result input.new)) }
{
    let mut done = 0;
    while done < input.len() {
        match reader.read(&mut input[done..]) {
            Ok(0) | Err(_) => return done,
            Ok(n) => done += n,
        }
    }
    done
}

// Reads all of standard input and returns its length. An input that fills the buffer may have more, and is told.
fn read_input(rt: &(impl Input + Print), input: &mut [u8]) -> usize
    ensures { (result ≤ length input.new) × (result ≡ length (take result input.new)) }
{
    let mut reader = rt.reader();
    let n = read_full(&mut reader, input);
    if n == input.len() {
        let _ = rt.write_all(b"the input is too long for the buffer\n");
    }
    n
}

// Hands on each line of standard input, which has to be shorter than N bytes.
pub fn each_line<const N: usize, F: FnMut(&[u8])>(rt: &(impl Input + Print), mut visit: F)
    requires callable { F.IsAlwaysCallable visit }
    requires room { N < 2 ^ 63 }
{
    let mut input = [0u8; N];
    let n = read_input(rt, &mut input);
    let mut left = &input[..n];
    while !left.is_empty() {
        match left.iter().position(|byte| *byte == b'\n') {
            Some(end) => {
                visit(&left[..end]);
                left = &left[end + 1..];
            }
            None => {
                visit(left);
                return;
            }
        }
    }
}
