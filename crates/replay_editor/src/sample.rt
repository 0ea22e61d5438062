// The stored sample: each line of the input is a stream of keys in hexadecimal, and is answered by a line. A line that begins with `+` is read by the profile of ECMA-48.
use crate::pressing::press_all;
use keys::Profile;
use replay::hex::read_hex;
use replay::input::each_line;
use std::io::{Input, Print};

// Presses the keys of digits. A stream has at most 1,100 keys: what is longer is read as none, and shows in the answer.
fn press_digits(rt: &impl Print, profile: Profile, digits: &[u8]) {
    let mut keys = [0u8; 1100];
    let n = read_hex(digits, &mut keys);
    press_all(rt, profile, &keys[..n]);
}

// Presses the keys of a line.
fn press_line(rt: &impl Print, line: &[u8]) {
    match line.strip_prefix(b"+") {
        Some(digits) => press_digits(rt, Profile::Ecma48, digits),
        None => press_digits(rt, Profile::Rust, line),
    }
}

// Presses all of standard input, which has to be shorter than 65,536 bytes.
pub fn all(rt: &(impl Input + Print)) {
    each_line::<65536, _>(rt, |line| press_line(rt, line));
}
