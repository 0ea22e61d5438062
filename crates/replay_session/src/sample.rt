// The stored sample: each line of the input is a session in hexadecimal, and is answered by a line with what the session prints. A line that begins with `+`
// is read by the profile of ECMA-48.
use crate::ways::{WAYS, replay_by};
use buffer::{part, same};
use keys::Profile;
use replay::hex::read_hex;
use replay::input::each_line;
use replay::line::{Bytes, Line};
use std::fmt::Write;
use std::io::{Input, Print};

// Whether a way prints a text. An answer that fills its buffer is longer than a text that does not.
fn prints(way: usize, profile: Profile, session: &[u8], text: &[u8]) -> bool {
    let mut answer = [0u8; 131072];
    let n = replay_by(way, profile, session, &mut answer);
    same(part(&answer, 0, n), text)
}

// The first way that does not print a text which the way 0 prints, if there is one.
fn differing(profile: Profile, session: &[u8], text: &[u8]) -> Option<usize> {
    (1..WAYS).find(|way| !prints(*way, profile, session, text))
}

// Writes a text, by one write.
fn write_text(rt: &impl Print, text: &[u8]) {
    let mut line = Line::<262146>::new();
    let put = write!(line, "{}", Bytes(text));
    line.print(rt, put);
}

// Answers a session. What it prints has to be shorter than the buffer: what fills it may be cut, and is told.
fn answer(rt: &impl Print, profile: Profile, session: &[u8]) {
    let mut answer = [0u8; 131072];
    let n = replay_by(0, profile, session, &mut answer);
    let text = part(&answer, 0, n);
    if answer.len() <= n {
        let _ = rt.write_all(b"an answer is longer than its buffer\n");
    } else if let Some(way) = differing(profile, session, text) {
        let _ = println!(rt; "differs {way}");
    } else {
        write_text(rt, text);
    }
}

// Answers a session's digits. A session has at most 16,384 bytes: one that is longer is told.
fn answer_digits(rt: &impl Print, profile: Profile, digits: &[u8]) {
    let mut session = [0u8; 16384];
    if session.len() < digits.len() / 2 {
        let _ = rt.write_all(b"a session is longer than its buffer\n");
        return;
    }
    let n = read_hex(digits, &mut session);
    answer(rt, profile, &session[..n]);
}

// Answers a line: the digits of a session, after a `+` if its keys are read as ECMA-48 has them.
fn answer_line(rt: &impl Print, line: &[u8]) {
    match line.strip_prefix(b"+") {
        Some(digits) => answer_digits(rt, Profile::Ecma48, digits),
        None => answer_digits(rt, Profile::Rust, line),
    }
}

// Answers all of standard input, which has to be shorter than 262,144 bytes.
pub fn all(rt: &(impl Input + Print)) {
    each_line::<262144, _>(rt, |line| answer_line(rt, line));
}
