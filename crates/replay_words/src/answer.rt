// What the crate words answers for one line: frames or a refusal, what stays of the buffer, a short buffer's refusal.
use replay::answer::{Numbers, Refused, Written, buffer, put_short};
use std::fmt;
use words::{TokenizeRefusal, tokenize};

// The length of the words, or a refusal.
fn told(tokens: Result<usize, TokenizeRefusal>) -> Result<Numbers, Numbers> {
    match tokens {
        Ok(value) => Ok(Numbers { number: 0, value }),
        Err(TokenizeRefusal::LineTooLong(value)) => Err(Numbers { number: 2, value }),
        Err(TokenizeRefusal::IllFormed(value)) => Err(Numbers { number: 3, value }),
        Err(TokenizeRefusal::NoRoom(value)) => Err(Numbers { number: 9, value }),
    }
}

// Puts what is answered for a line.
pub fn put_answer<W: fmt::Write>(text: &[u8], line: &mut W) -> fmt::Result {
    let mut out = buffer();
    match told(tokenize(text, &mut out)) {
        Ok(words) => {
            write!(line, " words{}", Written(&out, words.value))?;
            put_short(words.value, line, |short| told(tokenize(text, short)))
        }
        Err(refusal) => write!(line, "{}", Refused(refusal, &out)),
    }
}
