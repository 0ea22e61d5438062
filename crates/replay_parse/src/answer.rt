// What the crate parse answers for one line: frames or a refusal, what stays of the buffer, a short buffer's refusal.
use parse::{ParseRefusal, parse};
use replay::answer::{Numbers, Refused, Written, buffer, put_short};
use std::fmt;

// What is told by frames, a report or a fault of the line, or a refusal.
fn told(parsed: Result<usize, ParseRefusal>) -> Result<Numbers, Numbers> {
    match parsed {
        Ok(value) => Ok(Numbers { number: 0, value }),
        Err(ParseRefusal::BadTree(value)) => Err(Numbers { number: 1, value }),
        Err(ParseRefusal::LineTooLong(value)) => Err(Numbers { number: 2, value }),
        Err(ParseRefusal::IllFormed(value)) => Err(Numbers { number: 3, value }),
        Err(ParseRefusal::UnknownCommand(value)) => Ok(Numbers { number: 4, value }),
        Err(ParseRefusal::UnknownOption(value)) => Ok(Numbers { number: 5, value }),
        Err(ParseRefusal::MissingValue(value)) => Ok(Numbers { number: 6, value }),
        Err(ParseRefusal::MissingRequired(value)) => Ok(Numbers { number: 7, value }),
        Err(ParseRefusal::NoRoom(value)) => Err(Numbers { number: 9, value }),
    }
}

// Puts what is answered for a line under a tree.
pub fn put_answer<W: fmt::Write>(image: &[u8], text: &[u8], line: &mut W) -> fmt::Result {
    let mut out = buffer();
    match told(parse(image, text, &mut out)) {
        Ok(frames) => {
            let written = Written(&out, frames.value);
            write!(line, " told {}{written}", frames.number)?;
            put_short(frames.value, line, |short| told(parse(image, text, short)))
        }
        Err(refusal) => write!(line, "{}", Refused(refusal, &out)),
    }
}
