// What the crate shell answers for one line: nothing, a text, the end or a handler, with what is written, or a refusal.
use replay::answer::{Numbers, Refused, Written, buffer, put_short};
use shell::{Ran, RunRefusal, run};
use std::fmt;

// How many bytes are written, or a refusal.
fn told(ran: Result<Ran, RunRefusal>) -> Result<Numbers, Numbers> {
    match ran {
        Ok(Ran::Nothing) => Ok(Numbers {
            number: 0,
            value: 0,
        }),
        Ok(Ran::Exit(value))
        | Ok(
            Ran::Text {
                number: _,
                length: value,
            },
        )
        | Ok(
            Ran::Handler {
                handler: _,
                length: value,
            },
        ) => Ok(Numbers { number: 0, value }),
        Err(RunRefusal::BadTree(value)) => Err(Numbers { number: 1, value }),
        Err(RunRefusal::LineTooLong(value)) => Err(Numbers { number: 2, value }),
        Err(RunRefusal::NoRoom(value)) => Err(Numbers { number: 9, value }),
    }
}

// Puts what an answer that is no refusal is, and the number beside it.
fn put_kind<W: fmt::Write>(ran: Result<Ran, RunRefusal>, line: &mut W) -> fmt::Result {
    match ran {
        Ok(Ran::Text { number, length: _ }) => write!(line, " text {number}"),
        Ok(Ran::Exit(_)) => write!(line, " exit"),
        Ok(Ran::Handler { handler, length: _ }) => write!(line, " handler {handler}"),
        _ => write!(line, " nothing"),
    }
}

// Puts what is answered for a line under a tree.
pub fn put_answer<W: fmt::Write>(image: &[u8], text: &[u8], line: &mut W) -> fmt::Result {
    let mut out = buffer();
    let ran = run(image, text, &mut out);
    match told(ran) {
        Ok(said) => {
            put_kind(ran, line)?;
            write!(line, "{}", Written(&out, said.value))?;
            put_short(said.value, line, |short| told(run(image, text, short)))
        }
        Err(refusal) => write!(line, "{}", Refused(refusal, &out)),
    }
}
