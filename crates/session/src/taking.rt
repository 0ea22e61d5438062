// `take_line`: one house line, a frame of the tree or keys.
ghost use Rattle.std.specs.Prelude.{◌≡◌, ◌<◌, length};
ghost use Rattle.session.specs.Sizes.{last_line};
ghost use Rattle.session.specs.Lines.{form_of};
ghost use Rattle.session.specs.Calls.{refusing, took_by, image_by, TakingLine};

use super::standing::Session;
use buffer::part;
use frame::{HouseRefusal, read_line};
use tree::{IMAGE_LIMIT, add_frame};

#[derive(Clone, Copy)]
pub enum Taken {
    // A frame of the tree, which the image has now.
    Tree,
    // Keys: a frame of so many bytes, its kind and then the keys.
    Keys(usize),
    // The number of a line that ends the session.
    BadLine(usize),
    // Nothing is read past line 65,535.
    Over,
    // The buffer for the frame or the one for the image is too short: the length needed.
    NoRoom(usize),
}

// The session after a line, and what the line was.
#[derive(Clone, Copy)]
pub struct Took {
    pub session: Session,
    pub answer: Taken,
}

fn refused(session: Session) -> Took
    requires { session.lines < last_line }
    ensures { result ≡ refusing session }
{
    Took {
        session,
        answer: Taken::BadLine(session.lines + 1),
    }
}

// The frame of a line: keys, or a frame of the tree that the image takes.
fn take_frame(session: Session, bytes: &[u8], image: &mut [u8]) -> Took
    requires { (session.lines < last_line) × (0 < length bytes.now) }
    ensures { (result ≡ took_by session image.old (form_of bytes.now)) × (image.new ≡ image_by session image.old (form_of bytes.now)) }
{
    if bytes[0] == 0x20 {
        return Took {
            session: session.with_keys(),
            answer: Taken::Keys(bytes.len()),
        };
    }
    if session.keyed {
        return refused(session);
    }
    let Some(walk) = add_frame(session.walk, bytes, image) else {
        return refused(session);
    };
    Took {
        session: session.with_walk(walk),
        answer: Taken::Tree,
    }
}

// Takes a house line: a frame of the tree is put after the image in its buffer, keys are left in the buffer for a frame.
pub fn take_line(session: Session, line: &[u8], image: &mut [u8], frame: &mut [u8]) -> Took
    ensures { TakingLine session line.now image.old frame.old result image.new frame.new }
{
    if Session::LAST_LINE <= session.lines {
        return Took {
            session,
            answer: Taken::Over,
        };
    }
    if frame.len() < Session::FRAME_ROOM {
        return Took {
            session,
            answer: Taken::NoRoom(Session::FRAME_ROOM),
        };
    }
    if image.len() < IMAGE_LIMIT {
        return Took {
            session,
            answer: Taken::NoRoom(IMAGE_LIMIT),
        };
    }
    let Ok(n) = read_line(line, frame) else {
        return refused(session);
    };
    take_frame(session, part(frame, 0, n), image)
}
