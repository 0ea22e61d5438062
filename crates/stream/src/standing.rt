// Where a stream stands, by value: its session, and what lies in the buffer for a line.
ghost use Rattle.std.specs.Prelude.{◌≡◌};
ghost use Rattle.stream.specs.Held.{starting, reading, waiting, settled, stopped, busy_with};

use keys::Profile;
use session::Session;

// In the buffer for a line lie the first `held` bytes of a line that is not at its end, or the keys of the last line, of which those from `next` up to
// `keys` are still to be pressed.
#[derive(Clone, Copy)]
pub struct Stream {
    pub session: Session,
    pub held: usize,
    pub next: usize,
    pub keys: usize,
    pub over: bool,
}

// A stream after a step over a piece: how many bytes of it were taken, and how many are printed.
#[derive(Clone, Copy)]
pub struct Step {
    pub stream: Stream,
    pub took: usize,
    pub printed: usize,
}

// A stream after a move, and the place after what is printed.
#[derive(Clone, Copy)]
pub struct Printout {
    pub stream: Stream,
    pub printed: usize,
}

impl Stream {
    // Room for a line: the longest house line has 1,024 digits and its LF, so with this many bytes it is none.
    pub const LINE_ROOM: usize = 1026;

    // Nothing has come, and keys are read as the profile has them.
    pub fn start(profile: Profile) -> Stream
        ensures { result ≡ starting profile }
    {
        Stream::reading(Session::fresh(profile), 0)
    }

    // A session of which so many bytes of a line are held.
    pub fn reading(session: Session, held: usize) -> Stream
        ensures { result ≡ reading session held }
    {
        Stream {
            session,
            held,
            next: 0,
            keys: 0,
            over: false,
        }
    }

    // A session with keys to be pressed.
    pub fn waiting(session: Session, next: usize, keys: usize) -> Stream
        ensures { result ≡ waiting session next keys }
    {
        Stream {
            next,
            keys,
            ..Stream::reading(session, 0)
        }
    }

    // A session after a line. Nothing is read past line 65,535.
    pub fn settled(session: Session) -> Stream
        ensures { result ≡ settled session }
    {
        Stream {
            over: Session::LAST_LINE <= session.lines,
            ..Stream::reading(session, 0)
        }
    }

    // A session at its end.
    pub fn stopped(session: Session) -> Stream
        ensures { result ≡ stopped session }
    {
        Stream {
            over: true,
            ..Stream::reading(session, 0)
        }
    }

    // Whether no byte can be taken: keys are still to be pressed, or the session is at its end.
    pub fn is_busy(self) -> bool
        ensures { result ≡ busy_with self }
    {
        self.over || self.next < self.keys
    }
}
