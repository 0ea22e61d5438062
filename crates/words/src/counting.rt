// A line on its way to words: how far it is read, how many bytes its ended words take as frames, how long the open word is.
ghost use Rattle.std.specs.Prelude.{◌+◌, ◌*◌, ◌≤◌, ◌≡◌, false};
ghost use Rattle.words.specs.Inner.{closed_at, closed_by, advanced};
ghost use Rattle.frame.specs.Limits.{frames_limit, line_limit};

use super::role::Role;

#[derive(Clone, Copy)]
pub struct Scan {
    pub at: usize,
    pub done: usize,
    pub word: usize,
    pub quotes: bool,
    pub escaped: bool,
}

// How many bytes the frames take once the open word ends; an empty one does not exist.
pub fn closed(done: usize, word: usize) -> usize
    requires { closed_at done word ≤ frames_limit }
    ensures { result ≡ closed_at done word }
{
    if word == 0 {
        return done;
    }
    done + 3 + word
}

impl Scan {
    // Nothing is read.
    pub fn start() -> Scan
        ensures { result ≡ record { at = 0; done = 0; word = 0; quotes = false; escaped = false } }
    {
        Scan {
            at: 0,
            done: 0,
            word: 0,
            quotes: false,
            escaped: false,
        }
    }

    // n bytes are read that together do what the role says.
    pub fn advance(self, role: Role, n: usize) -> Scan
        requires { (closed_by self ≤ 4 * self.at) × (self.at + n ≤ line_limit) }
        ensures { result ≡ advanced self role n }
    {
        let next = Scan {
            at: self.at + n,
            escaped: false,
            ..self
        };
        match role {
            Role::Take => Scan {
                word: self.word + n,
                ..next
            },
            Role::Escape => Scan {
                escaped: true,
                ..next
            },
            Role::Toggle => Scan {
                quotes: !self.quotes,
                ..next
            },
            Role::Gap => Scan {
                done: closed(self.done, self.word),
                word: 0,
                ..next
            },
        }
    }
}
