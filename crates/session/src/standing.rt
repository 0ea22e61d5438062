// Where a session stands, by value: the editor and its history, the walk over the image so far, whether keys have come, the lines read.
ghost use Rattle.std.specs.Prelude.{◌≡◌, ◌<◌};
ghost use Rattle.session.specs.Sizes.{last_line};
ghost use Rattle.session.specs.Calls.{fresh, with_walk, with_keys};

use editor::Editor;
use history::History;
use keys::Profile;
use tree::Walk;

#[derive(Clone, Copy)]
pub struct Session {
    pub editor: Editor,
    pub history: History,
    pub walk: Walk,
    pub keyed: bool,
    pub lines: usize,
}

impl Session {
    // The last line that is read.
    pub const LAST_LINE: usize = 65535;

    // The bytes of a frame that is read, at most.
    pub const FRAME_ROOM: usize = 512;

    // No line is read, and keys are read as the profile has them.
    pub fn fresh(profile: Profile) -> Session
        ensures { result ≡ fresh profile }
    {
        Session {
            editor: Editor::fresh(profile),
            history: History::fresh(),
            walk: Walk::start(),
            keyed: false,
            lines: 0,
        }
    }

    // A line more, which was a frame of the tree.
    pub fn with_walk(self, walk: Walk) -> Session
        requires { self.lines < last_line }
        ensures { result ≡ with_walk self walk }
    {
        Session {
            walk,
            lines: self.lines + 1,
            ..self
        }
    }

    // A line more, which was keys.
    pub fn with_keys(self) -> Session
        requires { self.lines < last_line }
        ensures { result ≡ with_keys self }
    {
        Session {
            keyed: true,
            lines: self.lines + 1,
            ..self
        }
    }
}
