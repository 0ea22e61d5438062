// The line that is being typed, by value, with its limit and its fresh state; a byte put in, a byte taken out, the cursor moved.
ghost use Rattle.std.specs.Prelude.{◌+◌, ◌-◌, ◌<◌, ◌≤◌, ◌≡◌, true, [], length};
ghost use Rattle.editor.specs.Line.{limit, holding, line_of, fresh_editor, good_line, good_editor, inserted, erased};

use buffer::greatest_byte;
use keys::{Mode, Profile, is_good_mode};

// The line in fixed memory, of which the first `length` bytes count: so it lies in a saved state.
#[derive(Clone, Copy)]
pub struct Editor {
    pub line: [u8; 255],
    pub length: usize,
    pub cursor: usize,
    pub mode: Mode,
    pub profile: Profile,
}

impl Editor {
    // How many bytes a line holds at most.
    pub const LIMIT: usize = 255;

    // No line, and keys read as the profile has them.
    pub fn fresh(profile: Profile) -> Editor
        ensures { result ≡ fresh_editor profile }
    {
        Editor {
            line: [0; 255],
            length: 0,
            cursor: 0,
            mode: Mode::Typing,
            profile,
        }
    }

    // The same editor with no line.
    pub(crate) fn emptied(self) -> Editor
        ensures { result ≡ holding [] 0 self.mode self.profile }
    {
        Editor {
            mode: self.mode,
            ..Editor::fresh(self.profile)
        }
    }

    // The same editor holding a text, with the cursor at its end.
    pub fn recalled(self, text: &[u8]) -> Editor
        requires { length text.now ≤ limit }
        ensures { result ≡ holding text.now (length text.now) self.mode self.profile }
    {
        let length = text.len();
        let mut line = self.emptied().line;
        line[..length].copy_from_slice(text);
        Editor {
            line,
            length,
            cursor: length,
            ..self
        }
    }

    // Whether the line keeps its rules: its length, its cursor, zeros after it.
    fn is_good_line(self) -> bool
        ensures { result ≡ good_line self }
    {
        if Editor::LIMIT < self.length || self.length < self.cursor {
            return false;
        }
        greatest_byte(&self.line[self.length..]) == 0
    }

    // Whether the line keeps its rules, and keys lead to the mode.
    pub fn is_good(self) -> bool
        ensures { result ≡ good_editor self }
    {
        is_good_mode(self.profile, self.mode) && self.is_good_line()
    }

    // A byte typed at the cursor: what stood there and after it moves on by one.
    pub(crate) fn insert(mut self, byte: u8) -> Editor
        requires { (good_line self ≡ true) × (self.length < limit) }
        ensures { result ≡ holding (inserted (line_of self) self.cursor byte) (self.cursor + 1) self.mode self.profile }
    {
        let length = self.length;
        let cursor = self.cursor;
        let mut line = self.line;
        line.copy_within(cursor..length, cursor + 1);
        line[cursor] = byte;
        self.line = line;
        self.length += 1;
        self.cursor += 1;
        self
    }

    // The byte before the cursor taken out: what stands after it moves back by one.
    pub(crate) fn erase(mut self) -> Editor
        requires { (good_line self ≡ true) × (0 < self.cursor) }
        ensures { result ≡ holding (erased (line_of self) self.cursor) (self.cursor - 1) self.mode self.profile }
    {
        let length = self.length;
        let cursor = self.cursor;
        let last = length - 1;
        let mut line = self.line;
        line.copy_within(cursor..length, cursor - 1);
        line[last] = 0;
        self.line = line;
        self.length = last;
        self.cursor -= 1;
        self
    }

    // The same line, with the cursor at another place.
    pub(crate) fn moved(mut self, cursor: usize) -> Editor
        ensures { result ≡ record { line = self.line; length = self.length; cursor = cursor; mode = self.mode; profile = self.profile } }
    {
        self.cursor = cursor;
        self
    }

    // The same line, in another mode.
    pub(crate) fn in_mode(self, mode: Mode) -> Editor
        ensures { result ≡ record { line = self.line; length = self.length; cursor = self.cursor; mode = mode; profile = self.profile } }
    {
        Editor { mode, ..self }
    }
}
