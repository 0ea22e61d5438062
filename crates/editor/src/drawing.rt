// Showing what a key did, or refusing it where the screen's buffer is too short: then the state stays.
ghost use Rattle.std.specs.Prelude.{◌≤◌, ◌≡◌, length};
ghost use Rattle.screen.specs.Redraw.{redraw};
ghost use Rattle.editor.specs.Line.{limit, line_of, content};
ghost use Rattle.editor.specs.Turns.{arrow};
ghost use Rattle.editor.specs.Inner.{key_of, Shows};

use super::line::Editor;
use buffer::{TooShort, push};
use history::History;
use screen::clear_line_and_redraw;
use text::well_formed_prefix;

// What a key that is taken does.
#[derive(Clone, Copy)]
pub enum Pressed {
    // So many bytes are shown; 0 where the key changes nothing that is seen.
    Shown(usize),
    // Enter: a line feed is shown, and a line of so many bytes is submitted; 0 for an empty line.
    Entered(usize),
    // The line is full: the byte is dropped, and nothing changes.
    Dropped,
}

// Why a key is refused: then the state and every buffer stay as they were.
#[derive(Clone, Copy)]
pub enum KeyRefusal {
    // The state is bad.
    BadState,
    // The prompt is over 128 bytes or ill-formed: its length.
    BadPrompt(usize),
    // The buffer for the line or the screen is too short: the length needed.
    NoRoom(usize),
}

// The state after a key, and what the key did or why it was refused.
#[derive(Clone, Copy)]
pub struct KeyAnswer {
    pub editor: Editor,
    pub history: History,
    pub answer: Result<Pressed, KeyRefusal>,
}

impl Editor {
    // The editor as it is, beside a history and an answer.
    pub(crate) fn answers(self, history: History, answer: Result<Pressed, KeyRefusal>) -> KeyAnswer
        ensures { result ≡ key_of self history answer }
    {
        KeyAnswer {
            editor: self,
            history,
            answer,
        }
    }
}

// What is shown of a line: nothing if it is ill-formed.
pub fn shown_part(line: &[u8]) -> &[u8]
    ensures { result.now ≡ content line.now }
{
    if well_formed_prefix(line) == line.len() {
        return line;
    }
    &line[0..0]
}

// Draws the line of an editor anew; where that has no room, the editor and the history before it stay.
pub fn redraw(
    stays: Editor,
    before: History,
    goes: Editor,
    history: History,
    prompt: &[u8],
    screen: &mut [u8],
) -> KeyAnswer
    requires { (goes.length ≤ limit) × (length goes.line ≡ limit) × (length prompt.now ≤ 128) }
    ensures { Shows (redraw prompt.now (content (line_of goes)) goes.cursor) stays before goes history screen.old result screen.new }
{
    let shown = shown_part(&goes.line[..goes.length]);
    match clear_line_and_redraw(prompt, shown, goes.cursor, screen) {
        Ok(n) => goes.answers(history, Ok(Pressed::Shown(n))),
        Err(TooShort { needed }) => stays.answers(before, Err(KeyRefusal::NoRoom(needed))),
    }
}

// Shows the cursor's move by one, ESC `[` and a final byte.
pub fn show_arrow(
    stays: Editor,
    goes: Editor,
    history: History,
    byte: u8,
    screen: &mut [u8],
) -> KeyAnswer
    ensures { Shows (arrow byte) stays history goes history screen.old result screen.new }
{
    if screen.len() < 3 {
        return stays.answers(history, Err(KeyRefusal::NoRoom(3)));
    }
    push(&[0x1B, 0x5B, byte], screen, 0);
    goes.answers(history, Ok(Pressed::Shown(3)))
}
