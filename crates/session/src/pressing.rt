// `press`: one key of a session, and what it prints.
ghost use Rattle.std.specs.Prelude.{◌≡◌, ◌≤◌, length, take, drop, get_or, Ok};
ghost use Rattle.buffer.specs.Write.{Pushed};
ghost use Rattle.tree.specs.Images.{frames_of};
ghost use Rattle.tree.specs.Rules.{check_tree};
ghost use Rattle.session.specs.Prints.{lines_of, shown};
ghost use Rattle.session.specs.Inner.{Within, Enters, Tells};
ghost use Rattle.session.specs.Calls.{with_key, image_of, tree_before, PressingKey, RefusingLine};
ghost use Rattle.session.specs.Sizes.{screen_room, key_room};

use super::printing::{head, print, print_screen};
use super::running::{PrintRefusal, Printing, run_line};
use super::standing::Session;
use buffer::part;
use editor::{Editor, KeyAnswer, KeyRefusal, Pressed};
use frame::write_line;
use tree::{BadFrame, check_tree};

// How many bytes a key prints at most: the line feed, a frame, the prompt, each as a house line.
pub const KEY_ROOM: usize = 5 + 131073 + 23;

// Room for what a key shows, and for the kind before it.
const SCREEN_ROOM: usize = 1024;

// The session after a key, and what the key prints or why it prints nothing.
#[derive(Clone, Copy)]
pub struct Pressing {
    pub session: Session,
    pub answer: Result<Printing, PrintRefusal>,
}

impl Session {
    // The same with the editor and the history that a key left.
    fn after(self, key: KeyAnswer) -> Session
        ensures { result ≡ with_key self key }
    {
        Session {
            editor: key.editor,
            history: key.history,
            ..self
        }
    }
}

// Prints screen bytes of that size, which stand after their frame's kind.
fn print_shown(screen: &[u8], size: usize, out: &mut [u8]) -> usize
    requires { (size ≤ 1023) × (get_or screen.now 0 0 ≡ 0x22) × (key_room ≤ length out.old) }
    ensures { Pushed (lines_of (shown (take size (drop 1 screen.now)))) out.old 0 result out.new }
{
    print_screen(part(screen, 0, size + 1), out, 0)
}

// Prints the line feed of Enter, and what running the line prints.
fn print_entered(image: &[u8], line: &[u8], out: &mut [u8]) -> Printing
    requires { (check_tree image.now ≡ Ok tt) × (length line.now ≤ 255) × (key_room ≤ length out.old) }
    ensures { Enters (frames_of image.now) line.now out.old (Ok result) out.new }
{
    let at = print(b"\"\n", out, 0);
    run_line(image, line, out, at)
}

// Prints what a key did.
fn print_pressed(
    pressed: Pressed,
    image: &[u8],
    line: &[u8],
    screen: &[u8],
    out: &mut [u8],
) -> Printing
    requires { Within image.now (Ok pressed) × (get_or screen.now 0 0 ≡ 0x22) × (key_room ≤ length out.old) }
    ensures { Tells (Ok pressed) image.now line.now screen.now out.old (Ok result) out.new }
{
    match pressed {
        Pressed::Shown(size) => Printing::Goes(print_shown(screen, size, out)),
        Pressed::Entered(size) => print_entered(image, part(line, 0, size), out),
        Pressed::Dropped => Printing::Goes(0),
    }
}

// Prints what the editor answered. The prompt is good and the buffers are long enough, so a key that it refused met a bad state.
fn print_answer(
    answer: Result<Pressed, KeyRefusal>,
    image: &[u8],
    line: &[u8],
    screen: &[u8],
    out: &mut [u8],
) -> Result<Printing, PrintRefusal>
    requires { Within image.now answer × (get_or screen.now 0 0 ≡ 0x22) × (key_room ≤ length out.old) }
    ensures { Tells answer image.now line.now screen.now out.old result out.new }
{
    match answer {
        Ok(pressed) => Ok(print_pressed(pressed, image, line, screen, out)),
        Err(_) => Err(PrintRefusal::BadState),
    }
}

// The test of the tree before a key: only at Enter a line is run.
fn check_before(byte: u8, image: &[u8]) -> Result<(), BadFrame>
    ensures { result ≡ tree_before byte image.now }
{
    match byte {
        0x0D | 0x0A => check_tree(image),
        _ => Ok(()),
    }
}

// Presses a key under a tree that was tested, with buffers for the line that it may submit and for the screen.
fn press_with(
    session: Session,
    image: &[u8],
    slots: &mut [u8],
    byte: u8,
    line: &mut [u8],
    screen: &mut [u8],
    out: &mut [u8],
) -> Pressing
    requires { (tree_before byte (image_of session image.now) ≡ Ok tt) × (length line.old ≡ 255) × (length screen.old ≡ screen_room) × (key_room ≤ length out.old) }
    ensures { PressingKey session image.now slots.old byte out.old result slots.new out.new }
{
    screen[0] = 0x22;
    let key = session.editor.key(
        session.history,
        slots,
        b"axvisor:$ ",
        byte,
        line,
        &mut screen[1..],
    );
    let tree = part(image, 0, session.walk.at);
    Pressing {
        session: session.after(key),
        answer: print_answer(key.answer, tree, line, screen, out),
    }
}

// Presses a key: what it prints stands as house lines at the front of out.
pub fn press(session: Session, image: &[u8], slots: &mut [u8], byte: u8, out: &mut [u8]) -> Pressing
    ensures { PressingKey session image.now slots.old byte out.old result slots.new out.new }
{
    if out.len() < KEY_ROOM {
        return Pressing {
            session,
            answer: Err(PrintRefusal::NoRoom(KEY_ROOM)),
        };
    }
    if let Err(BadFrame { number }) = check_before(byte, part(image, 0, session.walk.at)) {
        return Pressing {
            session,
            answer: Err(PrintRefusal::BadTree(number)),
        };
    }
    let mut line = [0u8; Editor::LIMIT];
    let mut screen = [0u8; SCREEN_ROOM];
    press_with(session, image, slots, byte, &mut line, &mut screen, out)
}

// Prints what a line that is refused prints, by its number: it is the last.
pub fn refuse(number: usize, out: &mut [u8]) -> Result<Printing, PrintRefusal>
    ensures { RefusingLine number out.old result out.new }
{
    match write_line(&head(0x2F, number), out) {
        Ok(n) => Ok(Printing::Ends(n)),
        Err(short) => Err(PrintRefusal::NoRoom(short.needed)),
    }
}
