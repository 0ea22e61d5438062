// A line run, and what that prints.
ghost use Rattle.std.specs.Prelude.{◌≡◌, ◌∷◌, ◌+◌, ◌*◌, ◌≤◌, length, take, drop, get_or, Ok};
ghost use Rattle.buffer.specs.Write.{over, Pushed};
ghost use Rattle.frame.specs.House.{house_line};
ghost use Rattle.tree.specs.Images.{frames_of};
ghost use Rattle.tree.specs.Rules.{check_tree};
ghost use Rattle.shell.specs.Lines.{Said, said_of};
ghost use Rattle.session.specs.Sizes.{frame_size, text_size, frame_line, answer_room};
ghost use Rattle.session.specs.Prints.{wide, frame_of, lines_of, shown, handler as handed};
ghost use Rattle.session.specs.Inner.{Fits, Says, Answers};

use super::printing::{head, print, print_prompt, print_screen};
use buffer::copy;
use shell::{Ran, run};

// The bytes of a frame that is printed, with its kind.
const FRAME_SIZE: usize = 65536;

// What is printed, as house lines, and what becomes of the session.
#[derive(Clone, Copy)]
pub enum Printing {
    // So many bytes are printed, 0 for no line, and the session goes on.
    Goes(usize),
    // So many bytes are printed, and the session is at its end.
    Ends(usize),
}

// Why nothing is printed: then the session and every buffer stay as they were.
#[derive(Clone, Copy)]
pub enum PrintRefusal {
    // The tree under which Enter would run a line is bad: the number of its first frame that breaks a rule.
    BadTree(usize),
    // The state of the editor or of its history is bad.
    BadState,
    // The buffer for what is printed is too short: the length needed.
    NoRoom(usize),
}

// Prints a text of that size, which stands after its frame's kind from place 3 on.
fn print_text(text: &[u8], size: usize, out: &mut [u8], at: usize) -> usize
    requires { (length text.now ≡ frame_size) × (size ≤ text_size) × (get_or text.now 2 0 ≡ 0x22) × (at + frame_line ≤ length out.old) }
    ensures { Pushed (lines_of (shown (take size (drop 3 text.now)))) out.old at result out.new }
{
    let end = 3 + size;
    print_screen(&text[2..end], out, at)
}

// Puts the head of a frame 21 at the front of a text: its kind and the handler's number.
fn put_head(handler: usize, text: &mut [u8])
    requires { 3 ≤ length text.old }
    ensures { text.new ≡ over (0x21 ∷ wide handler) text.old }
{
    copy(&head(0x21, handler), text);
}

// Prints the frame that is the first bytes of a text.
fn print_first(text: &[u8], size: usize, out: &mut [u8], at: usize) -> usize
    requires { (size ≤ length text.now) × (at + (2 * size + 1) ≤ length out.old) }
    ensures { Pushed (house_line (take size text.now)) out.old at result out.new }
{
    print(&text[..size], out, at)
}

// Prints a report of that size, which stands from place 3 on, for a handler.
fn print_handler(handler: usize, text: &mut [u8], size: usize, out: &mut [u8], at: usize) -> usize
    requires { (length text.old ≡ frame_size) × (size ≤ text_size) × (at + frame_line ≤ length out.old) }
    ensures { Pushed (house_line (frame_of (handed handler (take size (drop 3 text.old))))) out.old at result out.new }
{
    put_head(handler, text);
    print_first(text, 3 + size, out, at)
}

// Prints what a line said, and the prompt unless that is the end.
fn print_ran(ran: Ran, text: &mut [u8], out: &mut [u8], at: usize) -> Printing
    requires { Fits ran text_size × (length text.old ≡ frame_size) × (get_or text.old 2 0 ≡ 0x22) × (at + answer_room ≤ length out.old) }
    ensures { (said : Said) → Says said (Ok ran) text.old → Answers said out.old at (Ok result) out.new }
{
    match ran {
        Ran::Nothing => Printing::Goes(print_prompt(out, at)),
        Ran::Text { number: _, length } => {
            let after = print_text(text, length, out, at);
            Printing::Goes(print_prompt(out, after))
        }
        Ran::Exit(size) => {
            let after = print_text(text, size, out, at);
            Printing::Ends(print(&[0x23], out, after))
        }
        Ran::Handler { handler, length } => {
            let after = print_handler(handler as usize, text, length, out, at);
            Printing::Goes(print_prompt(out, after))
        }
    }
}

// Runs a line under a tree, with a buffer for what it says, and prints that at a place of out. No such line is refused: the tree is good, and the buffer
// holds all that a line says.
fn run_in(image: &[u8], line: &[u8], text: &mut [u8], out: &mut [u8], at: usize) -> Printing
    requires { (check_tree image.now ≡ Ok tt) × (length line.now ≤ 255) × (length text.old ≡ frame_size) × (at + answer_room ≤ length out.old) }
    ensures { Answers (said_of (frames_of image.now) line.now) out.old at (Ok result) out.new }
{
    text[2] = 0x22;
    let ran = run(image, line, &mut text[3..]).unwrap();
    print_ran(ran, text, out, at)
}

// Runs a line under a tree and prints what it says at a place of out.
pub fn run_line(image: &[u8], line: &[u8], out: &mut [u8], at: usize) -> Printing
    requires { (check_tree image.now ≡ Ok tt) × (length line.now ≤ 255) × (at + answer_room ≤ length out.old) }
    ensures { Answers (said_of (frames_of image.now) line.now) out.old at (Ok result) out.new }
{
    let mut text = [0u8; FRAME_SIZE];
    run_in(image, line, &mut text, out, at)
}
