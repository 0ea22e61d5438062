// One stream of keys from the fresh state: what each key shows, in hexadecimal with commas between, then the entries of history after a semicolon.
use buffer::part;
use editor::{Editor, KeyRefusal, Pressed};
use history::History;
use keys::Profile;
use replay::line::{Digits, Line};
use std::fmt::Write;
use std::io::Print;

// How many bytes a key has shown; a refusal or a dropped byte shows none.
fn shown(answer: Result<Pressed, KeyRefusal>) -> usize {
    match answer {
        Ok(Pressed::Shown(n)) => n,
        Ok(Pressed::Entered(_)) => 1,
        _ => 0,
    }
}

// Writes bytes in hexadecimal, after a comma if they are not the first.
fn write_part(rt: &impl Print, bytes: &[u8], number: usize) {
    let mut part = Line::<1024>::new();
    let comma = if number > 0 { "," } else { "" };
    let _ = write!(part, "{comma}{}", Digits(bytes));
    part.print_part(rt);
}

// Writes the entries of a history, oldest first.
fn write_entries(rt: &impl Print, history: History, slots: &[u8]) {
    for i in 0..history.count {
        write_part(rt, history.recall(slots, i), i);
    }
}

// What the keys before this one left.
#[derive(Clone, Copy)]
struct Held {
    editor: Editor,
    history: History,
}

// Presses a key and writes what it shows.
fn press(
    rt: &impl Print,
    held: Held,
    slots: &mut [u8],
    byte: u8,
    number: usize,
    line: &mut [u8],
    screen: &mut [u8],
) -> Held {
    let key = held
        .editor
        .key(held.history, slots, b"axvisor:$ ", byte, line, screen);
    write_part(rt, part(screen, 0, shown(key.answer)), number);
    Held {
        editor: key.editor,
        history: key.history,
    }
}

// Presses keys one after the other, in the buffers that are lent, and writes the history that they leave.
fn press_with(
    rt: &impl Print,
    profile: Profile,
    keys: &[u8],
    slots: &mut [u8],
    line: &mut [u8],
    screen: &mut [u8],
) {
    let mut held = Held {
        editor: Editor::fresh(profile),
        history: History::fresh(),
    };
    for (number, byte) in keys.iter().enumerate() {
        held = press(rt, held, slots, *byte, number, line, screen);
    }
    let _ = rt.write_all(b";");
    write_entries(rt, held.history, slots);
    let _ = rt.write_all(b"\n");
}

// Presses keys from the fresh state of a profile.
pub fn press_all(rt: &impl Print, profile: Profile, keys: &[u8]) {
    let mut slots = [0u8; 25600];
    let mut line = [0u8; 255];
    let mut screen = [0u8; 512];
    press_with(rt, profile, keys, &mut slots, &mut line, &mut screen);
}
