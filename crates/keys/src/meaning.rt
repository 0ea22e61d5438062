// What a key means: a byte, by the profile and by what the keys before it began, to an action and to what is waited for after it.
ghost use Rattle.std.specs.Prelude.{◌≡◌};
ghost use Rattle.keys.specs.Keys.{doing, awaiting, typed, begun, escaped, awaiting_more, controlled, meaning};

use super::control::{arrow_of, ended, further};
use super::standing::{Action, LONGEST, Mode, Profile, Progress, unread};

#[derive(Clone, Copy)]
pub struct Meaning {
    pub action: Action,
    // What is waited for after it.
    pub mode: Mode,
}

// An action, after which typing goes on.
fn doing(action: Action) -> Meaning
    ensures { result ≡ doing action }
{
    Meaning {
        action,
        mode: Mode::Typing,
    }
}

// No action, but something is waited for.
fn awaiting(mode: Mode) -> Meaning
    ensures { result ≡ awaiting mode }
{
    Meaning {
        action: Action::Nothing,
        mode,
    }
}

// A byte that is typed: the ranges of the standard.
#[tactic(auto, unfolding(crate::specs::Keys::typed))]
fn typed(byte: u8) -> Meaning
    ensures { result ≡ typed byte }
{
    match byte {
        0x0D | 0x0A => doing(Action::Enter),
        0x08 | 0x7F => doing(Action::Erase),
        0x1B => awaiting(Mode::Escape),
        0x00..=0x1F => doing(Action::Nothing),
        _ => doing(Action::Insert(byte)),
    }
}

// What ESC `[` begins.
fn begun(profile: Profile) -> Mode
    ensures { result ≡ begun profile }
{
    match profile {
        Profile::Rust => Mode::Sequence,
        Profile::Ecma48 => Mode::Control(unread()),
    }
}

// The byte after ESC: `[` begins a sequence, and any other byte is swallowed.
#[tactic(auto, unfolding(crate::specs::Keys::escaped))]
fn escaped(profile: Profile, byte: u8) -> Meaning
    ensures { result ≡ escaped profile byte }
{
    match byte {
        0x5B => awaiting(begun(profile)),
        _ => doing(Action::Nothing),
    }
}

// A byte of a control sequence that is not its final one: waited on, or the last that is read of it.
#[tactic(auto, unfolding(crate::specs::Keys::awaiting_more, crate::specs::Modes::longest))]
fn awaiting_more(progress: Progress, byte: u8) -> Meaning
    ensures { result ≡ awaiting_more progress byte }
{
    if LONGEST <= progress.read {
        return doing(Action::Nothing);
    }
    awaiting(Mode::Control(further(progress, byte)))
}

// The next byte of a control sequence: a final one acts, and a byte that cannot be in one ends it too.
#[tactic(auto, unfolding(crate::specs::Keys::controlled, crate::specs::Control::between))]
fn controlled(progress: Progress, byte: u8) -> Meaning
    ensures { result ≡ controlled progress byte }
{
    match byte {
        0x20..=0x3F => awaiting_more(progress, byte),
        0x40..=0x7E => doing(ended(progress.parameter, byte)),
        _ => doing(Action::Nothing),
    }
}

// What a byte means in a profile and a mode. After the original's ESC `[` one byte is read, an arrow or swallowed.
#[tactic(auto, unfolding(crate::specs::Keys::sequenced))]
pub fn meaning_of(profile: Profile, mode: Mode, byte: u8) -> Meaning
    ensures { result ≡ meaning profile mode byte }
{
    match mode {
        Mode::Typing => typed(byte),
        Mode::Escape => escaped(profile, byte),
        Mode::Sequence => doing(arrow_of(byte)),
        Mode::Control(progress) => controlled(progress, byte),
    }
}
