// What a key may do, how keys are read, and what the keys before one began.
ghost use Rattle.std.specs.Prelude.{◌≡◌};
ghost use Rattle.keys.specs.Modes.{unread, single, good_progress, good_mode};

#[derive(Clone, Copy)]
pub enum Action {
    Nothing,
    Enter,
    // The byte before the cursor goes.
    Erase,
    // A byte comes at the cursor.
    Insert(u8),
    Up,
    Down,
    Right,
    Left,
    // The cursor goes to the beginning of the line.
    Home,
    // The cursor goes to its end.
    End,
    // The byte at the cursor goes.
    Delete,
}

// How the bytes after ESC are read, chosen for an editor at its fresh state.
#[derive(Clone, Copy)]
pub enum Profile {
    // As the original reads them.
    Rust,
    // As ECMA-48 has them.
    Ecma48,
}

// The bytes that are read after ESC `[` at most, before the final one.
pub const LONGEST: u8 = 15;

// The parameter of what is no single digit that counts.
pub const OTHER: u8 = 255;

// How far a control sequence is read.
#[derive(Clone, Copy)]
pub struct Progress {
    // The bytes after ESC `[`.
    pub read: u8,
    // As a saved state has it: 0 for none; 1, 3, 4, 7 or 8 if that digit is the one byte read; 255 for anything else.
    pub parameter: u8,
}

// Nothing of a control sequence is read.
pub fn unread() -> Progress
    ensures { result ≡ unread }
{
    Progress {
        read: 0,
        parameter: 0,
    }
}

// What the keys before this one began.
#[derive(Clone, Copy)]
pub enum Mode {
    Typing,
    // ESC has come.
    Escape,
    // ESC `[` has come, in the profile of the original.
    Sequence,
    // ESC `[` has come in the profile of ECMA-48, and so much after it.
    Control(Progress),
}

// Whether one byte makes this parameter.
#[tactic(auto, unfolding(crate::specs::Modes::single, crate::specs::Modes::other))]
fn is_single(parameter: u8) -> bool
    ensures { result ≡ single parameter }
{
    matches!(parameter, 1 | 3 | 4 | 7 | 8 | OTHER)
}

// Whether bytes after ESC `[` lead to this.
#[tactic(auto, unfolding(crate::specs::Modes::good_progress, crate::specs::Modes::longest, crate::specs::Modes::other))]
fn is_good_progress(progress: Progress) -> bool
    ensures { result ≡ good_progress progress }
{
    match progress.read {
        0 => progress.parameter == 0,
        1 => is_single(progress.parameter),
        2..=LONGEST => progress.parameter == OTHER,
        _ => false,
    }
}

// Whether bytes lead to this mode in this profile.
pub fn is_good_mode(profile: Profile, mode: Mode) -> bool
    ensures { result ≡ good_mode profile mode }
{
    match (mode, profile) {
        (Mode::Typing | Mode::Escape, _) => true,
        (Mode::Sequence, Profile::Rust) => true,
        (Mode::Control(progress), Profile::Ecma48) => is_good_progress(progress),
        (Mode::Sequence, Profile::Ecma48) | (Mode::Control(_), Profile::Rust) => false,
    }
}
