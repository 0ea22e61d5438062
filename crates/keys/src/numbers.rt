// A profile, a mode and how far a sequence is read as numbers, for the bytes of a saved state.
ghost use Rattle.std.specs.Prelude.{◌≡◌};
ghost use Rattle.keys.specs.Modes.{profile_number, profile_of, profile_in, mode_number, progress_of, mode_of, mode_in};

use super::standing::{Mode, Profile, Progress, unread};

// The profile of a number; one that no profile has stands for the last.
#[tactic(auto, unfolding(crate::specs::Modes::profile_of))]
pub fn profile_of(number: u8) -> Profile
    ensures { result ≡ profile_of number }
{
    match number {
        0 => Profile::Rust,
        _ => Profile::Ecma48,
    }
}

// A number that no profile has.
#[derive(Clone, Copy)]
pub struct NoProfile {
    pub number: u8,
}

impl TryFrom<u8> for Profile {
    type Error = NoProfile;

    ghost try_from_gives = { λ number r. r ≡ profile_in number };

    #[tactic(auto, unfolding(crate::specs::Modes::is_profile))]
    fn try_from(number: u8) -> Result<Profile, NoProfile> {
        match number {
            0 | 1 => Ok(profile_of(number)),
            _ => Err(NoProfile { number }),
        }
    }
}

impl From<Profile> for u8 {
    ghost from_gives = { λ profile number. number ≡ profile_number profile };

    fn from(profile: Profile) -> u8 {
        match profile {
            Profile::Rust => 0,
            Profile::Ecma48 => 1,
        }
    }
}

// A mode is a number and what stands beside it (`progress_of`), so no `From` gives it.
pub fn mode_number(mode: Mode) -> u8
    ensures { result ≡ mode_number mode }
{
    match mode {
        Mode::Typing => 0,
        Mode::Escape => 1,
        Mode::Sequence => 2,
        Mode::Control(_) => 3,
    }
}

// How far a mode has read a control sequence: nothing of one outside it.
pub fn progress_of(mode: Mode) -> Progress
    ensures { result ≡ progress_of mode }
{
    match mode {
        Mode::Typing | Mode::Escape | Mode::Sequence => unread(),
        Mode::Control(progress) => progress,
    }
}

// The mode of a number and of what stands beside it; a number that no mode has stands for the last.
#[tactic(auto, unfolding(crate::specs::Modes::mode_of))]
pub fn mode_of(number: u8, progress: Progress) -> Mode
    ensures { result ≡ mode_of number progress }
{
    match number {
        0 => Mode::Typing,
        1 => Mode::Escape,
        2 => Mode::Sequence,
        _ => Mode::Control(progress),
    }
}

// The mode of a number, if one has it and what stands beside it belongs to that mode.
#[tactic(auto, unfolding(crate::specs::Modes::is_mode))]
pub fn mode_in(number: u8, progress: Progress) -> Option<Mode>
    ensures { result ≡ mode_in number progress }
{
    let unread = progress.read == 0 && progress.parameter == 0;
    match number {
        0..=2 if unread => Some(mode_of(number, progress)),
        3 => Some(mode_of(number, progress)),
        _ => None,
    }
}
