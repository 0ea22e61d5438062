// The bytes of a control sequence, one at a time: how far it is read, and what its final byte does.
ghost use Rattle.std.specs.Prelude.{◌<◌, ◌≡◌};
ghost use Rattle.keys.specs.Modes.{longest};
ghost use Rattle.keys.specs.Control.{arrow_of, letter, tilde, ended, digit, further};

use super::standing::{Action, OTHER, Progress};

// An arrow.
#[tactic(auto, unfolding(crate::specs::Control::arrow_of))]
pub fn arrow_of(byte: u8) -> Action
    ensures { result ≡ arrow_of byte }
{
    match byte {
        0x41 => Action::Up,
        0x42 => Action::Down,
        0x43 => Action::Right,
        0x44 => Action::Left,
        _ => Action::Nothing,
    }
}

// A letter that ends a sequence.
#[tactic(auto, unfolding(crate::specs::Control::letter))]
fn letter(byte: u8) -> Action
    ensures { result ≡ letter byte }
{
    match byte {
        0x48 => Action::Home,
        0x46 => Action::End,
        _ => arrow_of(byte),
    }
}

// A `~` that ends a sequence, by its parameter.
#[tactic(auto, unfolding(crate::specs::Control::tilde))]
fn tilde(parameter: u8) -> Action
    ensures { result ≡ tilde parameter }
{
    match parameter {
        1 | 7 => Action::Home,
        4 | 8 => Action::End,
        3 => Action::Delete,
        _ => Action::Nothing,
    }
}

// A final byte, by the parameter before it.
#[tactic(auto, unfolding(crate::specs::Control::ended))]
pub fn ended(parameter: u8, byte: u8) -> Action
    ensures { result ≡ ended parameter byte }
{
    if byte == 0x7E {
        return tilde(parameter);
    }
    if parameter <= 1 {
        return letter(byte);
    }
    Action::Nothing
}

// The parameter that a first byte makes: its number, if it is a digit that counts.
#[tactic(auto, unfolding(crate::specs::Control::digit, crate::specs::Modes::other))]
fn digit(byte: u8) -> u8
    ensures { result ≡ digit byte }
{
    match byte {
        0x31 => 1,
        0x33 => 3,
        0x34 => 4,
        0x37 => 7,
        0x38 => 8,
        _ => OTHER,
    }
}

// A byte more is read.
#[tactic(auto, unfolding(crate::specs::Control::further, crate::specs::Modes::other, crate::specs::Modes::longest))]
pub fn further(progress: Progress, byte: u8) -> Progress
    requires { progress.read < longest }
    ensures { result ≡ further progress byte }
{
    let read = progress.read;
    Progress {
        read: read + 1,
        parameter: if read == 0 { digit(byte) } else { OTHER },
    }
}
