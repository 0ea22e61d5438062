// What keys mean: a byte, by the profile and by what the keys before it began, to an action and to what is waited for after it.
#![tactic(auto)]

mod control;
mod meaning;
mod numbers;
mod standing;

pub use meaning::{Meaning, meaning_of};
pub use numbers::{NoProfile, mode_in, mode_number, mode_of, profile_of, progress_of};
pub use standing::{Action, Mode, Profile, Progress, is_good_mode};
