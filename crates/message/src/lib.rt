// The messages of the Rust for a line that it refuses, for `exit` and for `clear`.
#![tactic(auto)]

mod debug;
mod error;
mod fixed;

pub use debug::show_unknown_help;
pub use error::{ParseError, show_message};
pub use fixed::{show_clear, show_goodbye, show_ill_formed};
