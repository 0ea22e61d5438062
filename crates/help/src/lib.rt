// Help: the texts of the Rust's help, that of one node and the list of all commands; and the words of a line followed through a tree to the node whose
// help is shown.
#![tactic(auto)]

mod call;
mod path;
mod show;
mod word;

pub use call::{HelpRefusal, help};
pub use path::follow;
pub use show::{show_available_commands, show_help};
