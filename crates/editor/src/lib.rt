// The line editor: a line and a cursor by value, the keys that change them, and what they show. Each key takes the editor and hands it back.
#![tactic(auto)]

mod arrows;
mod drawing;
mod line;
mod placing;
mod pressing;
mod saving;
mod typing;

pub use drawing::{KeyAnswer, KeyRefusal, Pressed};
pub use line::Editor;
