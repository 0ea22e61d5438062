// A session between two calls: its editor and history as bytes, and the calls that take such a state and leave the next.
#![tactic(auto)]

mod calls;
mod saving;

pub use calls::{BeginRefusal, add, begin, forget, press};
