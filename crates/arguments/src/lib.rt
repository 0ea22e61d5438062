// `parse_args`: the argument words of a line over the definitions of one node.
#![tactic(auto)]

mod form;
mod meaning;
mod node;
mod reading;
mod standing;

pub use reading::parse_args;
pub use standing::{FaultText, Progress, Scan};
