// `parse`: a line under a tree to the report of its command, or a numbered refusal.
#![tactic(auto)]

mod answer;
mod fault;
mod judging;
mod parser;
mod required;

pub use answer::ParseRefusal;
pub use fault::{dashes_of, number_of, text_of};
pub use judging::{Fault, Judged, judge};
pub use parser::parse;
