// The shell: a line is run under a tree, and answered by nothing, a text, the end, or a handler with the report for it.
#![tactic(auto)]

mod answer;
mod builtin;
mod fault;
mod handler;
mod runner;

pub use answer::{Ran, RunRefusal};
pub use runner::run;
