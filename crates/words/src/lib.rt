// Words: a line split as the shell splits it, by white space, quotes and `\`, into frames of kind 14.
#![tactic(auto)]

mod counting;
mod role;
mod step;
mod tokenizer;

pub use step::ordinary_at;
pub use tokenizer::{TokenizeRefusal, tokenize};
