// Quote: words that come as frames of kind 14 written as the line that gives them back when it is split.
#![tactic(auto)]

mod given;
mod quoter;
mod word;

pub use quoter::{QuoteRefusal, quote};
