// The ordered map of keys and values: a sorted table of places in the split words and in the tree image, both lent.
#![tactic(auto)]

mod packing;
mod sorted;

pub use packing::{Source, Span, entry, key, value};
pub use sorted::{Table, put};
