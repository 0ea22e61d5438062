// Lookups in a tree image: the subtree of a node by name, and a node's options and flags.
#![tactic(auto)]

mod definition;
mod look;
mod node;
mod seek;

pub use definition::{Defined, definition_by_short, definition_of, option_of};
pub use node::find_node;
