// The rows of the Rust's lists over frames: options, flags and subcommands of a node, and the commands of a tree.
#![tactic(auto)]

mod list;
mod row;

pub use list::{put_rows, put_titled};
pub use row::Listing;
