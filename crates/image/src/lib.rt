// One frame of a tree image: read by its lengths, and by all the rules for a frame by itself.
#![tactic(auto)]

mod head;
mod limits;

pub use head::{Head, Lengths, head_at, head_of};
pub use limits::frame_at;
