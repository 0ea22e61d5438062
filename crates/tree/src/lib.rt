// The tree image as a whole: the test that it keeps all rules, on the way the command that words name, the walk by which it goes, and an image that
// grows by one frame at a time.
#![tactic(auto)]

mod check;
mod command;
mod growing;
mod walk;

pub use check::{BadFrame, IMAGE_LIMIT, check_tree, find_command};
pub use command::Place;
pub use growing::add_frame;
pub use walk::{Walk, step_over};
