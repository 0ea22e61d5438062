// From bytes in to bytes out, without a system call: bytes that come in pieces of any size are cut into lines and given to a session, and what it prints
// stands at the front of a lent buffer. A program has nothing to do but read, step and write.
#![tactic(auto)]

mod blank;
mod holding;
mod pressing;
mod standing;
mod stepping;
mod taking;

pub use blank::{blank_image, blank_line, blank_slots};
pub use standing::{Printout, Step, Stream};
pub use stepping::{finish, step};
