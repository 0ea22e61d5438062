// A session over house lines, one at a time: tree lines build the image, key lines press keys, and what is printed are house lines.
#![tactic(auto)]

mod pressing;
mod printing;
mod running;
mod standing;
mod taking;

pub use pressing::{KEY_ROOM, Pressing, press, refuse};
pub use running::{PrintRefusal, Printing};
pub use standing::Session;
pub use taking::{Taken, Took, take_line};
