// What passes between the layers as bytes: texts after their length, frames of one text, and house lines, each both ways.
#![tactic(auto)]

mod framed;
mod hex;
mod house;
mod limits;
mod prefixed;

pub use framed::{Framed, frame_size, read_frame, write_frame};
pub use hex::{hex_digit, unhex_into};
pub use house::{HouseRefusal, read_line, write_line};
pub use limits::{FRAMES_LIMIT, LINE_LIMIT, told_length};
pub use prefixed::{long_text_size, write_long_text};
