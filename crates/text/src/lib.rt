// Text: UTF-8 as Unicode has it, White_Space, and a text taken apart at white space. Every call answers every input.
#![tactic(auto)]

mod apart;
mod formed;
mod space;
mod utf8;

pub use apart::{is_blank, next_word, trim};
pub use formed::is_well_formed;
pub use space::is_white_space;
pub use utf8::{Decoded, decode, letter_at, well_formed_prefix};
