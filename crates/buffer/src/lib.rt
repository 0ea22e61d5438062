// The ground under all writers and lookups: writing into lent buffers, comparing byte strings, the greatest byte of a part.
#![tactic(auto)]

mod lend;
mod maximum;
mod measuring;
mod order;
mod show;
mod write;

pub use lend::{Span, byte_at, octet_at, part, rest};
pub use maximum::greatest_byte;
pub use measuring::{put, put_byte};
pub use order::{compare, same, same_throughout};
pub use show::{TooShort, show_by};
pub use write::{copy, push, push_byte};
