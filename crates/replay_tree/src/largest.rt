// Images about the longest that is taken, which are built here: 256 nodes of 128 bytes each are the longest.
use crate::answer::answer;
use buffer::part;
use replay::line::Line;
use std::fmt;
use std::io::Print;

// A node of depth 0 up to its name of two bytes, and what stands after the name: a description of 96 bytes and a usage of 23.
const BEFORE: &str = "\x01\x00\x00\x00\x02";

const AFTER: &str =
    "\x60Of two hundred fifty-six nodes, each of which has a frame of one hundred and twenty-eight bytes.\x17And a usage to fill it.";

// Puts the node with this number in hexadecimal as its name.
fn put_node<W: fmt::Write>(number: u8, image: &mut W) -> fmt::Result {
    image.write_str(BEFORE)?;
    write!(image, "{number:02x}")?;
    image.write_str(AFTER)
}

// Puts all nodes, of which the last has this number, and a byte more.
fn put_nodes<W: fmt::Write>(last: u8, image: &mut W) -> fmt::Result {
    for number in 0..255 {
        put_node(number, image)?;
    }
    put_node(last, image)?;
    image.write_str("\0")
}

// Answers the longest image, one byte more, one less, and the longest whose last node has the name of the one before.
pub fn all(rt: &impl Print) {
    let mut image = Line::<32769>::new();
    let _ = put_nodes(0xFF, &mut image);
    answer(rt, part(image.text(), 0, 32768));
    answer(rt, image.text());
    answer(rt, part(image.text(), 0, 32767));
    let mut repeated = Line::<32769>::new();
    let _ = put_nodes(0xFE, &mut repeated);
    answer(rt, part(repeated.text(), 0, 32768));
}
