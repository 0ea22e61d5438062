// What the crate tree answers for one image: a line with its length, then good, or bad and the number of a frame.
use std::io::Print;
use tree::{BadFrame, check_tree};

// Writes the answer for an image.
pub fn answer(rt: &impl Print, image: &[u8]) {
    let length = image.len();
    let _ = match check_tree(image) {
        Ok(()) => println!(rt; "{length} good"),
        Err(BadFrame { number }) => println!(rt; "{length} bad {number}"),
    };
}
