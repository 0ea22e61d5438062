// The trees of the crate trees as house lines, one frame a line, held against the files of trees/, which lie in this crate's data.
ghost use Rattle.std.specs.Prelude.{◌≤◌, ◌≡◌, length, take};

use buffer::{part, same};
use image::{Head, head_at};
use replay::input::read_full;
use replay::line::{Bytes, Line};
use std::io::Print;
use std::rt::Files;
use std::{fmt, fs};

// The size of the frame at a place, 0 where there is none.
fn size_at(image: &[u8], at: usize) -> usize {
    match head_at(image, at) {
        Head::Node { texts, .. } | Head::Option { texts, .. } | Head::Flag { texts, .. } => {
            texts.size
        }
        Head::Bad | Head::End => 0,
    }
}

// Puts the house lines of an image's frames.
fn put_lines<W: fmt::Write>(image: &[u8], lines: &mut W) -> fmt::Result {
    let mut at = 0;
    while at < image.len() {
        let frame = part(image, at, size_at(image, at));
        if frame.is_empty() {
            return Ok(());
        }
        write!(lines, "{}\n", Bytes(frame))?;
        at += frame.len();
    }
    Ok(())
}

// Whether a text is the house lines of an image.
fn holds(text: &[u8], image: &[u8]) -> bool {
    let mut lines = Line::<4096>::new();
    match put_lines(image, &mut lines) {
        Ok(()) => same(lines.text(), text),
        Err(_) => false,
    }
}

// Reads the file of that name into a buffer and returns its length, 0 if there is none.
fn read_file(rt: &impl Files, name: &str, file: &mut [u8]) -> usize
    ensures { (result ≤ length file.new) × (result ≡ length (take result file.new)) }
{
    match fs::open(rt, name) {
        Ok(mut opened) => read_full(&mut opened, file),
        Err(_) => 0,
    }
}

// Writes what is to be said of the file of that name and of an image.
fn compare_file(rt: &(impl Files + Print), name: &str, image: &[u8]) {
    let mut file = [0u8; 4096];
    let n = read_file(rt, name, &mut file);
    let length = image.len();
    let _ = if holds(&file[..n], image) {
        println!(rt; "{name} holds the tree of {length}")
    } else {
        println!(rt; "{name} differs from the tree of {length}")
    };
}

// Compares both files.
pub fn all(rt: &(impl Files + Print)) {
    compare_file(rt, "base.tree", &trees::base_tree());
    compare_file(rt, "fs.tree", &trees::fs_tree());
}
