// Trees among the lines of an input: a line that begins with `=` is an image, under which the lines after it are answered.
use super::hex::read_hex;
use super::input::each_line;
use super::line::Line;
use std::fmt::Write;
use std::io::{Input, Print};

// Reads a tree from its digits, writes its length, and returns it.
fn read_tree(rt: &impl Print, digits: &[u8], image: &mut [u8]) -> usize {
    let n = read_hex(digits, image);
    let mut line = Line::<64>::new();
    let put = write!(line, "tree of {n}");
    line.print(rt, put);
    n
}

// Takes a line: a tree is read, and any other handed on after the tree of the first n bytes. Returns the length of the tree from here on.
fn take_line<R: Print, F: Fn(&[u8], &[u8])>(
    rt: &R,
    line: &[u8],
    image: &mut [u8],
    n: usize,
    visit: &F,
) -> usize
    requires pre { (f : _) (image : _) (line : _) → F.pre f image line }
{
    if let Some(digits) = line.strip_prefix(b"=") {
        return read_tree(rt, digits, image);
    }
    visit(&image[..n.min(image.len())], line);
    n
}

// Hands on each line of standard input that is no tree, after the last tree before it; before the first that is empty. A tree has at most 8,192 bytes.
pub fn each_line_under_a_tree<R: Input + Print, F: Fn(&[u8], &[u8])>(rt: &R, visit: F)
    requires pre { (f : _) (image : _) (line : _) → F.pre f image line }
{
    let mut image = [0u8; 8192];
    let mut n = 0;
    each_line::<65536, _>(
        rt,
        |line|
            requires { (f : _) (x : _) (y : _) → F.pre f x y }
        {
            n = take_line(rt, line, &mut image, n, &visit);
        },
    );
}
