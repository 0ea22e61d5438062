// Nodes: the subtree of a node by depth and name, as a part of the image that can be lent on.
ghost use Rattle.std.specs.Prelude.{◌≡◌};
ghost use Rattle.lookup.specs.Nodes.{subtree_end, find_node};

use super::look::Sought;
use super::seek::seek;
use buffer::Span;
use image::{Head, head_at};

// Where the subtree of a node of that depth at a place ends.
fn subtree_end(image: &[u8], start: usize, depth: usize) -> usize
    ensures { result ≡ subtree_end image.now start depth }
{
    let Head::Node { texts, .. } = head_at(image, start) else {
        return image.len();
    };
    let later = start + texts.size;
    let Some(end) = seek(image, later, Sought::Upper { depth }, &[]) else {
        return image.len();
    };
    end
}

// Where the subtree of the first node of that depth and name lies, from the node to its end: in an image a command, in a part a child of its node.
pub fn find_node(image: &[u8], depth: usize, name: &[u8]) -> Option<Span>
    ensures { result ≡ find_node image.now depth name.now }
{
    let start = seek(image, 0, Sought::Node { depth }, name)?;
    Some(Span {
        start,
        end: subtree_end(image, start, depth),
    })
}
