// Following words through a tree: the first names a node of depth 0, each further one a child of the node before.
ghost use Rattle.std.specs.Prelude.{◌≡◌, Ok};
ghost use Rattle.tree.specs.Rules.{check_tree};
ghost use Rattle.help.specs.Paths.{Follows};

use buffer::Span;
use lookup::find_node;
use text::next_word;

// Follows the words of a line, split on white space only: to the part of the image that holds the subtree of the last
// word's node, the whole image if there are no words, or to the part of the line that holds the first word which names no node.
pub fn follow(image: &[u8], line: &[u8]) -> Result<Span, Span>
    requires { check_tree image.now ≡ Ok tt }
    ensures { Follows image.now line.now result }
{
    let mut reached = Span {
        start: 0,
        end: image.len(),
    };
    let mut depth = 0;
    let mut place = 0;
    while let Some(word) = next_word(line, place) {
        let Some(node) = find_node(reached.of(image), depth, word.of(line)) else {
            return Err(word);
        };
        reached = Span {
            start: reached.start + node.start,
            end: reached.start + node.end,
        };
        depth += 1;
        place = word.end;
    }
    Ok(reached)
}
