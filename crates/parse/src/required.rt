// `validate_required_options`: the first required option whose name is no key.
ghost use Rattle.std.specs.Prelude.{◌≡◌};
ghost use Rattle.table.specs.Inner.{map_of};
ghost use Rattle.arguments.specs.Inner.{definitions_at};
ghost use Rattle.parse.specs.Commands.{lacking, missing_required};
ghost use Rattle.parse.specs.Inner.{required_by};

use buffer::part;
use image::{Head, head_at};
use table::{Span, Table};

// Whether an option of that name is missing.
fn is_missing<'a>(
    words: &'a [u8],
    node: &'a [u8],
    required: usize,
    name: &'a [u8],
    options: Table,
) -> bool
    ensures { result ≡ lacking required name.now (map_of words.now node.now options) }
{
    required == 1 && !options.has(words, node, name)
}

// Of the definitions from a place on, in their order. Where one is missing: the place of its name in the command's part of the image.
pub fn validate_required_options<'a>(
    words: &'a [u8],
    node: &'a [u8],
    from: usize,
    options: Table,
) -> Result<(), Span>
    ensures { required_by node.now result ≡ missing_required (definitions_at node.now from) (map_of words.now node.now options) }
{
    let mut at = from;
    while at < node.len() {
        match head_at(node, at) {
            Head::Option {
                required,
                short: _,
                texts,
            } => {
                let name = part(node, at + 4, texts.name);
                if is_missing(words, node, required, name, options) {
                    return Err(Span {
                        start: at + 4,
                        length: texts.name,
                    });
                }
                at += texts.size;
            }
            Head::Flag { short: _, texts } => at += texts.size,
            _ => return Ok(()),
        }
    }
    Ok(())
}
