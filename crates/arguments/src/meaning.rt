// What a short means to a node, with the place of the name.
ghost use Rattle.std.specs.Prelude.{◌≡◌, ◌≤◌, length};
ghost use Rattle.tree.specs.Rules.{image_limit};
ghost use Rattle.lookup.specs.Definitions.{has_short};
ghost use Rattle.arguments.specs.Meanings.{meaning};
ghost use Rattle.arguments.specs.Inner.{definitions_at, means_of, NameSmall};

use image::{Head, head_at};
use lookup::{Defined, definition_by_short};
use table::Span;

// A flag or an option, with the place of its name in the image.
#[derive(Clone, Copy)]
pub enum Meaning {
    Flag(Span),
    Option(Span),
}

// What the character of that code means as a short, if anything, among the definitions from a place on.
pub fn meaning_by_short(image: &[u8], from: usize, code: usize) -> Option<Meaning>
    requires { length image.now ≤ image_limit }
    ensures { (means_of image.now result ≡ meaning (has_short code) (definitions_at image.now from)) × NameSmall result }
{
    let defined = definition_by_short(image, from, code)?;
    match defined {
        Defined::Flag(p) => {
            let Head::Flag { short: _, texts } = head_at(image, p) else {
                return None;
            };
            Some(Meaning::Flag(Span {
                start: p + 3,
                length: texts.name,
            }))
        }
        Defined::Option(p) => {
            let Head::Option {
                required: _,
                short: _,
                texts,
            } = head_at(image, p)
            else {
                return None;
            };
            Some(Meaning::Option(Span {
                start: p + 4,
                length: texts.name,
            }))
        }
    }
}
