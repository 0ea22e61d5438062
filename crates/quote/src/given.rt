// The words that are given: frames of kind 14, of which each must hold a good word.
ghost use Rattle.std.specs.Prelude.{◌+◌, ◌≤◌, ◌≡◌, length, drop};
ghost use Rattle.quote.specs.Inner.{item_of, item_first};

use super::word::{is_plain, quoted_size};
use frame::{Framed, read_frame};
use text::well_formed_prefix;

// A good word of that many bytes, after the three bytes of its frame's head, which takes `size` bytes when it is shown.
#[derive(Clone, Copy)]
pub struct Item {
    pub length: usize,
    pub size: usize,
}

// What a word is: good if it has some bytes and is well-formed. The pass that finds a word plain, as most are, finds it
// well-formed too.
fn item_of(word: &[u8]) -> Option<Item>
    requires { 3 + length word.now ≤ 0x8000000000000000 }
    ensures { result ≡ item_of (length word.now) word.now }
{
    let length = word.len();
    if length == 0 {
        return None;
    }
    if is_plain(word) {
        return Some(Item {
            length,
            size: length,
        });
    }
    if well_formed_prefix(word) < length {
        return None;
    }
    Some(Item {
        length,
        size: quoted_size(word),
    })
}

// The good word at the place `at`, if one stands there.
pub fn word_at(words: &[u8], at: usize) -> Option<Item>
    ensures { result ≡ item_first (drop at words.now) }
{
    let Framed::Frame { kind, length } = read_frame(words, at) else {
        return None;
    };
    if kind != 0x14 {
        return None;
    }
    let start = at + 3;
    let end = start + length;
    item_of(&words[start..end])
}
