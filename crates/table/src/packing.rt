// An entry of a table: one number, in which the places of a key and of its value are packed.
ghost use Rattle.std.specs.Prelude.{◌≡◌, ◌<◌};
ghost use Rattle.table.specs.Inner.{bit_of, packed, key_of, value_of};

use buffer::part;

// Where a text lies in its slice.
#[derive(Clone, Copy)]
pub struct Span {
    pub start: usize,
    pub length: usize,
}

// What a key lies in: the split words for a long form, the tree image for a short one.
#[derive(Clone, Copy)]
pub enum Source {
    Words,
    Image,
}

// The entry of a key and of its value, which lies in the words.
pub fn entry(source: Source, key: Span, value: Span) -> usize
    requires { (key.start < 0x10000) × (key.length < 0x10000) × (value.start < 0x2000) × (value.length < 0x2000) }
    ensures { result ≡ packed (bit_of source) key.start key.length value.start value.length }
{
    let place = source as usize * 0x10000 + key.start;
    let whole = place * 0x10000 + key.length;
    (whole * 0x2000 + value.start) * 0x2000 + value.length
}

// The key of an entry, lent back from the words or from the image.
pub fn key<'a>(words: &'a [u8], image: &'a [u8], e: usize) -> &'a [u8]
    ensures { result.now ≡ key_of words.now image.now e }
{
    let place = e / 0x2000 / 0x2000;
    let length = place % 0x10000;
    let start = place / 0x10000 % 0x10000;
    if place / 0x10000 / 0x10000 == 0 {
        part(words, start, length)
    } else {
        part(image, start, length)
    }
}

// The value of an entry, lent back from the words.
pub fn value<'a>(words: &'a [u8], e: usize) -> &'a [u8]
    ensures { result.now ≡ value_of words.now e }
{
    part(words, e / 0x2000 % 0x2000, e % 0x2000)
}
