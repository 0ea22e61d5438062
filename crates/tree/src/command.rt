// Words followed down an image, while its frames are passed: where the command is that they name.
ghost use Rattle.std.specs.Prelude.{◌≡◌, ◌+◌, ◌<◌, length, drop, Some};
ghost use Rattle.frame.specs.Framed.{frame_first};
ghost use Rattle.tree.specs.Inner.{next_in, found_by, Ahead, start_trail, Passing, AtFrame, AtChild};

use super::walk::name_at;
use buffer::{byte_at, part, same};
use frame::{Framed, read_frame};

// A part of the image, and the place in the words after the path that leads to it.
#[derive(Clone, Copy)]
pub struct Place {
    pub start: usize,
    pub end: usize,
    pub at: usize,
}

// Where words have led so far, the depth of a child there, and the length of the next word, if there is one. The part ends with the image until a node comes that is not below;
// at depth 0 it is the whole image, and no word is passed.
#[derive(Clone, Copy)]
pub struct Trail {
    pub place: Place,
    pub depth: usize,
    pub next: Option<usize>,
}

// The length of the word at a place.
fn next_word(words: &[u8], at: usize) -> Option<usize>
    ensures { result ≡ next_in (frame_first (drop at words.now)) }
{
    match read_frame(words, at) {
        Framed::Frame { length, .. } => Some(length),
        Framed::Broken | Framed::End => None,
    }
}

impl Trail {
    // No frame is passed.
    pub fn start(words: &[u8], image: &[u8]) -> Trail
        ensures { result ≡ start_trail words.now image.now }
    {
        Trail {
            place: Place {
                start: 0,
                end: image.len(),
                at: 0,
            },
            depth: 0,
            next: next_word(words, 0),
        }
    }

    // Where the words have led, once all frames are passed.
    pub fn found(self) -> Option<Place>
        ensures { result ≡ found_by self }
    {
        if self.depth == 0 {
            return None;
        }
        Some(self.place)
    }

    // The child at a place of the image is passed, and a word of that length is next: the child is followed if that is its name. Names of one
    // list often begin alike, so lengths and last bytes are compared first.
    fn after_name(self, words: &[u8], image: &[u8], at: usize, bytes: usize) -> Trail
        requires at_frame { AtFrame words.now image.now at self }
        requires at_child { AtChild image.now at self }
        requires next_value { self.next ≡ Some bytes }
        ensures { Passing words.now image.now at self result × Ahead words.now result }
    {
        if byte_at(image, at + 4) != bytes {
            return self;
        }
        let name = self.place.at + 3;
        let beyond = name + bytes;
        if byte_at(image, at + 4 + bytes) != byte_at(words, beyond - 1) {
            return self;
        }
        if !same(name_at(image, at + 4), part(words, name, bytes)) {
            return self;
        }
        Trail {
            place: Place {
                start: at,
                end: image.len(),
                at: beyond,
            },
            depth: self.depth + 1,
            next: next_word(words, beyond),
        }
    }

    // The child at a place of the image is passed: if a word is next, it may be its name.
    fn after_child(self, words: &[u8], image: &[u8], at: usize) -> Trail
        requires at_frame { AtFrame words.now image.now at self }
        requires at_child { AtChild image.now at self }
        ensures { Passing words.now image.now at self result × Ahead words.now result }
    {
        match self.next {
            Some(length) => self.after_name(words, image, at, length),
            None => self,
        }
    }

    // The frame at a place of the image is passed.
    pub fn after(self, words: &[u8], image: &[u8], at: usize) -> Trail
        requires { AtFrame words.now image.now at self }
        ensures { Passing words.now image.now at self result × Ahead words.now result }
    {
        if image[at] != 0x01 {
            return self;
        }
        let depth = byte_at(image, at + 1);
        if self.depth < depth {
            return self;
        }
        if self.place.end < image.len() {
            return self;
        }
        if depth == self.depth {
            return self.after_child(words, image, at);
        }
        Trail {
            place: Place {
                end: at,
                ..self.place
            },
            ..self
        }
    }
}
