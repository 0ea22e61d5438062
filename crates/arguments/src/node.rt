// What a scan reads: the words of a line, over the definitions of one node.
ghost use Rattle.std.specs.Prelude.{ℕ, ◌<◌, slice_index};
ghost use Rattle.arguments.specs.Inner.{Sizes};

// The definitions stand in the node's part of the image, from the place `from` on.
#[derive(Clone, Copy)]
pub struct Node<'a> {
    pub words: &'a [u8],
    pub image: &'a [u8],
    pub from: usize,
    ghost sizes: { Sizes words.now image.now },
    ghost words_bytes: { (i : ℕ) → slice_index words.now i < 256 },
    ghost image_bytes: { (i : ℕ) → slice_index image.now i < 256 },
}
