// A walk over an image, frame by frame: what the frames before tell, and whether the next may follow them.
ghost use Rattle.std.specs.Prelude.{◌≡◌, List, ℕ, ◌+◌, ◌≤◌, ◌<◌, length, drop};
ghost use Rattle.image.specs.Reading.{read_first};
ghost use Rattle.tree.specs.Rules.{rises, image_limit};
ghost use Rattle.tree.specs.Steps.{Sound, name_at, seen_by, start_walk, after_node, step_by};
ghost use Rattle.tree.specs.Inner.{one_more, NodeStepped, OptionStepped, FlagStepped};

use buffer::{byte_at, compare, part, rest};
use image::{Head, frame_at};

// Where a walk stands: its place; for each depth the place of the last name there, of which the first `deep` count; how many nodes
// there were, and how many options and flags of the last one. Fixed memory, as an image has at most eight depths.
#[derive(Clone, Copy)]
pub struct Walk {
    pub at: usize,
    pub names: [u16; 8],
    pub deep: usize,
    pub nodes: usize,
    pub options: usize,
    pub flags: usize,
}

impl Walk {
    // Nothing is passed.
    pub fn start() -> Walk
        ensures { result ≡ start_walk }
    {
        Walk {
            at: 0,
            names: [0; 8],
            deep: 0,
            nodes: 0,
            options: 0,
            flags: 0,
        }
    }

    // A node of that depth is passed, and is the last at its depth; its name begins four bytes on.
    #[tactic(auto, unfolding(crate::specs::Steps::after_node))]
    fn after_node(mut self, depth: usize, size: usize) -> Walk
        requires { (depth ≤ 7) × (4 ≤ size) × (self.at + size ≤ image_limit) × (self.nodes < 256) }
        ensures { result ≡ after_node self depth size }
    {
        self.names[depth] = (self.at + 4) as u16;
        self.deep = depth + 1;
        self.nodes += 1;
        self.options = 0;
        self.flags = 0;
        self.at += size;
        self
    }
}

// The text after the length byte at a place.
pub fn name_at(image: &[u8], place: usize) -> &[u8]
    ensures { result.now ≡ name_at image.now place }
{
    let tail = rest(image, place);
    part(tail, 1, byte_at(tail, 0))
}

// Whether a node of that depth and name comes after its sibling before, if there is one.
fn rises_at(image: &[u8], walk: Walk, depth: usize, name: &[u8]) -> bool
    requires { (depth ≤ 7) × Sound walk }
    ensures { result ≡ rises (seen_by image.now walk).path depth name.now }
{
    if walk.deep <= depth {
        return true;
    }
    let before = walk.names[depth] as usize;
    compare(name_at(image, before), name).is_lt()
}

fn node_step(image: &[u8], walk: Walk, depth: usize, name: &[u8], size: usize) -> Option<Walk>
    requires { (depth ≤ 7) × Sound walk × (4 ≤ size) × (walk.at + size ≤ image_limit) }
    ensures { NodeStepped image.now walk depth name.now size result }
{
    if walk.deep < depth {
        return None;
    }
    if 256 <= walk.nodes {
        return None;
    }
    if !rises_at(image, walk, depth, name) {
        return None;
    }
    Some(walk.after_node(depth, size))
}

// So many options, or flags, of the last node and one more, if there is a node and it may have that many.
fn one_more(walk: Walk, listed: usize) -> Option<usize>
    ensures { result ≡ one_more walk listed }
{
    if walk.deep == 0 || 32 <= listed {
        return None;
    }
    Some(listed + 1)
}

// Options and flags differ in the field that counts them; `one_more` is what they share.
fn option_step(walk: Walk, size: usize) -> Option<Walk>
    requires { Sound walk × (walk.at + size ≤ image_limit) }
    ensures { (image : List ℕ) → OptionStepped image walk size result }
{
    let options = one_more(walk, walk.options)?;
    Some(Walk {
        at: walk.at + size,
        options,
        ..walk
    })
}

fn flag_step(walk: Walk, size: usize) -> Option<Walk>
    requires { Sound walk × (walk.at + size ≤ image_limit) }
    ensures { (image : List ℕ) → FlagStepped image walk size result }
{
    let flags = one_more(walk, walk.flags)?;
    Some(Walk {
        at: walk.at + size,
        flags,
        ..walk
    })
}

// The walk after the first of the frames that come next, if that may follow; the image needs to hold only the names before it.
pub fn step_over(image: &[u8], walk: Walk, next: &[u8]) -> Option<Walk>
    requires { Sound walk × (walk.at + length next.now ≤ image_limit) }
    ensures { result ≡ step_by (seen_by image.now walk) walk (read_first next.now) }
{
    match frame_at(next, 0) {
        Head::Node { depth, texts, .. } => node_step(
            image,
            walk,
            depth,
            part(next, 5, texts.name),
            texts.size,
        ),
        Head::Option { texts, .. } => option_step(walk, texts.size),
        Head::Flag { texts, .. } => flag_step(walk, texts.size),
        _ => None,
    }
}

// The walk after the frame at its place, if that is one that may follow.
pub fn step_at(image: &[u8], walk: Walk) -> Option<Walk>
    requires { Sound walk × (length image.now ≤ image_limit) × (walk.at ≤ length image.now) }
    ensures { result ≡ step_by (seen_by image.now walk) walk (read_first (drop walk.at image.now)) }
{
    step_over(image, walk, rest(image, walk.at))
}
