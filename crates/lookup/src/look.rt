// One frame of a search: whether it is what is sought, to be passed, or the end of the search.
ghost use Rattle.std.specs.Prelude.{◌≡◌, ℕ, ◌≤◌};
ghost use Rattle.image.specs.Reading.{Small, name_in, long_in, node_in, option_in, read_first};
ghost use Rattle.lookup.specs.Searches.{keyed, wanted, ended_by};
ghost use Rattle.lookup.specs.Inner.{hit_or, look_at, look_by};

use buffer::{part, same};
use image::{Head, Lengths, head_of};

// What is sought. The definitions `wanted` and `ended_by` go by it, so it is no closure.
#[derive(Clone, Copy)]
pub enum Sought {
    // The node of that depth whose name is the key.
    Node { depth: usize },
    // A node of that depth or less: the end of a subtree.
    Upper { depth: usize },
    // The option of the last node whose name or long is the key.
    OptionKeyed,
}

// What a frame is to a search: what it seeks, one to be passed with its size, or its end.
#[derive(Clone, Copy)]
pub enum Look {
    Hit,
    Pass(usize),
    Stop,
}

// Whether the definition at the front of s, whose name's length byte stands at p, has the key as its name or long.
pub fn is_keyed(s: &[u8], p: usize, texts: Lengths, key: &[u8]) -> bool
    requires { (p ≤ 3) × Small texts }
    ensures { result ≡ keyed key.now (name_in s.now p texts) (long_in s.now p texts) }
{
    if same(part(s, p + 1, texts.name), key) {
        return true;
    }
    match texts.other {
        Some(n) => same(part(s, p + 2 + texts.name, n), key),
        None => false,
    }
}

fn hit_or_pass(hit: bool, size: usize) -> Look
    ensures { result ≡ hit_or hit size }
{
    if hit { Look::Hit } else { Look::Pass(size) }
}

fn look_node(s: &[u8], depth: usize, texts: Lengths, sought: Sought, key: &[u8]) -> Look
    ensures { (handler : ℕ) → result ≡ look_at sought key.now (node_in s.now depth handler texts) texts.size }
{
    match sought {
        Sought::Node { depth: d } => {
            if depth != d {
                return Look::Pass(texts.size);
            }
            hit_or_pass(same(part(s, 5, texts.name), key), texts.size)
        }
        Sought::Upper { depth: d } => hit_or_pass(depth <= d, texts.size),
        Sought::OptionKeyed => Look::Stop,
    }
}

fn look_option(s: &[u8], texts: Lengths, sought: Sought, key: &[u8]) -> Look
    requires { Small texts }
    ensures { (required short : ℕ) → result ≡ look_at sought key.now (option_in s.now required short texts) texts.size }
{
    match sought {
        Sought::OptionKeyed => hit_or_pass(is_keyed(s, 3, texts, key), texts.size),
        _ => Look::Pass(texts.size),
    }
}

// The frame at the front of s, seen by a search.
pub fn look_first(s: &[u8], sought: Sought, key: &[u8]) -> Look
    ensures { result ≡ look_by (wanted sought key.now) (ended_by sought) (read_first s.now) }
{
    match head_of(s) {
        Head::Node { depth, texts, .. } => look_node(s, depth, texts, sought, key),
        Head::Option { texts, .. } => look_option(s, texts, sought, key),
        Head::Flag { texts, .. } => Look::Pass(texts.size),
        _ => Look::Stop,
    }
}
