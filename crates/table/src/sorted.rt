// The sorted table: entries by the bytes of their keys, a key once.
ghost use Rattle.std.specs.Prelude.{◌≡◌, List, [], ◌∷◌, ℕ, ◌+◌, ◌≤◌, ◌<◌, length, take};
ghost use Rattle.table.specs.Map.{has};
ghost use Rattle.table.specs.Inner.{seek_from, opened, tabled, map_of, size_of, capacity, Fit, PutIn};

use super::packing::key;
use buffer::{compare, same};
use std::cmp::Ordering;
use std::mem::replace;

// How many keys have room: a node has at most 32 options, and 32 flags, each with a name and a long.
const CAPACITY: usize = 64;

// The entries stand in the order of their keys. Fixed memory: an array, and how many of its places count.
#[derive(Clone, Copy)]
pub struct Table {
    pub count: usize,
    pub at: [usize; CAPACITY],
}

impl Table {
    // A table without a key.
    pub fn empty() -> Self
        ensures { (words image : List ℕ) → map_of words image result ≡ [] }
    {
        Self {
            count: 0,
            at: [0usize; CAPACITY],
        }
    }

    // How many keys there are.
    pub fn size(self) -> usize
        ensures { (result ≡ size_of self) × (result ≤ capacity) }
    {
        self.count.min(CAPACITY)
    }

    // Whether the key is there.
    pub fn has<'a>(self, words: &'a [u8], image: &'a [u8], wanted: &'a [u8]) -> bool
        ensures { result ≡ has wanted.now (map_of words.now image.now self) }
    {
        let n = self.size();
        self.at[..n]
            .iter()
            .any(|e| same(wanted, key(words, image, *e)))
    }
}

// Where the key stands among the entries, or `Err` with where it would stand.
fn seek<'a>(
    words: &'a [u8],
    image: &'a [u8],
    entries: &[usize],
    wanted: &'a [u8],
) -> Result<usize, usize>
    ensures { result ≡ seek_from 0 wanted.now (map_of words.now image.now (tabled (length entries.now) entries.now)) }
{
    for (i, e) in entries.iter().enumerate() {
        match compare(wanted, key(words, image, *e)) {
            Ordering::Less => return Err(i),
            Ordering::Equal => return Ok(i),
            Ordering::Greater => {}
        }
    }
    Err(entries.len())
}

// The entry stored at the front, each of those there one place further, and the last one lost.
fn shift(entries: &mut [usize], e: usize)
    ensures { entries.new ≡ take (length entries.old) (e ∷ entries.old) }
{
    let mut moved = e;
    for x in entries.iter_mut() {
        moved = replace(x, moved);
    }
}

// The entry stored at a place of the first n, and those from there on one place further.
fn open_at(table: &mut [usize], n: usize, place: usize, e: usize)
    requires { (place ≤ n) × (n < length table.old) }
    ensures { (length table.new ≡ length table.old) × (take (n + 1) table.new ≡ opened place e (take n table.old)) }
{
    shift(&mut table[place..=n], e);
}

// BTreeMap::insert into a table that is lent, of which the first n entries count: the entry under its key, a later value in the place of an earlier one.
// Answers how many count then. A new key that finds the table full is not stored; the names and longs of one node always find room (law `put_fits`).
pub fn put<'a>(words: &'a [u8], image: &'a [u8], table: &mut [usize], n: usize, e: usize) -> usize
    requires { Fit n table.old }
    ensures { PutIn words.now image.now n e table.old result table.new }
{
    match seek(words, image, &table[..n], key(words, image, e)) {
        Ok(i) => {
            table[i] = e;
            n
        }
        Err(i) if n < CAPACITY => {
            open_at(table, n, i, e);
            n + 1
        }
        Err(_) => n,
    }
}
