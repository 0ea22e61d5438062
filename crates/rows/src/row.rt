// One row of a list: what a frame gives in it, and where the list ends.
ghost use Rattle.std.specs.Prelude.{◌≡◌, List, ◌++◌, ℕ, ◌≤◌, ◌<◌};
ghost use Rattle.image.specs.Frames.{Perhaps, node};
ghost use Rattle.image.specs.Reading.{Small, note_in, node_in, option_in, flag_in, read_first};
ghost use Rattle.buffer.specs.Ascii.{ascii};
ghost use Rattle.buffer.specs.Inks.{Inked, Countable};
ghost use Rattle.rows.specs.Rows.{blanks, short_then, entry, node_row, row_of, ends_list};
ghost use Rattle.rows.specs.Inner.{label_in, ReadLengths, row_by, size_by};

use buffer::{part, put, put_byte};
use image::{Head, Lengths, head_of};

// What is listed. The definition `row_of` goes by it, so it is no closure.
#[derive(Clone, Copy)]
pub enum Listing {
    // The options of the last node.
    Options,
    // The flags of the last node.
    Flags,
    // The nodes of that depth.
    Subcommands { depth: usize },
    // The nodes of depth 0 and 1.
    Commands,
}

// The spaces after a text of `used` bytes, up to the width.
fn pad(used: usize, width: usize, out: &mut [u8], at: usize) -> usize
    requires { (width ≤ 20) × Countable (blanks width used) at }
    ensures { Inked (blanks width used) out.old at result out.new }
{
    if width <= used {
        return at;
    }
    let spaces = [0x20; 20];
    let n = width - used;
    put(&spaces[..n], out, at)
}

// The rest of an entry after a label of `used` bytes: its column, and the description.
fn put_note(used: usize, width: usize, note: &[u8], out: &mut [u8], at: usize) -> usize
    requires { (width ≤ 20) × Countable (blanks width used ++ ascii " " ++ note.now) at }
    ensures { Inked (blanks width used ++ ascii " " ++ note.now) out.old at result out.new }
{
    let gap = pad(used, width, out, at);
    let start = put(b" ", out, gap);
    put(note, out, start)
}

// `-s` and what stands after it; nothing if there is no short.
fn put_short(short: usize, tail: &[u8], out: &mut [u8], at: usize) -> usize
    requires { (short < 256) × Countable (short_then short tail.now) at }
    ensures { Inked (short_then short tail.now) out.old at result out.new }
{
    if short == 0 {
        return at;
    }
    let dash = put(b"-", out, at);
    let end = put_byte(short as u8, out, dash);
    put(tail, out, end)
}

// `-s, --long` as far as they are there, or the name; p is the place of the name's length byte.
fn put_label(s: &[u8], p: usize, short: usize, texts: Lengths, out: &mut [u8], at: usize) -> usize
    requires p_bound { (p ≤ 3) × Small texts × (short < 256) }
    requires countable { Countable (label_in s.now p short texts) at }
    ensures { Inked (label_in s.now p short texts) out.old at result out.new }
{
    if let Some(n) = texts.other {
        let comma = put_short(short, b", ", out, at);
        let long = put(b"--", out, comma);
        return put(part(s, p + 2 + texts.name, n), out, long);
    }
    if short == 0 {
        return put(part(s, p + 1, texts.name), out, at);
    }
    put_short(short, b"", out, at)
}

// The row of an option or a flag, without its end.
fn put_definition(
    s: &[u8],
    p: usize,
    short: usize,
    texts: Lengths,
    out: &mut [u8],
    at: usize,
) -> usize
    requires p_bound { (p ≤ 3) × ReadLengths p texts × (short < 256) }
    requires countable { Countable (entry (ascii "  ") 20 (label_in s.now p short texts) (note_in s.now p texts)) at }
    ensures { Inked (entry (ascii "  ") 20 (label_in s.now p short texts) (note_in s.now p texts)) out.old at result out.new }
{
    let label = put(b"  ", out, at);
    let end = put_label(s, p, short, texts, out, label);
    let note = part(s, texts.size - texts.description, texts.description);
    put_note(end - label, 20, note, out, end)
}

fn put_option(
    s: &[u8],
    required: usize,
    short: usize,
    texts: Lengths,
    out: &mut [u8],
    at: usize,
) -> usize
    requires { ReadLengths 3 texts × (short < 256) × Countable (row_of Listing.Options (option_in s.now required short texts)) at }
    ensures { Inked (row_of Listing.Options (option_in s.now required short texts)) out.old at result out.new }
{
    let note = put_definition(s, 3, short, texts, out, at);
    if required == 1 {
        return put(b" (required)\n", out, note);
    }
    put(b"\n", out, note)
}

fn put_flag(s: &[u8], short: usize, texts: Lengths, out: &mut [u8], at: usize) -> usize
    requires { ReadLengths 2 texts × (short < 256) × Countable (row_of Listing.Flags (flag_in s.now short texts)) at }
    ensures { Inked (row_of Listing.Flags (flag_in s.now short texts)) out.old at result out.new }
{
    let note = put_definition(s, 2, short, texts, out, at);
    put(b"\n", out, note)
}

// The row of a node whose name and description are these.
fn put_node(
    name: &[u8],
    note: &[u8],
    indent: &[u8],
    width: usize,
    out: &mut [u8],
    at: usize,
) -> usize
    requires { (width ≤ 20) × Countable (node_row indent.now width name.now note.now) at }
    ensures { Inked (node_row indent.now width name.now note.now) out.old at result out.new }
{
    let label = put(indent, out, at);
    let end = put(name, out, label);
    let beyond = put_note(name.len(), width, note, out, end);
    put(b"\n", out, beyond)
}

// What a node gives in each list.
fn node_row(
    s: &[u8],
    depth: usize,
    texts: Lengths,
    listing: Listing,
    out: &mut [u8],
    at: usize,
) -> usize
    requires { Small texts × ((handler : ℕ) → Countable (row_of listing (node_in s.now depth handler texts)) at) }
    ensures { (handler : ℕ) → Inked (row_of listing (node_in s.now depth handler texts)) out.old at result out.new }
{
    let name = part(s, 5, texts.name);
    let note = part(s, 6 + texts.name, texts.description);
    match listing {
        Listing::Subcommands { depth: d } => {
            if depth != d {
                return at;
            }
            put_node(name, note, b"  ", 20, out, at)
        }
        Listing::Commands => match depth {
            0 => put_node(name, note, b"  ", 15, out, at),
            1 => put_node(name, note, b"    ", 13, out, at),
            _ => at,
        },
        _ => at,
    }
}

// What the frame at the front of s gives in a list.
pub fn put_row(s: &[u8], listing: Listing, out: &mut [u8], at: usize) -> usize
    requires { Countable (row_by listing (read_first s.now)) at }
    ensures { Inked (row_by listing (read_first s.now)) out.old at result out.new }
{
    match head_of(s) {
        Head::Node { depth, texts, .. } => node_row(s, depth, texts, listing, out, at),
        Head::Option {
            required,
            short,
            texts,
        } => {
            let Listing::Options = listing else {
                return at;
            };
            put_option(s, required, short, texts, out, at)
        }
        Head::Flag { short, texts } => {
            let Listing::Flags = listing else {
                return at;
            };
            put_flag(s, short, texts, out, at)
        }
        _ => at,
    }
}

// Whether a node ends the list.
fn node_ends(listing: Listing) -> bool
    ensures { (d h : ℕ) (n ds : List ℕ) (u : Perhaps) → result ≡ ends_list listing (node d h n ds u) }
{
    matches!(listing, Listing::Options | Listing::Flags)
}

// The size of the frame at the front of s, unless the list ends there.
pub fn listed_size(s: &[u8], listing: Listing) -> Option<usize>
    ensures { result ≡ size_by listing (read_first s.now) }
{
    match head_of(s) {
        Head::Node { texts, .. } => {
            if node_ends(listing) {
                return None;
            }
            Some(texts.size)
        }
        Head::Option { texts, .. } | Head::Flag { texts, .. } => Some(texts.size),
        Head::Bad | Head::End => None,
    }
}
