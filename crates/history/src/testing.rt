// The state test. Every key runs it, so it goes over the bytes of a slot in passes without an early exit.
ghost use Rattle.std.specs.Prelude.{◌+◌, ◌*◌, ◌<◌, ◌≤◌, max, ◌≡◌, eqb, length, take, drop};
ghost use Rattle.buffer.specs.Compare.{same_bytes};
ghost use Rattle.buffer.specs.Greatest.{greatest};
ghost use Rattle.history.specs.Entries.{usable};
ghost use Rattle.history.specs.Slots.{slot_size, slot_count, slots_size, turned};
ghost use Rattle.history.specs.Journal.{good};
ghost use Rattle.history.specs.Inner.{good_slot, slot_before, next_place, tallied};

use super::stepping::History;
use buffer::{byte_at, greatest_byte, same_throughout};
use text::{is_blank, is_well_formed};

// Whether a text is well-formed and not blank, given its greatest byte: below 80 the text is ASCII, whose white space is 20 at most.
fn is_usable(text: &[u8], top: u8) -> bool
    requires { greatest text.now ≡ top }
    ensures { result ≡ usable text.now }
{
    if top < 0x80 {
        return 0x20 < top || !is_blank(text);
    }
    !is_blank(text) && is_well_formed(text)
}

// The greatest byte of the entry at a place, of which a short one is passed with the zeros that follow it: a pass over fewer than 32 bytes takes them one by one.
fn top_of(slots: &[u8], start: usize, size: usize) -> u8
    requires { (start + 255 ≤ length slots.now) × (size < slot_size) }
    ensures { result ≡ greatest (take (max size 32) (drop start slots.now)) }
{
    let end = start + size.max(32);
    greatest_byte(&slots[start..end])
}

// Whether the slot at a place holds a usable entry, with zeros after it.
fn is_good_slot(slots: &[u8], at: usize) -> bool
    requires { at + slot_size ≤ length slots.now }
    ensures { result ≡ good_slot (take slot_size (drop at slots.now)) }
{
    let start = at + 1;
    let size = byte_at(slots, at);
    let end = start + size;
    let next = at + History::SLOT;
    greatest_byte(&slots[end..next]) == 0
        && is_usable(&slots[start..end], top_of(slots, start, size))
}

// Whether the slot at a place, that of entry k, is the same as the one at the place before it; the oldest entry has none before it. Most differ in their first bytes.
fn is_repeated(slots: &[u8], k: usize, before: usize, at: usize) -> bool
    requires { (before + slot_size ≤ length slots.now) × (at + slot_size ≤ length slots.now) }
    ensures { result ≡ same_bytes (slot_before k (drop before slots.now)) (take slot_size (drop at slots.now)) }
{
    let head = before + 32;
    let block = at + 32;
    let end = before + History::SLOT;
    let next = at + History::SLOT;
    k != 0
        && same_throughout(&slots[before..head], &slots[at..block])
        && same_throughout(&slots[before..end], &slots[at..next])
}

// Whether all bytes of the slots that hold no entry are zeros: those after the newest entry, round the end up to the oldest.
fn is_rest_clear(slots: &[u8], first: usize, count: usize) -> bool
    requires { (length slots.now ≡ slots_size) × (first < slot_count) × (count ≤ slot_count) }
    ensures { result ≡ eqb (greatest (drop (slot_size * count) (turned first slots.now))) 0 }
{
    let oldest = History::SLOT * first;
    let end = first + count;
    if end < History::MOST {
        let after = History::SLOT * end;
        return greatest_byte(&slots[after..]) == 0 && greatest_byte(&slots[..oldest]) == 0;
    }
    let after = History::SLOT * (end - History::MOST);
    greatest_byte(&slots[after..oldest]) == 0
}

// The place after that of a slot: that of the next one, or of slot 0 after the last.
fn next_place(at: usize) -> usize
    requires { at < slots_size }
    ensures { result ≡ next_place at }
{
    let next = at + History::SLOT;
    if next < History::SLOTS { next } else { 0 }
}

// Whether so many slots from the first on, round the end, are good and no two neighbours the same, with zeros after them, and their entries have that total.
fn are_good(slots: &[u8], first: usize, count: usize, total: usize) -> bool
    requires { (length slots.now ≡ slots_size) × (first < slot_count) × (count ≤ slot_count) }
    ensures { result ≡ tallied count total (turned first slots.now) }
{
    let mut at = History::SLOT * first;
    let mut before = at;
    let mut sum = 0;
    for k in 0..count {
        if !is_good_slot(slots, at) || is_repeated(slots, k, before, at) {
            return false;
        }
        sum += byte_at(slots, at);
        before = at;
        at = next_place(at);
    }
    sum == total && is_rest_clear(slots, first, count)
}

// Whether a state is good.
pub fn is_good(history: History, slots: &[u8]) -> bool
    ensures { result ≡ good history slots.now }
{
    if slots.len() != History::SLOTS
        || History::MOST <= history.first
        || History::MOST < history.count
        || history.count < history.place
    {
        return false;
    }
    are_good(slots, history.first, history.count, history.total)
}
