// The slots: storing an entry in one, copying one over another, clearing, and where each lies, round the end.
ghost use Rattle.std.specs.Prelude.{◌+◌, ◌-◌, ◌*◌, ◌<◌, ◌≤◌, ◌≡◌, length};
ghost use Rattle.buffer.specs.Write.{over_at};
ghost use Rattle.buffer.specs.Lend.{zeros};
ghost use Rattle.history.specs.Slots.{slot_size, slot_count, slots_size, slot_after, slot, slot_at};

use super::stepping::History;
use buffer::{push, push_byte};

// Writes zeros from a place up to another.
pub fn clear(out: &mut [u8], at: usize, end: usize)
    requires { (at ≤ end) × (end ≤ length out.old) }
    ensures { out.new ≡ over_at (zeros (end - at)) out.old at }
{
    out[at..end].fill(0);
}

// Writes a text into the slot at a place: its length, its bytes, and zeros after them.
pub fn store(text: &[u8], slots: &mut [u8], at: usize)
    requires { (length text.now ≤ 255) × (at + slot_size ≤ length slots.old) }
    ensures { slots.new ≡ over_at (slot text.now) slots.old at }
{
    let start = push_byte(text.len() as u8, slots, at);
    let end = push(text, slots, start);
    let next = at + History::SLOT;
    clear(slots, end, next);
}

// Copies a slot over another.
pub fn copy_slot(slots: &mut [u8], source: usize, target: usize)
    requires { (length slots.old ≡ slots_size) × (source < slot_count) × (target < slot_count) }
    ensures { slots.new ≡ over_at (slot_at source slots.old) slots.old (slot_size * target) }
{
    let start = History::SLOT * source;
    let end = start + History::SLOT;
    slots.copy_within(start..end, History::SLOT * target);
}

// Where the slot begins that lies so many after another, round the end.
pub fn place_of(slot: usize, after: usize) -> usize
    ensures { result ≡ slot_size * slot_after slot after }
{
    History::SLOT * slot_after(slot, after)
}

// The slot that lies so many after another, round the end.
pub fn slot_after(slot: usize, after: usize) -> usize
    ensures { result ≡ slot_after slot after }
{
    (slot % History::MOST + after % History::MOST) % History::MOST
}
