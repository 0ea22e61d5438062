// Forgetting an entry of a history: it goes, with it the older of two equal entries that would come together, and later entries close up.
ghost use Rattle.std.specs.Prelude.{◌-◌, ◌<◌, ◌≤◌, ◌≡◌, true, length, take, drop};
ghost use Rattle.history.specs.Entries.{total};
ghost use Rattle.history.specs.Slots.{slot_count, slots_size, turned};
ghost use Rattle.history.specs.Journal.{journal_of, good};
ghost use Rattle.history.specs.Answer.{Holds};
ghost use Rattle.history.specs.Forgotten.{gone, Forgets};
ghost use Rattle.history.specs.Inner.{cut_from, closed_up, cleared};

use super::slots::{clear, copy_slot, place_of, slot_after};
use super::stepping::History;
use super::testing::is_good;
use buffer::same;

// What forgetting an entry answers.
#[derive(Clone, Copy)]
pub enum ForgetRefusal {
    // The state is bad.
    BadState,
    // There is no entry of that number: the number.
    NoEntry(usize),
}

#[derive(Clone, Copy)]
pub struct Forgetting {
    pub history: History,
    pub answer: Result<usize, ForgetRefusal>,
}

// How many entries go with entry k: itself, and the older of two equal ones that would come together without it.
fn how_many_go(history: History, slots: &[u8], k: usize) -> usize
    requires { (k < history.count) × (history.count ≤ slot_count) }
    ensures { result ≡ gone k (journal_of history slots.now).entries }
{
    let next = k + 1;
    if 0 < k
        && next < history.count
        && same(history.recall(slots, k - 1), history.recall(slots, next))
    {
        2
    } else {
        1
    }
}

// How many bytes the entries have together from one number up to another.
fn total_of(history: History, slots: &[u8], start: usize, end: usize) -> usize
    requires { (good history slots.now ≡ true) × (start ≤ end) × (end ≤ history.count) }
    ensures { result ≡ total (take (end - start) (drop start (journal_of history slots.now).entries)) }
{
    let mut sum = 0;
    for i in start..end {
        sum += history.recall(slots, i).len();
    }
    sum
}

// Moves the entries from number `end` up to the count down to number `start`.
fn close_up(slots: &mut [u8], first: usize, start: usize, end: usize, count: usize)
    requires { (length slots.old ≡ slots_size) × (first < slot_count) × (start ≤ end) × (end ≤ count) × (count ≤ slot_count) }
    ensures { turned first slots.new ≡ closed_up start end count (turned first slots.old) }
{
    let less = end - start;
    for source in end..count {
        let target = source - less;
        copy_slot(slots, slot_after(first, source), slot_after(first, target));
    }
}

// Writes zeros into the slots of entries, from one number up to another.
fn clear_slots(slots: &mut [u8], first: usize, start: usize, end: usize)
    requires { (length slots.old ≡ slots_size) × (first < slot_count) × (start ≤ end) × (end ≤ slot_count) }
    ensures { turned first slots.new ≡ cleared start end (turned first slots.old) }
{
    for i in start..end {
        let at = place_of(first, i);
        let next = at + History::SLOT;
        clear(slots, at, next);
    }
}

// Takes the entries out from one number up to another.
fn cut(history: History, slots: &mut [u8], start: usize, end: usize) -> History
    requires { (good history slots.old ≡ true) × (start ≤ end) × (end ≤ history.count) }
    ensures { Holds (cut_from start end (journal_of history slots.old)) result slots.new }
{
    let first = history.first;
    let count = history.count;
    let total = history.total - total_of(history, slots, start, end);
    let left = count - (end - start);
    close_up(slots, first, start, end, count);
    clear_slots(slots, first, left, count);
    History {
        count: left,
        place: left,
        total,
        ..history
    }
}

// Forgets an entry of a history that was tested and is good.
pub fn forget_tested(history: History, slots: &mut [u8], k: usize) -> Forgetting
    requires { good history slots.old ≡ true }
    ensures { Forgets history slots.old k result.history result.answer slots.new }
{
    if history.count <= k {
        return Forgetting {
            history,
            answer: Err(ForgetRefusal::NoEntry(k)),
        };
    }
    let gone = how_many_go(history, slots, k);
    let end = k + 1;
    let start = end - gone;
    Forgetting {
        history: cut(history, slots, start, end),
        answer: Ok(gone),
    }
}

// Forgets the entry of a number, the oldest being 0.
pub fn forget(history: History, slots: &mut [u8], k: usize) -> Forgetting
    ensures { Forgets history slots.old k result.history result.answer slots.new }
{
    if !is_good(history, slots) {
        return Forgetting {
            history,
            answer: Err(ForgetRefusal::BadState),
        };
    }
    forget_tested(history, slots, k)
}
