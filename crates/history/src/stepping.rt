// A history by value: how many entries it has, the place among them, the total of their lengths and the slot of the oldest; the steps that the arrow keys take, and the entry of a number.
ghost use Rattle.std.specs.Prelude.{length, ◌≡◌};
ghost use Rattle.history.specs.Slots.{slots_size};
ghost use Rattle.history.specs.Steps.{back, onward};
ghost use Rattle.history.specs.Journal.{no_entries, entry_of, record_of, journal_of};
ghost use Rattle.history.specs.Answer.{Emptied};

use super::slots::{clear, place_of};
use buffer::{byte_at, part};

#[derive(Clone, Copy)]
pub struct History {
    pub count: usize,
    pub place: usize,
    // The bytes in use: the lengths of all entries together.
    pub total: usize,
    // The slot of the oldest entry. The others lie in the slots that follow it, round the end.
    pub first: usize,
}

// A history after a step, and what it recalls.
#[derive(Clone, Copy)]
pub struct Step {
    pub history: History,
    pub recalled: Option<usize>,
}

impl History {
    // How many entries there are at most.
    pub const MOST: usize = 100;

    // How many bytes the slot of an entry has.
    pub const SLOT: usize = 256;

    // How many bytes all slots have.
    pub const SLOTS: usize = History::MOST * History::SLOT;

    // No entry.
    pub fn fresh() -> History
        ensures { result ≡ record_of no_entries }
    {
        History {
            count: 0,
            place: 0,
            total: 0,
            first: 0,
        }
    }

    // No entry, and slots that hold none, whatever they held.
    pub fn fresh_in(slots: &mut [u8]) -> History
        requires { length slots.old ≡ slots_size }
        ensures { Emptied result slots.new }
    {
        clear(slots, 0, History::SLOTS);
        History::fresh()
    }

    // Up: a step back to an older entry.
    pub fn previous(self) -> Step
        ensures { result ≡ back self }
    {
        if self.place == 0 {
            return Step {
                history: self,
                recalled: None,
            };
        }
        let place = self.place - 1;
        Step {
            history: History { place, ..self },
            recalled: Some(place),
        }
    }

    // Down: a step on to a newer entry, or to the line that is being typed.
    pub fn next(self) -> Step
        ensures { result ≡ onward self }
    {
        if self.count <= self.place {
            return Step {
                history: self,
                recalled: None,
            };
        }
        let place = self.place + 1;
        let recalled = if place < self.count {
            Some(place)
        } else {
            None
        };
        Step {
            history: History { place, ..self },
            recalled,
        }
    }

    // The text of an entry, as a part of the slots; empty where there is no entry of that number.
    pub fn recall(self, slots: &[u8], number: usize) -> &[u8]
        ensures { result.now ≡ entry_of (journal_of self slots.now) number }
    {
        if self.count <= number {
            return part(slots, 0, 0);
        }
        let at = place_of(self.first, number);
        part(slots, at + 1, byte_at(slots, at))
    }
}
