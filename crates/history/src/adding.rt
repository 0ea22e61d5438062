// Adding to a history: a text that is not blank and differs from the newest entry stands after it; when full, the oldest goes.
ghost use Rattle.std.specs.Prelude.{◌≤◌, ◌≡◌, true, length};
ghost use Rattle.text.specs.Decoding.{well_formed};
ghost use Rattle.history.specs.Entries.{is_new};
ghost use Rattle.history.specs.Journal.{journal_of, good};
ghost use Rattle.history.specs.Answer.{Offered, Addition};

use super::slots::{place_of, slot_after, store};
use super::stepping::History;
use super::testing::is_good;
use buffer::{byte_at, same};
use text::{is_blank, well_formed_prefix};

// Why a text is not offered to a history.
#[derive(Clone, Copy)]
pub enum AddRefusal {
    // The state is bad.
    BadState,
    // The text has over 255 bytes: its length.
    TooLong(usize),
    // The text is ill-formed: the length of its longest well-formed prefix.
    IllFormed(usize),
}

#[derive(Clone, Copy)]
pub struct Adding {
    pub history: History,
    pub answer: Result<(), AddRefusal>,
}

// Whether a text is added: it is not blank and differs from the newest entry.
fn is_new(history: History, slots: &[u8], text: &[u8]) -> bool
    ensures { result ≡ is_new text.now (journal_of history slots.now).entries }
{
    !is_blank(text) && (history.count == 0 || !same(history.recall(slots, history.count - 1), text))
}

// Offers a well-formed text of at most 255 bytes to a good state.
pub fn offer(history: History, slots: &mut [u8], text: &[u8]) -> History
    requires slots_value { good history slots.old ≡ true }
    requires text_len_bound { length text.now ≤ 255 }
    requires text_value { well_formed text.now ≡ true }
    ensures { Offered history slots.old text.now result slots.new }
{
    let count = history.count;
    let first = history.first;
    let grown = history.total + text.len();
    if !is_new(history, slots, text) {
        return History {
            place: count,
            ..history
        };
    }
    // The slot after the newest entry: an unused one, of length 0, or in a full history that of the oldest.
    let at = place_of(first, count);
    let total = grown - byte_at(slots, at);
    store(text, slots, at);
    if count < History::MOST {
        let more = count + 1;
        return History {
            count: more,
            place: more,
            total,
            ..history
        };
    }
    History {
        place: count,
        total,
        first: slot_after(first, 1),
        ..history
    }
}

// Adds a text to a history that was tested and is good.
pub fn add_tested(history: History, slots: &mut [u8], text: &[u8]) -> Adding
    requires { good history slots.old ≡ true }
    ensures { Addition history slots.old text.now result.history result.answer slots.new }
{
    if 255 < text.len() {
        return Adding {
            history,
            answer: Err(AddRefusal::TooLong(text.len())),
        };
    }
    let prefix = well_formed_prefix(text);
    if prefix != text.len() {
        return Adding {
            history,
            answer: Err(AddRefusal::IllFormed(prefix)),
        };
    }
    Adding {
        history: offer(history, slots, text),
        answer: Ok(()),
    }
}

// Adds a text to a history, as the Rust does: every add sets the place to the count.
pub fn add_command(history: History, slots: &mut [u8], text: &[u8]) -> Adding
    ensures { Addition history slots.old text.now result.history result.answer slots.new }
{
    if !is_good(history, slots) {
        return Adding {
            history,
            answer: Err(AddRefusal::BadState),
        };
    }
    add_tested(history, slots, text)
}
