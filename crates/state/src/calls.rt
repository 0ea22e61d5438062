// The calls on a saved state: a fresh one, a key, a text added to its history, an entry of that forgotten.
ghost use Rattle.std.specs.Prelude.{◌≡◌, MatchResult};
ghost use Rattle.state.specs.Calls.{Misfit, Beginning, SavedKey, SavedAdd, SavedForget};

use super::saving::{SIZE, save, session_in};
use editor::{Editor, KeyRefusal, Pressed};
use history::{AddRefusal, ForgetRefusal, History, add_tested, forget_tested};
use keys::Profile;
use std::cmp::Ordering;

// Why no session begins.
#[derive(Clone, Copy)]
pub enum BeginRefusal {
    // A buffer is too short: the length needed.
    NoRoom(usize),
    // The profile is none, or a buffer is longer than a state's, or than the slots.
    BadState,
}

// Refuses a buffer that has not just the length that is needed.
fn misfit(length: usize, needed: usize) -> Result<(), BeginRefusal>
    ensures { MatchResult result (λ _. length ≡ needed) (Misfit length needed) }
{
    match length.cmp(&needed) {
        Ordering::Less => Err(BeginRefusal::NoRoom(needed)),
        Ordering::Equal => Ok(()),
        Ordering::Greater => Err(BeginRefusal::BadState),
    }
}

// A fresh session whose keys are read by the profile of that number: no line, no history.
pub fn begin(profile: u8, state: &mut [u8], slots: &mut [u8]) -> Result<(), BeginRefusal>
    ensures { Beginning profile state.old slots.old result state.new slots.new }
{
    let Ok(profile) = Profile::try_from(profile) else {
        return Err(BeginRefusal::BadState);
    };
    misfit(state.len(), SIZE)?;
    misfit(slots.len(), History::SLOTS)?;
    let history = History::fresh_in(slots);
    save(Editor::fresh(profile), history, state);
    Ok(())
}

// One key.
pub fn press(
    state: &mut [u8],
    slots: &mut [u8],
    prompt: &[u8],
    byte: u8,
    line: &mut [u8],
    screen: &mut [u8],
) -> Result<Pressed, KeyRefusal>
    ensures { SavedKey state.old slots.old prompt.now byte line.old screen.old result state.new slots.new line.new screen.new }
{
    let Some((editor, history)) = session_in(state, slots) else {
        return Err(KeyRefusal::BadState);
    };
    let pressed = editor.key_tested(history, slots, prompt, byte, line, screen);
    let told = pressed.answer;
    if told.is_ok() {
        save(pressed.editor, pressed.history, state);
    }
    told
}

// A text added to the history; the editor stays as it is.
pub fn add(state: &mut [u8], slots: &mut [u8], text: &[u8]) -> Result<(), AddRefusal>
    ensures { SavedAdd state.old slots.old text.now result state.new slots.new }
{
    let Some((editor, history)) = session_in(state, slots) else {
        return Err(AddRefusal::BadState);
    };
    let adding = add_tested(history, slots, text);
    let told = adding.answer;
    if let Ok(()) = told {
        save(editor, adding.history, state);
    }
    told
}

// An entry of the history forgotten, the oldest being 0; the editor stays as it is.
pub fn forget(state: &mut [u8], slots: &mut [u8], k: usize) -> Result<usize, ForgetRefusal>
    ensures { SavedForget state.old slots.old k result state.new slots.new }
{
    let Some((editor, history)) = session_in(state, slots) else {
        return Err(ForgetRefusal::BadState);
    };
    let forgetting = forget_tested(history, slots, k);
    let told = forgetting.answer;
    if let Ok(_) = told {
        save(editor, forgetting.history, state);
    }
    told
}
