// A state as bytes: what the editor saves of itself, then what the history does.
ghost use Rattle.std.specs.Prelude.{◌≡◌, false, length, take, drop, MatchOption};
ghost use Rattle.history.specs.Saved.{restored as restored_history, Fits as HistoryFits};
ghost use Rattle.editor.specs.Saved.{saved_size as editor_size, restored as restored_editor, Fits as EditorFits};
ghost use Rattle.state.specs.State.{state_size, saved_of, good_saved, Read};

use buffer::{part, rest};
use editor::Editor;
use history::History;

// How many bytes a state has.
pub const SIZE: usize = Editor::SAVED + History::SAVED;

// The editor that the first bytes hold, if they are one.
fn editor_in(state: &[u8]) -> Option<Editor>
    ensures { result ≡ restored_editor (take editor_size state.now) }
{
    Editor::restored(part(state, 0, Editor::SAVED))
}

// The history that the bytes after the editor's hold, if they are one with these slots.
fn history_in(state: &[u8], slots: &[u8]) -> Option<History>
    ensures { result ≡ restored_history (drop editor_size state.now) slots.now }
{
    History::restored(rest(state, Editor::SAVED), slots)
}

// The editor and the history that a good state and its slots hold.
pub fn session_in(state: &[u8], slots: &[u8]) -> Option<(Editor, History)>
    ensures { MatchOption result (good_saved state.now slots.now ≡ false) (λ r. Read r.0 r.1 state.now slots.now) }
{
    let editor = editor_in(state)?;
    let history = history_in(state, slots)?;
    Some((editor, history))
}

// Writes editor and history over a state.
pub fn save(editor: Editor, history: History, state: &mut [u8])
    requires state_len { length state.old ≡ state_size }
    requires editor_fits { EditorFits editor × HistoryFits history }
    ensures { state.new ≡ saved_of editor history }
{
    let at = editor.save(state, 0);
    history.save(state, at);
}
