// What is saved of an editor between two calls: the mode, the line's length, the cursor, the bytes of the line, the profile and how far a sequence is read;
// and an editor read back, where it is good.
ghost use Rattle.std.specs.Prelude.{◌+◌, ◌≤◌, ◌≡◌, length, get_or};
ghost use Rattle.buffer.specs.Write.{Pushed};
ghost use Rattle.keys.specs.Modes.{profile_of, mode_of};
ghost use Rattle.editor.specs.Saved.{saved_size, saved_of, progress_in, saved_in, restored, Fits};

use super::line::Editor;
use buffer::{byte_at, octet_at, part, push};
use keys::{Mode, Profile, Progress, mode_in, mode_number, progress_of};

// How far a sequence is read, in the bytes of an editor.
fn progress_in(bytes: &[u8]) -> Progress
    ensures { result ≡ progress_in bytes.now }
{
    Progress {
        read: octet_at(bytes, 259),
        parameter: octet_at(bytes, 260),
    }
}

impl Editor {
    // How many bytes are saved.
    pub const SAVED: usize = 261;

    // Writes the editor at a place and returns the place after it.
    pub fn save(self, out: &mut [u8], at: usize) -> usize
        requires { Fits self × (at + saved_size ≤ length out.old) }
        ensures { Pushed (saved_of self) out.old at result out.new }
    {
        let progress = progress_of(self.mode);
        let head = [mode_number(self.mode), self.length as u8, self.cursor as u8];
        let tail = [u8::from(self.profile), progress.read, progress.parameter];
        let next = push(&head, out, at);
        let last = push(&self.line, out, next);
        push(&tail, out, last)
    }

    // The editor in bytes of the right length, whose mode and profile were read.
    fn saved_in(bytes: &[u8], mode: Mode, profile: Profile) -> Editor
        requires size { length bytes.now ≡ saved_size }
        requires read { (mode ≡ mode_of (get_or bytes.now 0 0) (progress_in bytes.now)) × (profile ≡ profile_of (get_or bytes.now 258 0)) }
        ensures { result ≡ saved_in bytes.now }
    {
        let whole = Editor::fresh(profile).recalled(part(bytes, 3, Editor::LIMIT));
        Editor {
            length: byte_at(bytes, 1),
            cursor: byte_at(bytes, 2),
            mode,
            ..whole
        }
    }

    // The editor that bytes hold, if they have the length, the mode and the profile of one and it is good.
    pub fn restored(bytes: &[u8]) -> Option<Editor>
        ensures { result ≡ restored bytes.now }
    {
        if bytes.len() != Editor::SAVED {
            return None;
        }
        let profile = Profile::try_from(bytes[258]).ok()?;
        let mode = mode_in(bytes[0], progress_in(bytes))?;
        let editor = Editor::saved_in(bytes, mode, profile);
        if editor.is_good() { Some(editor) } else { None }
    }
}
