// `key`: the state is tested, then (`key_tested`) the prompt and the line buffer; then the byte is given its meaning, and that is done.
ghost use Rattle.std.specs.Prelude.{◌≤◌, ◌≡◌, true, length};
ghost use Rattle.editor.specs.Line.{limit};
ghost use Rattle.editor.specs.Answer.{good_state, good_prompt, Pressing};
ghost use Rattle.editor.specs.Inner.{DoesAction, DoesKey};

use super::drawing::{KeyAnswer, KeyRefusal, Pressed};
use super::line::Editor;
use history::{History, is_good};
use keys::{Action, meaning_of};
use text::well_formed_prefix;

// Whether the prompt is 0 to 128 bytes of UTF-8.
fn is_good_prompt(prompt: &[u8]) -> bool
    ensures { result ≡ good_prompt prompt.now }
{
    prompt.len() <= 128 && well_formed_prefix(prompt) == prompt.len()
}

impl Editor {
    // Whether editor and history are good.
    fn is_good_with(self, history: History, slots: &[u8]) -> bool
        ensures { result ≡ good_state self history slots.now }
    {
        self.is_good() && is_good(history, slots)
    }

    // What an action does, in a good state.
    fn act(
        self,
        action: Action,
        history: History,
        slots: &mut [u8],
        prompt: &[u8],
        line: &mut [u8],
        screen: &mut [u8],
    ) -> KeyAnswer
        requires slots_value { good_state self history slots.old ≡ true }
        requires prompt_len_bound { (length prompt.now ≤ 128) × (limit ≤ length line.old) }
        ensures { DoesAction action self history slots.old prompt.now line.old screen.old result slots.new line.new screen.new }
    {
        match action {
            Action::Nothing => self.answers(history, Ok(Pressed::Shown(0))),
            Action::Enter => self.enter(history, slots, line, screen),
            Action::Erase => self.erase_key(history, prompt, screen),
            Action::Insert(byte) => self.insert_key(history, prompt, byte, screen),
            Action::Up => self.up(history, slots, prompt, screen),
            Action::Down => self.down(history, slots, prompt, screen),
            Action::Right => self.right(history, screen),
            Action::Left => self.left(history, screen),
            Action::Home => self.go_to(history, 0, prompt, screen),
            Action::End => self.go_to(history, self.length, prompt, screen),
            Action::Delete => self.delete_key(history, prompt, screen),
        }
    }

    // One key, in a good state: what it means, then what that does. A refusal hands back the editor as it was, the mode too.
    fn press(
        mut self,
        history: History,
        slots: &mut [u8],
        prompt: &[u8],
        byte: u8,
        line: &mut [u8],
        screen: &mut [u8],
    ) -> KeyAnswer
        requires slots_value { good_state self history slots.old ≡ true }
        requires prompt_len_bound { (length prompt.now ≤ 128) × (limit ≤ length line.old) }
        ensures { DoesKey byte self history slots.old prompt.now line.old screen.old result slots.new line.new screen.new }
    {
        let meant = meaning_of(self.profile, self.mode, byte);
        let before = self;
        self = self.in_mode(meant.mode);
        let done = self.act(meant.action, history, slots, prompt, line, screen);
        if done.answer.is_err() {
            return before.answers(history, done.answer);
        }
        done
    }

    // One key, in a state that was tested and is good, with any buffers.
    pub fn key_tested(
        self,
        history: History,
        slots: &mut [u8],
        prompt: &[u8],
        byte: u8,
        line: &mut [u8],
        screen: &mut [u8],
    ) -> KeyAnswer
        requires { good_state self history slots.old ≡ true }
        ensures { Pressing self history slots.old prompt.now byte line.old screen.old result slots.new line.new screen.new }
    {
        if !is_good_prompt(prompt) {
            return self.answers(history, Err(KeyRefusal::BadPrompt(prompt.len())));
        }
        if line.len() < Editor::LIMIT {
            return self.answers(history, Err(KeyRefusal::NoRoom(Editor::LIMIT)));
        }
        self.press(history, slots, prompt, byte, line, screen)
    }

    // One key, in any state and with any buffers.
    pub fn key(
        self,
        history: History,
        slots: &mut [u8],
        prompt: &[u8],
        byte: u8,
        line: &mut [u8],
        screen: &mut [u8],
    ) -> KeyAnswer
        ensures { Pressing self history slots.old prompt.now byte line.old screen.old result slots.new line.new screen.new }
    {
        if !self.is_good_with(history, slots) {
            return self.answers(history, Err(KeyRefusal::BadState));
        }
        self.key_tested(history, slots, prompt, byte, line, screen)
    }
}
