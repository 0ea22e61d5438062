// The keys of typing: Enter, erasing, a byte typed.
ghost use Rattle.std.specs.Prelude.{◌≤◌, ◌≡◌, true, length};
ghost use Rattle.editor.specs.Line.{limit, good_line};
ghost use Rattle.editor.specs.Turns.{erase, insert};
ghost use Rattle.editor.specs.Answer.{state_of, good_state};
ghost use Rattle.editor.specs.Inner.{ActsFor, DoesEnter};

use super::drawing::{KeyAnswer, KeyRefusal, Pressed, redraw, shown_part};
use super::line::Editor;
use buffer::{push, push_byte};
use history::{History, offer};

impl Editor {
    // The line is offered to history and submitted; an empty one touches nothing.
    pub(crate) fn enter(
        self,
        history: History,
        slots: &mut [u8],
        line: &mut [u8],
        screen: &mut [u8],
    ) -> KeyAnswer
        requires slots_value { good_state self history slots.old ≡ true }
        requires limit_in_bounds { limit ≤ length line.old }
        ensures { DoesEnter self history slots.old line.old screen.old result slots.new line.new screen.new }
    {
        if screen.len() == 0 {
            return self.answers(history, Err(KeyRefusal::NoRoom(1)));
        }
        push_byte(0x0A, screen, 0);
        let n = self.length;
        if n == 0 {
            return self.answers(history, Ok(Pressed::Entered(0)));
        }
        let typed = &self.line[..n];
        let offered = offer(history, slots, shown_part(typed));
        push(typed, line, 0);
        self.emptied().answers(offered, Ok(Pressed::Entered(n)))
    }

    // The byte before the cursor goes.
    pub(crate) fn erase_key(
        mut self,
        history: History,
        prompt: &[u8],
        screen: &mut [u8],
    ) -> KeyAnswer
        requires { (good_line self ≡ true) × (length prompt.now ≤ 128) }
        ensures { ActsFor (λ slots. erase prompt.now (state_of self history slots)) self history screen.old result screen.new }
    {
        if self.cursor == 0 {
            return self.answers(history, Ok(Pressed::Shown(0)));
        }
        let before = self;
        self = self.erase();
        redraw(before, history, self, history, prompt, screen)
    }

    // A byte comes; a full line drops it.
    pub(crate) fn insert_key(
        mut self,
        history: History,
        prompt: &[u8],
        byte: u8,
        screen: &mut [u8],
    ) -> KeyAnswer
        requires { (good_line self ≡ true) × (length prompt.now ≤ 128) }
        ensures { ActsFor (λ slots. insert prompt.now (state_of self history slots) byte) self history screen.old result screen.new }
    {
        if Editor::LIMIT <= self.length {
            return self.answers(history, Ok(Pressed::Dropped));
        }
        let before = self;
        self = self.insert(byte);
        redraw(before, history, self, history, prompt, screen)
    }
}
