// Up and Down through history, Right and Left along the line.
ghost use Rattle.std.specs.Prelude.{◌≤◌, ◌≡◌, true, length};
ghost use Rattle.history.specs.Journal.{journal_of};
ghost use Rattle.editor.specs.Line.{good_line};
ghost use Rattle.editor.specs.Turns.{up, down, right, left};
ghost use Rattle.editor.specs.Answer.{state_of, good_state};
ghost use Rattle.editor.specs.Inner.{Acts, ActsFor, Recalls};

use super::drawing::{KeyAnswer, Pressed, redraw, show_arrow};
use super::line::Editor;
use history::{History, Step};

impl Editor {
    // The entry that a step through history recalls becomes the line; where it recalls nothing the line is empty.
    fn stepped(
        self,
        history: History,
        step: Step,
        slots: &[u8],
        prompt: &[u8],
        screen: &mut [u8],
    ) -> KeyAnswer
        requires { (good_state self history slots.now ≡ true) × (length prompt.now ≤ 128) }
        ensures { Recalls self history step (journal_of history slots.now) prompt.now screen.old result screen.new }
    {
        let goes = match step.recalled {
            Some(number) => self.recalled(history.recall(slots, number)),
            None => self.emptied(),
        };
        redraw(self, history, goes, step.history, prompt, screen)
    }

    // Up: a step back through history.
    pub(crate) fn up(
        self,
        history: History,
        slots: &[u8],
        prompt: &[u8],
        screen: &mut [u8],
    ) -> KeyAnswer
        requires { (good_state self history slots.now ≡ true) × (length prompt.now ≤ 128) }
        ensures { Acts self history (up prompt.now (state_of self history slots.now)) screen.old result screen.new }
    {
        let step = history.previous();
        if let None = step.recalled {
            return self.answers(history, Ok(Pressed::Shown(0)));
        }
        self.stepped(history, step, slots, prompt, screen)
    }

    // Down: a step on through history, and to an empty line after the newest entry.
    pub(crate) fn down(
        self,
        history: History,
        slots: &[u8],
        prompt: &[u8],
        screen: &mut [u8],
    ) -> KeyAnswer
        requires { (good_state self history slots.now ≡ true) × (length prompt.now ≤ 128) }
        ensures { Acts self history (down prompt.now (state_of self history slots.now)) screen.old result screen.new }
    {
        self.stepped(history, history.next(), slots, prompt, screen)
    }

    // Right: the cursor goes on by a byte, unless it stands at the end. It differs from Left in a test, a step and a byte: one function
    // over these three would be no plainer.
    pub(crate) fn right(mut self, history: History, screen: &mut [u8]) -> KeyAnswer
        requires { good_line self ≡ true }
        ensures { ActsFor (λ slots. right (state_of self history slots)) self history screen.old result screen.new }
    {
        if self.length <= self.cursor {
            return self.answers(history, Ok(Pressed::Shown(0)));
        }
        let before = self;
        self = self.moved(self.cursor + 1);
        show_arrow(before, self, history, 0x43, screen)
    }

    // Left: the cursor goes back by a byte, unless it stands at the beginning.
    pub(crate) fn left(mut self, history: History, screen: &mut [u8]) -> KeyAnswer
        requires { good_line self ≡ true }
        ensures { ActsFor (λ slots. left (state_of self history slots)) self history screen.old result screen.new }
    {
        if self.cursor == 0 {
            return self.answers(history, Ok(Pressed::Shown(0)));
        }
        let before = self;
        self = self.moved(self.cursor - 1);
        show_arrow(before, self, history, 0x44, screen)
    }
}
