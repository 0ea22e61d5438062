// The keys that only the profile of ECMA-48 has: Home and End put the cursor at a place, Delete takes out the byte at it.
ghost use Rattle.std.specs.Prelude.{◌≤◌, ◌≡◌, true, length};
ghost use Rattle.editor.specs.Line.{good_line};
ghost use Rattle.editor.specs.Turns.{go_to, delete};
ghost use Rattle.editor.specs.Answer.{state_of};
ghost use Rattle.editor.specs.Inner.{ActsFor};

use super::drawing::{KeyAnswer, Pressed, redraw};
use super::line::Editor;
use history::History;

impl Editor {
    // The cursor goes to a place of the line, unless it stands there.
    pub(crate) fn go_to(
        mut self,
        history: History,
        place: usize,
        prompt: &[u8],
        screen: &mut [u8],
    ) -> KeyAnswer
        requires { (good_line self ≡ true) × (length prompt.now ≤ 128) }
        ensures { ActsFor (λ slots. go_to prompt.now (state_of self history slots) place) self history screen.old result screen.new }
    {
        if self.cursor == place {
            return self.answers(history, Ok(Pressed::Shown(0)));
        }
        let before = self;
        self = self.moved(place);
        redraw(before, history, self, history, prompt, screen)
    }

    // The byte at the cursor goes, unless the cursor stands at the end: it is the one before the next place.
    pub(crate) fn delete_key(
        mut self,
        history: History,
        prompt: &[u8],
        screen: &mut [u8],
    ) -> KeyAnswer
        requires { (good_line self ≡ true) × (length prompt.now ≤ 128) }
        ensures { ActsFor (λ slots. delete prompt.now (state_of self history slots)) self history screen.old result screen.new }
    {
        let cursor = self.cursor;
        if self.length <= cursor {
            return self.answers(history, Ok(Pressed::Shown(0)));
        }
        let before = self;
        self = self.moved(cursor + 1).erase();
        redraw(before, history, self, history, prompt, screen)
    }
}
