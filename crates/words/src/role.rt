// What each character of a line does to the word that is being read.
ghost use Rattle.std.specs.Prelude.{◌≡◌};
ghost use Rattle.words.specs.Tokens.{role_of};

use text::is_white_space;

// A character is taken into the word, vanishes and has the next one taken as it stands, vanishes and opens or ends a
// quotation, or ends the word.
#[derive(Clone, Copy)]
pub enum Role {
    Take,
    Escape,
    Toggle,
    Gap,
}

// What a character does inside quotes or not, after `\` or not.
#[tactic(auto, unfolding(crate::specs::Tokens::role_of))]
pub fn role_of(quotes: bool, escaped: bool, code: u32) -> Role
    ensures { result ≡ role_of quotes escaped code }
{
    if escaped {
        return Role::Take;
    }
    if code == 0x5C {
        return Role::Escape;
    }
    if code == 0x22 {
        return Role::Toggle;
    }
    if quotes {
        return Role::Take;
    }
    if is_white_space(code) {
        return Role::Gap;
    }
    Role::Take
}
