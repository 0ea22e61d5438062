// The words that the program was started with: how keys are read.
ghost use Rattle.std.specs.Prelude.{◌≡◌};
ghost use Rattle.console.specs.Settings.{setting_of, choice_of};

use buffer::{part, same};
use keys::Profile;
use std::env::{Env, FillError};
use std::io::Print;

// What one word chooses; none where it is refused.
fn setting_of(word: &[u8]) -> Option<Profile>
    ensures { result ≡ setting_of word.now }
{
    if same(word, b"keys=rust") {
        return Some(Profile::Rust);
    }
    if same(word, b"keys=ecma-48") {
        return Some(Profile::Ecma48);
    }
    None
}

// What so many words choose, the program's own name among them, by the one after it; none where they are refused.
fn choice_of(count: usize, word: &[u8]) -> Option<Profile>
    ensures { result ≡ choice_of count word.now }
{
    match count {
        0..=1 => Some(Profile::Rust),
        2 => setting_of(word),
        _ => None,
    }
}

// Room for a word: one that is longer is read as an empty one.
const WORD_ROOM: usize = 32;

// Puts the word of that number at the front of a buffer and returns its length, 0 where there is none or it is longer than the buffer.
fn read_word(env: &impl Env, number: usize, word: &mut [u8]) -> usize {
    env.arg(number, word).unwrap_or(0)
}

// Whether there is a word of that number.
fn has_word(env: &impl Env, number: usize) -> bool {
    let mut word = [0u8; 1];
    !matches!(env.arg(number, &mut word), Err(FillError::NotPresent))
}

// How many words there are, the program's own name among them; as many as three and more are three.
fn word_count(env: &impl Env) -> usize {
    for number in 0..3 {
        if !has_word(env, number) {
            return number;
        }
    }
    3
}

// What the program's words choose. Words that are refused are told on standard error.
pub fn choose(rt: &HostRuntime) -> Option<Profile> {
    let mut word = [0u8; WORD_ROOM];
    let n = read_word(rt, 1, &mut word);
    let chosen = choice_of(word_count(rt), part(&word, 0, n));
    if chosen.is_none() {
        let stderr = rt.stderr();
        let _ = stderr.write_all(b"console: words: keys=rust or keys=ecma-48, once at most\n");
    }
    chosen
}
