// A node's definitions: an option by key, and one pass that finds a flag or an option by key or by short. The list ends at the next node of any depth.
ghost use Rattle.std.specs.Prelude.{◌≡◌, ◌≤◌, Some, None};
ghost use Rattle.image.specs.Reading.{Small, name_in, long_in, read_first};
ghost use Rattle.lookup.specs.Spots.{spot};
ghost use Rattle.lookup.specs.Searches.{wanted, ended_by};
ghost use Rattle.lookup.specs.Definitions.{has_key, has_short, short_is, flag_or, defined};
ghost use Rattle.lookup.specs.Inner.{match_by, asked_in, has_asked};
ghost use Rattle.lookup.specs.declared.look.Sought.TheVariants.{OptionKeyed};

use super::look::{Sought, is_keyed};
use super::seek::seek;
use buffer::rest;
use image::{Head, Lengths, head_of};

// A flag or an option that is defined: the place where its definition begins.
#[derive(Clone, Copy)]
pub enum Defined {
    Flag(usize),
    Option(usize),
}

// Which definition is asked for: by name or long, or by short.
#[derive(Clone, Copy)]
enum Asked<'a> {
    Key(&'a [u8]),
    Short(usize),
}

// What a frame is to the pass: a flag or an option that was asked for, one to be passed, or the end of the list.
#[derive(Clone, Copy)]
enum Match {
    FlagHit,
    OptionHit(usize),
    Pass(usize),
    Stop,
}

// A node's first option from a place on whose name or long is the key.
pub fn option_of(image: &[u8], from: usize, key: &[u8]) -> Option<usize>
    ensures { result ≡ spot (wanted OptionKeyed key.now) (ended_by OptionKeyed) image.now from }
{
    seek(image, from, Sought::OptionKeyed, key)
}

// A short that is typed is never 0, which stands for none.
fn is_short(short: usize, c: usize) -> bool
    ensures { result ≡ short_is short c }
{
    short != 0 && c == short
}

// Whether the definition at the front of s, whose name's length byte stands at p, is one that is asked for.
fn is_asked<'a>(s: &[u8], p: usize, short: usize, texts: Lengths, asked: Asked<'a>) -> bool
    requires { (p ≤ 3) × Small texts }
    ensures { result ≡ asked_in asked.entry short (name_in s.now p texts) (long_in s.now p texts) }
{
    match asked {
        Asked::Key(key) => is_keyed(s, p, texts, key),
        Asked::Short(code) => is_short(code, short),
    }
}

// The frame at the front of s, seen by the pass.
fn match_first<'a>(s: &[u8], asked: Asked<'a>) -> Match
    ensures { result ≡ match_by (has_asked asked.entry) (read_first s.now) }
{
    match head_of(s) {
        Head::Option { short, texts, .. } => {
            if is_asked(s, 3, short, texts, asked) {
                Match::OptionHit(texts.size)
            } else {
                Match::Pass(texts.size)
            }
        }
        Head::Flag { short, texts } => {
            if is_asked(s, 2, short, texts, asked) {
                Match::FlagHit
            } else {
                Match::Pass(texts.size)
            }
        }
        _ => Match::Stop,
    }
}

// No flag was found: the option, if there was one.
fn no_flag(option: Option<usize>) -> Option<Defined>
    ensures { result ≡ flag_or None option }
{
    option.map(Defined::Option)
}

// A node's flag or else its option, from a place on, that is asked for; the first definition wins.
fn definition<'a>(image: &[u8], from: usize, asked: Asked<'a>) -> Option<Defined>
    ensures { result ≡ defined (has_asked asked.entry) image.now from }
{
    let mut option = None;
    let mut at = from;
    while at < image.len() {
        match match_first(rest(image, at), asked) {
            Match::FlagHit => return Some(Defined::Flag(at)),
            Match::OptionHit(size) => {
                option = option.or(Some(at));
                at += size;
            }
            Match::Pass(size) => at += size,
            Match::Stop => return no_flag(option),
        }
    }
    no_flag(option)
}

// That definition by name or long.
pub fn definition_of(image: &[u8], from: usize, key: &[u8]) -> Option<Defined>
    ensures { result ≡ defined (has_key key.now) image.now from }
{
    definition(image, from, Asked::Key(key))
}

// The same by short.
pub fn definition_by_short(image: &[u8], from: usize, code: usize) -> Option<Defined>
    ensures { result ≡ defined (has_short code) image.now from }
{
    definition(image, from, Asked::Short(code))
}
