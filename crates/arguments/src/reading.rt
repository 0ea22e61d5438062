// `parse_args`: the argument words, left to right.
ghost use Rattle.std.specs.Prelude.{◌≡◌, ◌+◌, ◌≤◌, length, drop};
ghost use Rattle.text.specs.Unicode.{encode};
ghost use Rattle.table.specs.Inner.{part_of, Fit};
ghost use Rattle.arguments.specs.Inner.{Sizes, WellSplit, WordThere, WordAsks, ArgsAsk, LongRead, ShortRead, ShortsAsk, ShortsRead, ArgumentAsks, ArgumentRead, WordRead, ArgsRead, ArgsScanned};

use super::form::before_equals;
use super::meaning::{Meaning, meaning_by_short};
use super::node::Node;
use super::standing::{FaultText, Progress, Scan, Stage};
use frame::{Framed, read_frame};
use lookup::{Defined, definition_of, option_of};
use table::{Source, Span, Table};
use text::{Decoded, decode};

impl Stage {
    // What stands after `--`, from one place of the words to another.
    fn long<'a>(
        self,
        node: Node<'a>,
        options: &mut [usize],
        flags: &mut [usize],
        start: usize,
        end: usize,
    ) -> Self
        requires { (start ≤ end) × (end ≤ length node.words.now) × Fit self.options options.old × Fit self.flags flags.old }
        ensures { LongRead node.entry.words.now node.entry.image.now node.entry.from start end options.old flags.old self options.new flags.new result }
    {
        let name = &node.words[start..end];
        let equals = before_equals(name);
        let key = Span {
            start,
            length: equals,
        };
        let told = FaultText {
            dashes: 2,
            start,
            length: equals,
        };
        if equals < name.len() {
            let Some(_) = option_of(node.image, node.from, &name[..equals]) else {
                return self.at(Progress::UnknownOption(told));
            };
            let value = Span {
                start: start + equals + 1,
                length: name.len() - equals - 1,
            };
            return self.with_option(node, options, Source::Words, key, value);
        }
        match definition_of(node.image, node.from, name) {
            Some(Defined::Flag(_)) => self.with_flag(node, flags, Source::Words, key),
            Some(Defined::Option(_)) => self.at(Progress::Waiting {
                source: Source::Words,
                key,
                told,
            }),
            None => self.at(Progress::UnknownOption(told)),
        }
    }

    // One character of a word of shorts, which lies at a place of the words.
    fn short<'a>(
        self,
        node: Node<'a>,
        flags: &mut [usize],
        place: usize,
        code: u32,
        length: usize,
    ) -> Self
        requires { (part_of node.words.now place length ≡ encode code) × Fit self.flags flags.old }
        ensures { ShortRead node.entry.words.now node.entry.image.now node.entry.from code flags.old self flags.new result }
    {
        let told = FaultText {
            dashes: 1,
            start: place,
            length,
        };
        match self.progress {
            Progress::Going => match meaning_by_short(node.image, node.from, code as usize) {
                Some(Meaning::Flag(name)) => self.with_flag(node, flags, Source::Image, name),
                Some(Meaning::Option(name)) => self.at(Progress::Waiting {
                    source: Source::Image,
                    key: name,
                    told,
                }),
                None => self.at(Progress::UnknownOption(told)),
            },
            Progress::Waiting {
                source: _,
                key: _,
                told: before,
            } => self.at(Progress::MissingValue(before)),
            _ => self,
        }
    }

    // A word of shorts, after its dash, from one place of the words to another.
    fn shorts<'a>(self, node: Node<'a>, flags: &mut [usize], start: usize, end: usize) -> Self
        requires { ShortsAsk node.words.now start end flags.old self }
        ensures { ShortsRead node.entry.words.now node.entry.image.now node.entry.from start end flags.old self flags.new result }
    {
        let letters = &node.words[start..end];
        let mut stage = self;
        let mut at = 0;
        while at < letters.len() {
            let Decoded::Character { code, length } = decode(letters, at) else {
                let told = FaultText {
                    dashes: 1,
                    start,
                    length: end - start,
                };
                return stage.at(Progress::UnknownOption(told));
            };
            stage = stage.short(node, flags, start + at, code, length);
            at += length;
        }
        stage
    }

    // A word that is no value: the frame at a place, of a text of that length.
    fn argument<'a>(
        self,
        node: Node<'a>,
        options: &mut [usize],
        flags: &mut [usize],
        at: usize,
        bytes: usize,
        rest: &mut [u8],
    ) -> Self
        requires word_there { WordThere node.words.now at bytes }
        requires argument_asks { ArgumentAsks bytes options.old flags.old self rest.old }
        ensures { ArgumentRead node.entry.words.now node.entry.image.now node.entry.from at bytes options flags self rest result }
    {
        let start = at + 3;
        let end = start + bytes;
        if bytes < 2 {
            return self.keep(&node.words[at..end], rest);
        }
        if node.words[start] != b'-' {
            return self.keep(&node.words[at..end], rest);
        }
        if node.words[start + 1] == b'-' {
            return self.long(node, options, flags, start + 2, end);
        }
        self.shorts(node, flags, start + 1, end)
    }

    // One word: a value where one is waited for, whatever it begins with.
    fn word<'a>(
        self,
        node: Node<'a>,
        options: &mut [usize],
        flags: &mut [usize],
        at: usize,
        bytes: usize,
        rest: &mut [u8],
    ) -> Self
        requires word_there { WordThere node.words.now at bytes }
        requires word_asks { WordAsks bytes options.old flags.old self rest.old }
        ensures { WordRead node.entry.words.now node.entry.image.now node.entry.from at bytes options flags self rest result }
    {
        match self.progress {
            Progress::Going => self.argument(node, options, flags, at, bytes, rest),
            Progress::Waiting {
                source,
                key,
                told: _,
            } => {
                let value = Span {
                    start: at + 3,
                    length: bytes,
                };
                self.with_option(node, options, source, key, value)
            }
            _ => self,
        }
    }
}

// The words from a place on, over the definitions from a place of the node's part on. Options and flags go into lent tables, positional words are kept in `rest`.
fn read_args<'a>(
    node: Node<'a>,
    start: usize,
    options: &mut [usize],
    flags: &mut [usize],
    rest: &mut [u8],
) -> Stage
    requires { ArgsAsk node.words.now start options.old flags.old rest.old }
    ensures { ArgsRead node.entry.words.now node.entry.image.now node.entry.from start rest.old options.new flags.new result rest.new }
{
    let mut stage = Stage::start();
    let mut at = start;
    while at < node.words.len() {
        let Framed::Frame { kind: _, length } = read_frame(node.words, at) else {
            let told = FaultText {
                dashes: 0,
                start: at,
                length: node.words.len() - at,
            };
            return stage.at(Progress::UnknownOption(told));
        };
        stage = stage.word(node, options, flags, at, length, rest);
        at += 3 + length;
    }
    stage
}

// The same in tables of its own: only when all words are read are they handed on by value.
pub fn parse_args<'a>(
    words: &'a [u8],
    image: &'a [u8],
    from: usize,
    start: usize,
    rest: &mut [u8],
) -> Scan
    requires { Sizes words.now image.now × (length words.now ≤ length rest.old) × WellSplit (drop start words.now) }
    ensures { ArgsScanned words.now image.now from start rest.old result rest.new }
{
    let node = Node { words, image, from };
    let mut options = [0usize; 64];
    let mut flags = [0usize; 64];
    let stage = read_args(node, start, &mut options, &mut flags, rest);
    Scan {
        options: Table {
            count: stage.options,
            at: options,
        },
        flags: Table {
            count: stage.flags,
            at: flags,
        },
        kept: stage.kept,
        progress: stage.progress,
    }
}
