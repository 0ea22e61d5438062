// Where the scan of a line stands: what has been found, and whether it goes on, waits for a value or has met a fault.
ghost use Rattle.std.specs.Prelude.{◌≡◌, List, ℕ, ◌+◌, ◌≤◌, ◌<◌, length};
ghost use Rattle.table.specs.Inner.{Fit};
ghost use Rattle.arguments.specs.Arguments.{none_found, go};
ghost use Rattle.arguments.specs.Inner.{stand_of, fresh, KeySmall, Apt, Turned, OptionTaken, FlagTaken, KeptBy};

use super::node::Node;
use buffer::push;
use table::{Source, Span, Table, entry, put};

// The text that a fault tells: dashes, and a part of the words.
#[derive(Clone, Copy)]
pub struct FaultText {
    pub dashes: u8,
    pub start: usize,
    pub length: usize,
}

#[derive(Clone, Copy)]
pub enum Progress {
    Going,
    // For the value of a key; without one the text is told.
    Waiting {
        source: Source,
        key: Span,
        told: FaultText,
    },
    UnknownOption(FaultText),
    MissingValue(FaultText),
}

// What has been found: the positional words as the first `kept` bytes of a lent buffer, which holds their frames.
#[derive(Clone, Copy)]
pub struct Scan {
    pub options: Table,
    pub flags: Table,
    pub kept: usize,
    pub progress: Progress,
}

impl Scan {
    pub fn start() -> Self
        ensures { ((words image rest : List ℕ) → (stand_of words image rest result ≡ go none_found) × Apt rest result) × (result.kept ≡ 0) }
    {
        Self {
            options: Table::empty(),
            flags: Table::empty(),
            kept: 0,
            progress: Progress::Going,
        }
    }
}

// The same while the words are read: the tables are lent fixed memory, and of each so many entries count.
#[derive(Clone, Copy)]
pub struct Stage {
    pub options: usize,
    pub flags: usize,
    pub kept: usize,
    pub progress: Progress,
}

impl Stage {
    pub fn start() -> Self
        ensures { result ≡ fresh }
    {
        Self {
            options: 0,
            flags: 0,
            kept: 0,
            progress: Progress::Going,
        }
    }

    // The same finds, with another progress.
    pub fn at(self, progress: Progress) -> Self
        requires { KeySmall progress }
        ensures { Turned progress self result }
    {
        Self { progress, ..self }
    }

    // Goes on with an option more: a later value replaces an earlier one.
    pub fn with_option<'a>(
        self,
        node: Node<'a>,
        options: &mut [usize],
        source: Source,
        key: Span,
        value: Span,
    ) -> Self
        requires { (key.start < 0x10000) × (key.length < 0x10000) × (value.start < 0x2000) × (value.length < 0x2000) × Fit self.options options.old }
        ensures { OptionTaken node.entry.words.now node.entry.image.now source key value options.old self options.new result }
    {
        let count = put(
            node.words,
            node.image,
            options,
            self.options,
            entry(source, key, value),
        );
        Self {
            options: count,
            progress: Progress::Going,
            ..self
        }
    }

    // Goes on with a flag more, whose value is empty. It shares `put` and `entry` with an option; what is left are the fields of another table.
    pub fn with_flag<'a>(
        self,
        node: Node<'a>,
        flags: &mut [usize],
        source: Source,
        key: Span,
    ) -> Self
        requires { (key.start < 0x10000) × (key.length < 0x10000) × Fit self.flags flags.old }
        ensures { FlagTaken node.entry.words.now node.entry.image.now source key flags.old self flags.new result }
    {
        let nothing = Span {
            start: 0,
            length: 0,
        };
        let count = put(
            node.words,
            node.image,
            flags,
            self.flags,
            entry(source, key, nothing),
        );
        Self {
            flags: count,
            progress: Progress::Going,
            ..self
        }
    }

    // Keeps a frame after those that are kept.
    pub fn keep(self, frame: &[u8], rest: &mut [u8]) -> Self
        requires { self.kept + length frame.now ≤ length rest.old }
        ensures { KeptBy frame.now rest.old rest.new self result }
    {
        Self {
            kept: push(frame, rest, self.kept),
            ..self
        }
    }
}
