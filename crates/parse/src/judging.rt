// What a line says, before anything is written: a verdict on its words, with all that a report needs.
ghost use Rattle.std.specs.Prelude.{◌≡◌, List, ℕ, Err};
ghost use Rattle.tree.specs.Trails.{Within};
ghost use Rattle.parse.specs.Inner.{Judges, ArgumentsAsk, ArgumentsJudged, WordsAsk, WordsJudged};

use super::required::validate_required_options;
use arguments::{FaultText, Progress, Scan, parse_args};
use frame::{Framed, read_frame};
use image::{Head, head_of};
use table::Span;
use tree::Place;

// What is wrong with a line. Texts are told by where they stand: a word in the words, a name in the command's part of the image.
#[derive(Clone, Copy)]
pub enum Fault {
    NoWords,
    UnknownCommand(Span),
    UnknownOption(FaultText),
    MissingValue(FaultText),
    MissingRequired(Span),
}

#[derive(Clone, Copy)]
pub struct Judged {
    pub verdict: Result<(), Fault>,
    pub place: Place,
    pub scan: Scan,
}

// The verdict on a scan that is at its end.
fn verdict_of<'a>(words: &'a [u8], node: &'a [u8], from: usize, scan: Scan) -> Result<(), Fault>
    ensures { Judges words.now node.now from scan result }
{
    match scan.progress {
        Progress::Going => validate_required_options(words, node, from, scan.options).map_err(
            Fault::MissingRequired,
        ),
        Progress::Waiting {
            source: _,
            key: _,
            told,
        } => Err(Fault::MissingValue(told)),
        Progress::UnknownOption(told) => Err(Fault::UnknownOption(told)),
        Progress::MissingValue(told) => Err(Fault::MissingValue(told)),
    }
}

// A fault where there is no command.
fn without_command(fault: Fault) -> Judged
    ensures { (result.verdict ≡ Err fault) × (result.scan.kept ≡ 0) × ((words image : List ℕ) → Within words image result.place) }
{
    Judged {
        verdict: Err(fault),
        place: Place {
            start: 0,
            end: 0,
            at: 0,
        },
        scan: Scan::start(),
    }
}

// The arguments of the command at a place, whose definitions begin after its node; where no node stands the first word is unknown.
fn judge_arguments<'a>(
    words: &'a [u8],
    image: &'a [u8],
    place: Place,
    first: Span,
    rest: &mut [u8],
) -> Judged
    requires { ArgumentsAsk words.now image.now place rest.old }
    ensures { ArgumentsJudged words.now image.now place rest.old result rest.new }
{
    let node = &image[place.start..place.end];
    let Head::Node {
        depth: _,
        handler: _,
        texts,
    } = head_of(node)
    else {
        return without_command(Fault::UnknownCommand(first));
    };
    let from = texts.size;
    let scan = parse_args(words, node, from, place.at, rest);
    Judged {
        verdict: verdict_of(words, node, from, scan),
        place,
        scan,
    }
}

// What the words of a line say under a well-formed tree, in which they lead to what was found; positional words are kept in `rest`.
pub fn judge<'a>(words: &'a [u8], image: &'a [u8], found: Option<Place>, rest: &mut [u8]) -> Judged
    requires { WordsAsk words.now image.now found rest.old }
    ensures { WordsJudged words.now image.now rest.old result rest.new }
{
    let Framed::Frame { kind: _, length } = read_frame(words, 0) else {
        return without_command(Fault::NoWords);
    };
    let first = Span { start: 3, length };
    let Some(place) = found else {
        return without_command(Fault::UnknownCommand(first));
    };
    judge_arguments(words, image, place, first, rest)
}
