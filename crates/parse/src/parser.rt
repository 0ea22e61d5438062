// `parse`: the line is split into words, the image tested, the words are judged, and the report or the fault is written.
ghost use Rattle.std.specs.Prelude.{◌≡◌, ◌≤◌, length, Err};
ghost use Rattle.frame.specs.Limits.{frames_limit};
ghost use Rattle.frame.specs.Series.{texts_in};
ghost use Rattle.tree.specs.Images.{frames_of};
ghost use Rattle.tree.specs.Rules.{check_tree};
ghost use Rattle.arguments.specs.Inner.{WellSplit};
ghost use Rattle.parse.specs.Commands.{parse_words};
ghost use Rattle.parse.specs.Answer.{on_checked, Parsing};
ghost use Rattle.parse.specs.Inner.{Enough, outcome_in, TellingAsks, CommandAsks, Telling, Worded};
ghost use Rattle.parse.specs.declared.answer.ParseRefusal.TheVariants.{BadTree};

use super::answer::{ParseRefusal, refusal_of};
use super::fault::{dashes_of, text_of};
use super::judging::{Judged, judge};
use frame::FRAMES_LIMIT;
use report::{write_fault, write_report};
use tree::{Place, check_tree, find_command};
use words::{TokenizeRefusal, tokenize};

// Writes what was judged: a report, or the frame of a fault.
fn tell<'a>(
    words: &'a [u8],
    image: &'a [u8],
    judged: Judged,
    rest: &[u8],
    out: &mut [u8],
) -> Result<usize, ParseRefusal>
    requires { TellingAsks words.now image.now judged rest.now }
    ensures { Telling (outcome_in words.now image.now rest.now judged) out.old result out.new }
{
    let node = &image[judged.place.start..judged.place.end];
    let verdict = judged.verdict;
    if let Err(fault) = verdict {
        let text = text_of(words, node, b"empty command", verdict);
        let length = write_fault(dashes_of(verdict), text, out)?;
        return Err(refusal_of(fault, length));
    }
    let length = write_report(
        words,
        node,
        &words[..judged.place.at],
        judged.scan.options,
        judged.scan.flags,
        &rest[..judged.scan.kept],
        out,
    )?;
    Ok(length)
}

// The words of a line under a well-formed tree, in which they lead to what was found.
fn parse_command<'a>(
    words: &'a [u8],
    image: &'a [u8],
    found: Option<Place>,
    rest: &mut [u8],
    out: &mut [u8],
) -> Result<usize, ParseRefusal>
    requires { CommandAsks words.now image.now found rest.old }
    ensures { Telling (parse_words (frames_of image.now) (texts_in words.now)) out.old result out.new }
{
    let judged = judge(words, image, found, rest);
    tell(words, image, judged, rest, out)
}

// The words of a line. The image is tested, and on the way the words are followed to their command.
fn parse_words<'a>(
    words: &'a [u8],
    image: &'a [u8],
    rest: &mut [u8],
    out: &mut [u8],
) -> Result<usize, ParseRefusal>
    requires { (length words.now ≤ length rest.old) × (length rest.old ≤ frames_limit) × WellSplit words.now }
    ensures { Worded image.now words.now out.old result out.new }
{
    let found = find_command(words, image)?;
    parse_command(words, image, found, rest, out)
}

// A refusal of the line, which that of the image goes before.
fn unless_bad(image: &[u8], refusal: ParseRefusal) -> Result<usize, ParseRefusal>
    ensures { result ≡ on_checked (check_tree image.now) (λ n. Err (BadTree n)) (Err refusal) }
{
    check_tree(image)?;
    Err(refusal)
}

// A line with buffers for its words, and for those of them that are positional.
fn parse_with(
    image: &[u8],
    line: &[u8],
    words: &mut [u8],
    rest: &mut [u8],
    out: &mut [u8],
) -> Result<usize, ParseRefusal>
    requires { Enough line.now (length words.old) × (length rest.old ≡ length words.old) }
    ensures { Parsing image.now line.now out.old result out.new }
{
    match tokenize(line, words) {
        Ok(n) => parse_words(&words[..n], image, rest, out),
        Err(TokenizeRefusal::LineTooLong(n)) => unless_bad(image, ParseRefusal::LineTooLong(n)),
        Err(TokenizeRefusal::IllFormed(n)) => unless_bad(image, ParseRefusal::IllFormed(n)),
        Err(TokenizeRefusal::NoRoom(n)) => Err(ParseRefusal::NoRoom(n)),
    }
}

// The bytes of a line that was typed, and of the frames of its words.
const TYPED: usize = 255;

const TYPED_FRAMES: usize = 4 * TYPED;

// The report of a line's command, at the front of out; or a refusal, of which 4 to 7 write a frame with their text. The words of a line always find
// room: four bytes for each byte of it. A line that was typed has at most 255, and needs no more than small buffers.
pub fn parse(image: &[u8], line: &[u8], out: &mut [u8]) -> Result<usize, ParseRefusal>
    ensures { Parsing image.now line.now out.old result out.new }
{
    if line.len() <= TYPED {
        let mut words = [0u8; TYPED_FRAMES];
        let mut rest = [0u8; TYPED_FRAMES];
        return parse_with(image, line, &mut words, &mut rest, out);
    }
    let mut words = [0u8; FRAMES_LIMIT];
    let mut rest = [0u8; FRAMES_LIMIT];
    parse_with(image, line, &mut words, &mut rest, out)
}
