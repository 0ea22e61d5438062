// The messages of what is wrong with a line: of a fault, and of a command without a handler.
ghost use Rattle.std.specs.Prelude.{◌≡◌, ◌≤◌, ◌<◌, length};
ghost use Rattle.frame.specs.Limits.{frames_limit};
ghost use Rattle.frame.specs.Series.{texts_in, AllFrames};
ghost use Rattle.report.specs.Inner.{dashed};
ghost use Rattle.buffer.specs.Inks.{Inked};
ghost use Rattle.buffer.specs.Showing.{Showing};
ghost use Rattle.message.specs.Messages.{message};
ghost use Rattle.message.specs.declared.error.ParseError.TheVariants.{NoHandler};
ghost use Rattle.help.specs.Texts.{spaced};
ghost use Rattle.shell.specs.Lines.{joined};
ghost use Rattle.shell.specs.Inner.{error_of};

use buffer::{TooShort, push, put, rest};
use frame::{FRAMES_LIMIT, Framed, read_frame};
use message::{ParseError, show_message};
use parse::Fault;

// The message of a fault.
pub fn error_of(fault: Fault) -> ParseError
    ensures { result ≡ error_of fault }
{
    match fault {
        Fault::NoWords | Fault::UnknownCommand(_) => ParseError::UnknownCommand,
        Fault::UnknownOption(_) => ParseError::UnknownOption,
        Fault::MissingValue(_) => ParseError::MissingValue,
        Fault::MissingRequired(_) => ParseError::MissingRequired,
    }
}

// The message that names some dashes and a text after them.
pub fn show_dashed(
    told: ParseError,
    dashes: usize,
    text: &[u8],
    out: &mut [u8],
) -> Result<usize, TooShort>
    requires { (dashes < 256) × (length text.now ≤ frames_limit) }
    ensures { Showing (message told (dashed dashes text.now)) out.old result out.new }
{
    let mut dashed = [0u8; 4608];
    dashed[..dashes].fill(b'-');
    let end = push(text, &mut dashed, dashes);
    show_message(told, &dashed[..end], out)
}

// Writes the words of a path, which come as frames, each after a space, and returns the place after them.
fn put_path(path: &[u8], out: &mut [u8]) -> usize
    requires { (length path.now ≤ frames_limit) × AllFrames path.now }
    ensures { Inked (spaced (texts_in path.now)) out.old 0 result out.new × (result ≤ length path.now) }
{
    let mut at = 0;
    let mut end = 0;
    while at < path.len() {
        let Framed::Frame { kind: _, length } = read_frame(path, at) else {
            return 0;
        };
        let start = at + 3;
        let stop = start + length;
        let word = put(b" ", out, end);
        end = put(&path[start..stop], out, word);
        at = stop;
    }
    end
}

// The message of a command without a handler, which names its path joined by spaces.
pub fn show_no_handler(path: &[u8], out: &mut [u8]) -> Result<usize, TooShort>
    requires { (length path.now ≤ frames_limit) × AllFrames path.now }
    ensures { Showing (message NoHandler (joined (texts_in path.now))) out.old result out.new }
{
    let mut words = [0u8; FRAMES_LIMIT];
    let end = put_path(path, &mut words);
    show_message(ParseError::NoHandler, rest(&words[..end], 1), out)
}
