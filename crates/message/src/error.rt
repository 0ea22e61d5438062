// Messages that name a text: a word, an option or a path.
ghost use Rattle.std.specs.Prelude.{◌≡◌, ◌≤◌, ◌++◌, length};
ghost use Rattle.frame.specs.Limits.{text_limit};
ghost use Rattle.buffer.specs.Showing.{Showing};
ghost use Rattle.buffer.specs.Inks.{Inked};
ghost use Rattle.message.specs.Messages.{message};

use buffer::{TooShort, put, show_by};

// What is wrong with a line.
#[derive(Clone, Copy)]
pub enum ParseError {
    // No command of that name.
    UnknownCommand,
    // No option or flag of that name.
    UnknownOption,
    // An option without a value.
    MissingValue,
    // A required option is missing.
    MissingRequired,
    // The command of that path has no handler.
    NoHandler,
}

// Writes a text between two others.
fn put_between(before: &[u8], text: &[u8], after: &[u8], out: &mut [u8]) -> usize
    requires { (length before.now ≤ 255) × (length text.now ≤ 65535) × (length after.now ≤ 255) }
    ensures { Inked (before.now ++ text.now ++ after.now) out.old 0 result out.new }
{
    let start = put(before, out, 0);
    let end = put(text, out, start);
    put(after, out, end)
}

fn put_message(told: ParseError, text: &[u8], out: &mut [u8]) -> usize
    requires { length text.now ≤ text_limit }
    ensures { Inked (message told text.now) out.old 0 result out.new }
{
    match told {
        ParseError::UnknownCommand => put_between(
            b"Error: Unknown command '",
            text,
            b"'\nType 'help' to see available commands\n",
            out,
        ),
        ParseError::UnknownOption => put_between(b"Error: Unknown option '", text, b"'\n", out),
        ParseError::MissingValue => put_between(
            b"Error: Option '",
            text,
            b"' is missing a value\n",
            out,
        ),
        ParseError::MissingRequired => put_between(
            b"Error: Missing required option '",
            text,
            b"'\n",
            out,
        ),
        ParseError::NoHandler => put_between(
            b"Error: Command '",
            text,
            b"' has no handler function\n",
            out,
        ),
    }
}

// The message that names a text.
pub fn show_message(told: ParseError, text: &[u8], out: &mut [u8]) -> Result<usize, TooShort>
    requires { length text.now ≤ text_limit }
    ensures { Showing (message told text.now) out.old result out.new }
{
    show_by(|out| put_message(told, text, out), out)
}
