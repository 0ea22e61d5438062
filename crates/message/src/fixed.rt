// Messages that name nothing.
ghost use Rattle.buffer.specs.Showing.{Showing};
ghost use Rattle.message.specs.Messages.{ill_formed, goodbye, clear_screen};

use buffer::{TooShort, put, show_by};

// The message for a line that is ill-formed.
pub fn show_ill_formed(out: &mut [u8]) -> Result<usize, TooShort>
    ensures { Showing ill_formed out.old result out.new }
{
    show_by(
        |out| put(b"Error: Input contains invalid UTF-8 characters\n", out, 0),
        out,
    )
}

// The text of `exit` and `quit`.
pub fn show_goodbye(out: &mut [u8]) -> Result<usize, TooShort>
    ensures { Showing goodbye out.old result out.new }
{
    show_by(|out| put(b"Goodbye!\n", out, 0), out)
}

// The bytes of `clear`.
pub fn show_clear(out: &mut [u8]) -> Result<usize, TooShort>
    ensures { Showing clear_screen out.old result out.new }
{
    show_by(|out| put(b"\x1b[2J\x1b[H", out, 0), out)
}
