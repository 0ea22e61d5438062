// `write_fault`: the frame of a fault, whose text is some dashes and a part of the words or of the image.
ghost use Rattle.std.specs.Prelude.{◌+◌, ◌≤◌, ◌<◌, length, replicate};
ghost use Rattle.buffer.specs.Write.{Written};
ghost use Rattle.report.specs.Report.{fault_of};
ghost use Rattle.report.specs.Inner.{dashed, Reporting};

use buffer::{TooShort, push, push_byte};

// Writes so many dashes at the front of out and returns how many.
fn write_dashes(dashes: usize, out: &mut [u8]) -> usize
    requires { dashes ≤ length out.old }
    ensures { Written (replicate dashes 0x2D) out.old result out.new }
{
    out[..dashes].fill(b'-');
    dashes
}

// The frame of a fault, at the front of out.
pub fn write_fault(dashes: usize, text: &[u8], out: &mut [u8]) -> Result<usize, TooShort>
    requires { dashes + length text.now < 65536 }
    ensures { Reporting (fault_of (dashed dashes text.now)) out.old result out.new }
{
    let n = dashes + text.len();
    if out.len() < 3 + n {
        return Err(TooShort { needed: 3 + n });
    }
    let high = push_byte(0x1E, out, 0);
    let low = push_byte((n / 256) as u8, out, high);
    let start = push_byte((n % 256) as u8, out, low);
    let part = start + write_dashes(dashes, &mut out[start..]);
    push(text, out, part);
    Ok(3 + n)
}
