// House lines: a frame's bytes in lower-case hexadecimal, ended by LF. Read with a refusal for each fault, and written.
ghost use Rattle.std.specs.Prelude.{◌≡◌};
ghost use Rattle.frame.specs.House.{read_digits, read_house, HouseRead, HouseWritten};

use super::hex::{first_bad, hex_into, unhex_into};
use buffer::{TooShort, push_byte};

// Why a line is no frame, a refusal for each test in their order: NoDigit has a place, Short the bytes needed.
#[derive(Clone, Copy)]
pub enum HouseRefusal {
    Unended,
    Empty,
    TooLong,
    Odd,
    NoDigit(usize),
    Short(usize),
}

// The digits of a line that is read: digits_limit of the definitions.
const DIGITS_LIMIT: usize = 1024;

// What the digits before the final LF are, with that much room for their bytes.
#[tactic(auto, unfolding(crate::specs::House::read_digits, crate::specs::Hex::bad_place))]
fn read_digits(digits: &[u8], room: usize) -> Result<usize, HouseRefusal>
    ensures { result ≡ read_digits digits.now room }
{
    let n = digits.len();
    if n == 0 {
        return Err(HouseRefusal::Empty);
    }
    if DIGITS_LIMIT < n {
        return Err(HouseRefusal::TooLong);
    }
    if n % 2 == 1 {
        return Err(HouseRefusal::Odd);
    }
    if let Some(place) = first_bad(digits) {
        return Err(HouseRefusal::NoDigit(place));
    }
    if room < n / 2 {
        return Err(HouseRefusal::Short(n / 2));
    }
    Ok(n / 2)
}

// What the line is, with that much room for its bytes.
#[tactic(auto, using(crate::proofs::Lines::suffix_is), unfolding(crate::specs::House::read_house, crate::specs::House::digits_of))]
fn read_house(line: &[u8], room: usize) -> Result<usize, HouseRefusal>
    ensures { result ≡ read_house line.now room }
{
    let Some(digits) = line.strip_suffix(b"\n") else {
        return Err(HouseRefusal::Unended);
    };
    read_digits(digits, room)
}

// Writes the frame of a house line at the front of out; a line that is refused writes nothing.
pub fn read_line(line: &[u8], out: &mut [u8]) -> Result<usize, HouseRefusal>
    ensures { HouseRead line.now out.old result out.new }
{
    let n = read_house(line, out.len())?;
    let last = line.len() - 1;
    unhex_into(&line[..last], out);
    Ok(n)
}

// Writes the house line of the bytes at the front of out, or nothing if it is longer than out.
pub fn write_line(bytes: &[u8], out: &mut [u8]) -> Result<usize, TooShort>
    ensures { HouseWritten bytes.now out.old result out.new }
{
    let needed = 2 * bytes.len() + 1;
    if out.len() < needed {
        return Err(TooShort { needed });
    }
    let at = hex_into(bytes, out);
    push_byte(b'\n', out, at);
    Ok(needed)
}
