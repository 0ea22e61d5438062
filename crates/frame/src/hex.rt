// Bytes in lower-case hexadecimal, two digits each, the high one first: single digits, and whole runs both ways.
ghost use Rattle.std.specs.Prelude.{◌≡◌, ◌*◌, ◌/◌, ◌≤◌, ◌<◌, length};
ghost use Rattle.buffer.specs.Write.{Written};
ghost use Rattle.frame.specs.Hex.{digit_of, hex_of, digit_value, value_of, pair_of, bad_place, unhex};

// The digit of a value.
#[tactic(auto, unfolding(crate::specs::Hex::digit_of))]
pub fn hex_digit(value: u8) -> u8
    requires { value < 16 }
    ensures { result ≡ digit_of value }
{
    match value {
        0..=9 => b'0' + value,
        _ => b'a' + (value - 10),
    }
}

// The value of a lower-case hexadecimal digit, from 0 to 15; any other byte has none.
#[tactic(auto, unfolding(crate::specs::Hex::digit_value))]
fn digit_value(byte: u8) -> Option<u8>
    ensures { result ≡ digit_value byte }
{
    match byte {
        b'0'..=b'9' => Some(byte - b'0'),
        b'a'..=b'f' => Some(byte - b'a' + 10),
        _ => None,
    }
}

// The value of a digit, 0 if the byte is none.
fn value_of(byte: u8) -> u8
    ensures { result ≡ value_of (digit_value byte) }
{
    digit_value(byte).unwrap_or(0)
}

// The byte that two digits stand for.
#[tactic(auto, using(crate::proofs::Digits::value_small), unfolding(crate::specs::Hex::pair_of))]
fn pair_of(high: u8, low: u8) -> u8
    ensures { result ≡ pair_of high low }
{
    value_of(high) * 16 + value_of(low)
}

// The place of the first byte that is no digit, if there is one.
pub fn first_bad(digits: &[u8]) -> Option<usize>
    ensures { result ≡ bad_place digits.now }
{
    digits.iter().position(|byte| digit_value(*byte).is_none())
}

// Writes the bytes that the digits stand for at the front of out and returns how many there are.
pub fn unhex_into(digits: &[u8], out: &mut [u8]) -> usize
    requires { length digits.now / 2 ≤ length out.old }
    ensures { Written (unhex digits.now) out.old result out.new }
{
    let n = digits.len() / 2;
    for i in 0..n {
        out[i] = pair_of(digits[2 * i], digits[2 * i + 1]);
    }
    n
}

// Writes the digits of the bytes at the front of out and returns how many there are.
pub fn hex_into(bytes: &[u8], out: &mut [u8]) -> usize
    requires { length (hex_of bytes.now) ≤ length out.old }
    ensures { Written (hex_of bytes.now) out.old result out.new }
{
    for (i, byte) in bytes.iter().enumerate() {
        out[2 * i] = hex_digit(byte / 16);
        out[2 * i + 1] = hex_digit(byte % 16);
    }
    2 * bytes.len()
}
