// A number in decimal digits: measured, and written at a place.
ghost use Rattle.std.specs.Prelude.{◌≡◌, ◌+◌, ◌≤◌, length};
ghost use Rattle.buffer.specs.Write.{Pushed};
ghost use Rattle.screen.specs.Decimal.{decimal};

use buffer::push_byte;

// How many digits n has.
pub fn decimal_size(n: usize) -> usize
    ensures { result ≡ length (decimal n) }
{
    if n < 10 {
        return 1;
    }
    decimal_size(n / 10) + 1
}

// Writes the digits of n at the place `at` and returns the place after them: its clause says which bytes lie there, so no `Display` writes them.
pub fn push_decimal(n: usize, out: &mut [u8], at: usize) -> usize
    requires { at + length (decimal n) ≤ length out.old }
    ensures { Pushed (decimal n) out.old at result out.new }
{
    if n < 10 {
        return push_byte(b'0' + n as u8, out, at);
    }
    let last = push_decimal(n / 10, out, at);
    push_byte(b'0' + (n % 10) as u8, out, last)
}
