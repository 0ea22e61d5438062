// One pass over a part, without an early exit, so that the backend can take many bytes at a time.
ghost use Rattle.std.specs.Prelude.{◌≡◌};
ghost use Rattle.buffer.specs.Greatest.{greatest};

// One byte after the other, without an early exit: the backend takes 32 at a time.
fn pass(s: &[u8]) -> u8
    ensures { result ≡ greatest s.now }
{
    s.iter().copied().fold(0, u8::max)
}

// The greatest byte of s, 0 if there is none: below 80 it says that s is ASCII, 0 that s is all zeros.
// A byte may be seen twice, so whole blocks of 32 and the last 32 bytes do, and no odd bytes are left to take one by one.
pub fn greatest_byte(s: &[u8]) -> u8
    ensures { result ≡ greatest s.now }
{
    let n = s.len();
    if n < 32 {
        return pass(s);
    }
    let whole = n / 32 * 32;
    let last = n - 32;
    pass(&s[..whole]).max(pass(&s[last..]))
}
