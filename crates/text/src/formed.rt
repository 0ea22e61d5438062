// Whether a text is well-formed, many bytes at a time: each byte is judged by the three before it, without an early exit.
ghost use Rattle.std.specs.Prelude.{◌≡◌, eqb, length, take, ◌≤◌};
ghost use Rattle.buffer.specs.Greatest.{greatest};
ghost use Rattle.text.specs.Decoding.{well_formed};
ghost use Rattle.text.specs.Inner.{awaited, misfit, misfits, misfits_in, end_misfit, unfit};

use crate::utf8::{greatest_second, is_within, least_second};

// Whether a character is not yet whole after the bytes c, b and a.
#[tactic(auto, unfolding(crate::specs::Inner::awaited))]
fn is_awaited(c: u8, b: u8, a: u8) -> bool
    ensures { result ≡ awaited c b a }
{
    0xC2 <= a || 0xE0 <= b || 0xF0 <= c
}

// Whether x can stand after the bytes c, b and a, of which a is the nearest, if these are right. A byte before the text's beginning is 0.
#[tactic(auto, unfolding(crate::specs::Inner::misfit, crate::specs::Inner::outside))]
fn fits(c: u8, b: u8, a: u8, x: u8) -> bool
    ensures { result ≡ eqb (misfit c b a x) 0 }
{
    if is_awaited(c, b, a) {
        return is_within(least_second(a), greatest_second(a), x);
    }
    x < 0x80 || is_within(0xC2, 0xF4, x)
}

// Whether the bytes of s from its fourth on fit: the backend takes 16 or 32 at a time. By places: `windows(4)` is slower by a tenth, measured.
fn pass(s: &[u8]) -> bool
    ensures { result ≡ eqb (greatest (misfits_in s.now)) 0 }
{
    let mut fit = true;
    for i in 3..s.len() {
        fit &= fits(s[i - 3], s[i - 2], s[i - 1], s[i]);
    }
    fit
}

// The same for 35 bytes or more. A byte may be judged twice, so whole blocks of 32 and the last 32 bytes do, and no odd bytes are
// left to judge one by one.
fn pass_blocks(s: &[u8]) -> bool
    requires { 35 ≤ length s.now }
    ensures { result ≡ eqb (greatest (misfits_in s.now)) 0 }
{
    let n = s.len();
    let whole = (n - 3) / 32 * 32;
    let last = n - 35;
    pass(&s[..whole + 3]) & pass(&s[last..])
}

// Whether the first three bytes fit.
fn front_fits(s: &[u8]) -> bool
    requires { 3 ≤ length s.now }
    ensures { result ≡ eqb (greatest (misfits 0 0 0 (take 3 s.now))) 0 }
{
    fits(0, 0, 0, s[0]) & fits(0, 0, s[0], s[1]) & fits(0, s[0], s[1], s[2])
}

// Whether the text may end here: its end is judged as a zero byte, which no character goes on with.
#[tactic(auto, unfolding(crate::specs::Inner::end_misfit))]
fn end_fits(s: &[u8]) -> bool
    requires { 3 ≤ length s.now }
    ensures { result ≡ eqb (end_misfit s.now) 0 }
{
    let n = s.len();
    fits(s[n - 3], s[n - 2], s[n - 1], 0)
}

// Whether all bytes of s and its end fit: a text too short for blocks, byte after byte.
fn all_fit(s: &[u8]) -> bool
    ensures { result ≡ eqb (unfit 0 0 0 s.now) 0 }
{
    let mut fit = true;
    let mut c = 0;
    let mut b = 0;
    let mut a = 0;
    for x in s {
        fit &= fits(c, b, a, *x);
        c = b;
        b = a;
        a = *x;
    }
    fit & fits(c, b, a, 0)
}

// Whether s is well-formed, many bytes at a time.
pub fn is_well_formed(s: &[u8]) -> bool
    ensures { result ≡ well_formed s.now }
{
    if s.len() < 35 {
        return all_fit(s);
    }
    front_fits(s) & pass_blocks(s) & end_fits(s)
}
