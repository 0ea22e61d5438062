// White space: the 25 code points with Unicode's property White_Space.
ghost use Rattle.std.specs.Prelude.{◌≡◌};
ghost use Rattle.text.specs.Space.{is_white_space};

// Whether a code has the property White_Space. Most codes lie below 85 or in one of two wide gaps, and need no other test.
pub fn is_white_space(code: u32) -> bool
    ensures { result ≡ is_white_space code }
{
    if code < 0x85 {
        return matches!(code, 0x09..=0x0D | 0x20);
    }
    if 0x3000 < code || matches!(code, 0xA1..=0x167F) {
        return false;
    }
    matches!(
        code,
        0x85 | 0xA0 | 0x1680 | 0x2000..=0x200A | 0x2028 | 0x2029 | 0x202F | 0x205F | 0x3000
    )
}
