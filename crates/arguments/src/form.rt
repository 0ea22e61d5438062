// The `=` of a long form.
ghost use Rattle.std.specs.Prelude.{◌≡◌, ◌≤◌, length};
ghost use Rattle.arguments.specs.Forms.{before_equals};

// How many bytes of s stand before its first `=`: all of them if it has none.
pub fn before_equals(s: &[u8]) -> usize
    ensures { (result ≡ before_equals s.now) × (result ≤ length s.now) }
{
    s.iter().position(|b| *b == b'=').unwrap_or(s.len())
}
