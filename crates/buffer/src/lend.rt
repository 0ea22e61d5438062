// Parts of a slice that are there for all places and lengths: what lies past the end is left out.
ghost use Rattle.std.specs.Prelude.{◌≡◌, ◌≤◌, take, drop, get_or};
ghost use Rattle.buffer.specs.Lend.{ByteAt, between};

// The byte at a place, 0 past the end.
pub fn octet_at(s: &[u8], at: usize) -> u8
    ensures { result ≡ get_or s.now at 0 }
{
    s.get(at).copied().unwrap_or(0)
}

// The same as a number to count with.
pub fn byte_at(s: &[u8], at: usize) -> usize
    ensures { ByteAt s.now at result }
{
    usize::from(octet_at(s, at))
}

// What stands from a place on.
pub fn rest(s: &[u8], at: usize) -> &[u8]
    ensures { result.now ≡ drop at s.now }
{
    s.get(at..).unwrap_or(&[])
}

// The n bytes from a place on, or fewer where the end comes first.
pub fn part(s: &[u8], at: usize, n: usize) -> &[u8]
    ensures { result.now ≡ take n (drop at s.now) }
{
    let tail = rest(s, at);
    &tail[..n.min(tail.len())]
}

// Where a part of a slice lies: from a place up to, not including, another.
#[derive(Clone, Copy)]
pub struct Span {
    pub start: usize,
    pub end: usize,
}

impl Span {
    // The part of s that lies there.
    pub fn of(self, s: &[u8]) -> &[u8]
        ensures { result.now ≡ between s.now self.start self.end }
    {
        part(s, self.start, self.end.saturating_sub(self.start))
    }
}
