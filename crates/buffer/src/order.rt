// Byte strings compared: their order by bytes, a prefix first, and whether they are the same.
ghost use Rattle.std.specs.Prelude.{◌≡◌};
ghost use Rattle.buffer.specs.Compare.{order, same_bytes};

use std::cmp::Ordering;

// The order of a and b by bytes; a prefix comes before what it begins. It says of `cmp` what the standard calls the order.
pub fn compare(a: &[u8], b: &[u8]) -> Ordering
    ensures { result ≡ order a.now b.now }
{
    a.cmp(b)
}

// Whether a and b are the same byte string. Lengths are compared first: most names differ there.
pub fn same(a: &[u8], b: &[u8]) -> bool
    ensures { result ≡ same_bytes a.now b.now }
{
    a == b
}

// As `same`, for long strings: by `&` and no early exit, so that the backend takes many bytes at a time.
pub fn same_throughout(a: &[u8], b: &[u8]) -> bool
    ensures { result ≡ same_bytes a.now b.now }
{
    a.len() == b.len() && a.iter().zip(b).fold(true, |same, (x, y)| same & (x == y))
}
