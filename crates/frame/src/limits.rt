// The limits of the standard that several crates hold to: line_limit, frames_limit and value_limit of the definitions, as the code says them.
ghost use Rattle.std.specs.Prelude.{◌≡◌, min};
ghost use Rattle.frame.specs.Limits.{value_limit};

// The bytes of a line.
pub const LINE_LIMIT: usize = 1024;

// The bytes of the frames of a line's words: at most four for each of the line's.
pub const FRAMES_LIMIT: usize = 4 * LINE_LIMIT;

// The greatest value that goes with 2.
const VALUE_LIMIT: usize = 65535;

// The length of a line that is too long, as it is told.
pub fn told_length(n: usize) -> usize
    ensures { result ≡ min n value_limit }
{
    n.min(VALUE_LIMIT)
}
