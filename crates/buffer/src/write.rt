// Writing into a lent buffer: at its front, and at a place by lending on the part from there.
ghost use Rattle.std.specs.Prelude.{◌+◌, ◌≤◌, ◌<◌, [], ◌∷◌, length};
ghost use Rattle.buffer.specs.Write.{Written, Pushed};

// Writes src at the front of out and returns its length.
pub fn copy(src: &[u8], out: &mut [u8]) -> usize
    requires { length src.now ≤ length out.old }
    ensures { Written src.now out.old result out.new }
{
    for (i, byte) in src.iter().enumerate() {
        out[i] = *byte;
    }
    src.len()
}

// Writes src at the place `at` of out and returns the place after it.
pub fn push(src: &[u8], out: &mut [u8], at: usize) -> usize
    requires { at + length src.now ≤ length out.old }
    ensures { Pushed src.now out.old at result out.new }
{
    at + copy(src, &mut out[at..])
}

// Writes one byte at the place `at` of out and returns the place after it.
pub fn push_byte(byte: u8, out: &mut [u8], at: usize) -> usize
    requires { at < length out.old }
    ensures { Pushed (byte ∷ []) out.old at result out.new }
{
    out[at] = byte;
    at + 1
}
