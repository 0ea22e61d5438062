// Writing at a place where there may be no room: a text that does not fit is left out, and the place after it is told all the same.
ghost use Rattle.std.specs.Prelude.{[], ◌∷◌};
ghost use Rattle.buffer.specs.Inks.{Inked, Countable};

use super::write::push;

// Writes src at the place `at` of out if it fits there, and returns the place after it.
pub fn put(src: &[u8], out: &mut [u8], at: usize) -> usize
    requires { Countable src.now at }
    ensures { Inked src.now out.old at result out.new }
{
    let end = at + src.len();
    if end <= out.len() {
        push(src, out, at);
    }
    end
}

// The same for one byte.
pub fn put_byte(byte: u8, out: &mut [u8], at: usize) -> usize
    requires { Countable (byte ∷ []) at }
    ensures { Inked (byte ∷ []) out.old at result out.new }
{
    put(&[byte], out, at)
}
