// What showing a text answers, and showing one that a function writes.
ghost use Rattle.std.specs.Prelude.{List, ℕ};
ghost use Rattle.buffer.specs.Showing.{Showing, Puts};

// A lent buffer is too short: the length needed.
#[derive(Clone, Copy)]
pub struct TooShort {
    pub needed: usize,
}

// Shows the text that `put` puts at the front of a buffer: it is measured where there is no room, then written if there is enough.
pub fn show_by<F: Fn(&mut [u8]) -> usize>(put: F, out: &mut [u8]) -> Result<usize, TooShort>
    requires { F.IsAlwaysCallable put }
    ensures { (text : List ℕ) → Puts F.Fn put text → Showing text out.old result out.new }
{
    let needed = put(&mut []);
    if out.len() < needed {
        return Err(TooShort { needed });
    }
    Ok(put(out))
}
