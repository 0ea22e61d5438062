// The bytes of a line, put after those that came before.
ghost use Rattle.std.specs.Prelude.{◌≡◌, ◌+◌, ◌<◌, true, false, length, MatchOption};
ghost use Rattle.stream.specs.Bytes.{line_room};
ghost use Rattle.stream.specs.Inner.{Holding};

use super::standing::Stream;

// Puts bytes after those that are held, up to one that ends the line: the LF, or the last one that there is room for. Returns how many the line has then;
// none where no byte ends it: then all of them are held.
pub fn hold(line: &mut [u8], held: usize, bytes: &[u8]) -> Option<usize>
    requires { (length line.old ≡ line_room) × (held < line_room) }
    ensures { MatchOption result (Holding line.old held bytes.now (held + length bytes.now) false line.new) (λ count. Holding line.old held bytes.now count true line.new) }
{
    let mut count = held;
    for byte in bytes {
        line[count] = *byte;
        count += 1;
        if *byte == b'\n' || Stream::LINE_ROOM <= count {
            return Some(count);
        }
    }
    None
}
