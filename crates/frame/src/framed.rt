// Frames of one text, as the report's 11, 13 and 14 and the fault's 1E are: a byte for the kind, then a long text.
ghost use Rattle.std.specs.Prelude.{◌≡◌, ℕ, ◌≤◌, ◌<◌, ◌^◌, length, drop};
ghost use Rattle.buffer.specs.Write.{Written};
ghost use Rattle.frame.specs.Framed.{frame_of, frame_first};

use super::prefixed::{long_text, long_text_size, write_long_text};
use buffer::push_byte;

// What stands at a place: a frame with a text of that many bytes, a frame that runs past the end, or nothing.
// Three cases that callers part by name: an Option of a Result would be no plainer.
#[derive(Clone, Copy)]
pub enum Framed {
    Frame { kind: u8, length: usize },
    Broken,
    End,
}

// The frame at the place `at` of s; its text begins three bytes on.
pub fn read_frame(s: &[u8], at: usize) -> Framed
    ensures { result ≡ frame_first (drop at s.now) }
{
    if s.len() <= at {
        return Framed::End;
    }
    let Some(length) = long_text(s, at + 1) else {
        return Framed::Broken;
    };
    Framed::Frame {
        kind: s[at],
        length,
    }
}

// How many bytes a frame of the text t takes, whatever its kind.
pub fn frame_size(t: &[u8]) -> usize
    ensures { (kind : ℕ) → result ≡ length (frame_of kind t.now) }
{
    1 + long_text_size(t)
}

// Writes the frame of that kind and of the text t at the front of out and returns how many bytes that is.
pub fn write_frame(kind: u8, t: &[u8], out: &mut [u8]) -> usize
    requires { (length t.now < 256 ^ 2) × (length (frame_of kind t.now) ≤ length out.old) }
    ensures { Written (frame_of kind t.now) out.old result out.new }
{
    let at = push_byte(kind, out, 0);
    at + write_long_text(t, &mut out[at..])
}
