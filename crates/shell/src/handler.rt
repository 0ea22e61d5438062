// The handler of a command.
ghost use Rattle.std.specs.Prelude.{◌≡◌};
ghost use Rattle.tree.specs.Images.{frames_of};
ghost use Rattle.shell.specs.Lines.{handler_of};
ghost use Rattle.shell.specs.Inner.{handler_by};

use image::{Head, head_of};

// The handler of the node that frames begin with; an image says 0 where there is none.
pub fn handler_of(frames: &[u8]) -> Option<u16>
    ensures { result ≡ handler_by (handler_of (frames_of frames.now)) }
{
    let Head::Node {
        depth: _,
        handler,
        texts: _,
    } = head_of(frames)
    else {
        return None;
    };
    if handler == 0 {
        return None;
    }
    Some(handler as u16)
}
