// The buffers that a stream begins with: slots without an entry, and room for an image and for a line.
ghost use Rattle.std.specs.Prelude.{◌≡◌, length};
ghost use Rattle.buffer.specs.Lend.{zeros};
ghost use Rattle.tree.specs.Rules.{image_limit};
ghost use Rattle.history.specs.Journal.{no_entries, slots_of};
ghost use Rattle.stream.specs.Bytes.{line_room};

use super::standing::Stream;
use history::History;
use tree::IMAGE_LIMIT;

// No entry.
pub fn blank_slots() -> [u8; History::SLOTS]
    ensures { result ≡ slots_of no_entries }
{
    [0; History::SLOTS]
}

pub fn blank_image() -> [u8; IMAGE_LIMIT]
    ensures { (result ≡ zeros image_limit) × (length result ≡ image_limit) }
{
    [0; IMAGE_LIMIT]
}

pub fn blank_line() -> [u8; Stream::LINE_ROOM]
    ensures { (result ≡ zeros line_room) × (length result ≡ line_room) }
{
    [0; Stream::LINE_ROOM]
}
