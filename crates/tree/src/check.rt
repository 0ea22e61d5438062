// The image test: whether a whole image keeps the rules, and if not the number of the first frame that breaks one; and on the way the command that words name.
ghost use Rattle.std.specs.Prelude.{◌≡◌, ◌≤◌, length};
ghost use Rattle.tree.specs.Rules.{check_tree};
ghost use Rattle.tree.specs.Trails.{Finding};
ghost use Rattle.frame.specs.Limits.{frames_limit};

use super::command::{Place, Trail};
use super::walk::{Walk, step_at};

// An image is bad: the number, from 0, of the first frame that breaks a rule.
#[derive(Clone, Copy)]
pub struct BadFrame {
    pub number: usize,
}

// The bytes of an image: image_limit of the definitions.
pub const IMAGE_LIMIT: usize = 32768;

// Tests an image and follows words, which come as frames, down to the command that they name; an image over 32,768 bytes is bad at frame 0.
pub fn find_command(words: &[u8], image: &[u8]) -> Result<Option<Place>, BadFrame>
    requires { length words.now ≤ frames_limit }
    ensures { Finding words.now image.now result }
{
    if IMAGE_LIMIT < image.len() {
        return Err(BadFrame { number: 0 });
    }
    let mut walk = Walk::start();
    let mut trail = Trail::start(words, image);
    let mut n = 0;
    while walk.at < image.len() {
        let Some(next) = step_at(image, walk) else {
            return Err(BadFrame { number: n });
        };
        trail = trail.after(words, image, walk.at);
        walk = next;
        n += 1;
    }
    Ok(trail.found())
}

// Tests an image.
pub fn check_tree(image: &[u8]) -> Result<(), BadFrame>
    ensures { result ≡ check_tree image.now }
{
    find_command(&[], image)?;
    Ok(())
}
