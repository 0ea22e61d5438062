// The Rust's `show_help` and `show_available_commands`: each text is measured, then written if there is room.
ghost use Rattle.std.specs.Prelude.{◌≡◌, ◌+◌, ◌≤◌, ◌<◌, length, drop};
ghost use Rattle.image.specs.Reading.{Small, span, perhaps_in};
ghost use Rattle.text.specs.Apart.{words_between};
ghost use Rattle.tree.specs.Images.{frames_of};
ghost use Rattle.buffer.specs.Inks.{Inked};
ghost use Rattle.help.specs.Texts.{usage_line, lists, help_text, available_text};
ghost use Rattle.help.specs.Inner.{about_in};
ghost use Rattle.buffer.specs.Showing.{Showing};
ghost use Rattle.frame.specs.Limits.{line_limit};
ghost use Rattle.tree.specs.Rules.{image_limit};

use super::word::put_words;
use buffer::{TooShort, part, put, rest, show_by};
use image::{Head, Lengths, head_of};
use rows::{Listing, put_rows, put_titled};

// The usage of a node on a line of its own, if it has one: its length, and `from` its place.
fn put_usage(s: &[u8], from: usize, length: Option<usize>, out: &mut [u8], at: usize) -> usize
    requires { (span «length» < 256) × (at < 4294000000) }
    ensures { Inked (usage_line (perhaps_in «length» (drop «from» s.now))) out.old at result out.new × (result ≤ at + 263) }
{
    let Some(n) = length else {
        return at;
    };
    let usage = put(b"Usage: ", out, at);
    let end = put(part(s, from, n), out, usage);
    put(b"\n", out, end)
}

// The lines on the node at the front of s itself, under the words of a line: at most 64 bytes for each byte of that line, and two texts
// of fewer than 256 bytes.
fn put_about(s: &[u8], texts: Lengths, line: &[u8], out: &mut [u8]) -> usize
    requires { Small texts × (length line.now ≤ line_limit) }
    ensures { Inked (about_in (words_between line.now) s.now texts) out.old 0 result out.new × (result ≤ 67000) }
{
    let words = put(b"Command:", out, 0);
    let end = put_words(line, out, words);
    let about = put(b"\nDescription: ", out, end);
    let note = put(part(s, 6 + texts.name, texts.description), out, about);
    let usage = put(b"\n", out, note);
    put_usage(
        s,
        6 + texts.name + texts.description + 1,
        texts.other,
        out,
        usage,
    )
}

// The options, flags and children of a node of that depth, from the frames after it.
fn put_lists(below: &[u8], depth: usize, out: &mut [u8], at: usize) -> usize
    requires { (length below.now ≤ image_limit) × (at ≤ 67000) × (depth < 256) }
    ensures { Inked (lists depth (frames_of below.now)) out.old at result out.new }
{
    let options = put_titled(b"\nOptions:\n", below, Listing::Options, out, at);
    let flags = put_titled(b"\nFlags:\n", below, Listing::Flags, out, options);
    put_titled(
        b"\nSubcommands:\n",
        below,
        Listing::Subcommands { depth: depth + 1 },
        out,
        flags,
    )
}

// The help of the node that the frames begin with.
fn put_help(frames: &[u8], line: &[u8], out: &mut [u8]) -> usize
    requires { (length frames.now ≤ image_limit) × (length line.now ≤ line_limit) }
    ensures { Inked (help_text (words_between line.now) (frames_of frames.now)) out.old 0 result out.new }
{
    let Head::Node {
        depth,
        handler: _,
        texts,
    } = head_of(frames)
    else {
        return 0;
    };
    let at = put_about(frames, texts, line, out);
    put_lists(rest(frames, texts.size), depth, out, at)
}

// The help of the node that a subtree's frames begin with, under the words of a line that lead to it.
pub fn show_help(frames: &[u8], line: &[u8], out: &mut [u8]) -> Result<usize, TooShort>
    requires { (length frames.now ≤ image_limit) × (length line.now ≤ line_limit) }
    ensures { Showing (help_text (words_between line.now) (frames_of frames.now)) out.old result out.new }
{
    show_by(|out| put_help(frames, line, out), out)
}

// All commands of an image with their children, between the fixed lines.
fn put_available(image: &[u8], out: &mut [u8]) -> usize
    requires { length image.now ≤ image_limit }
    ensures { Inked (available_text (frames_of image.now)) out.old 0 result out.new }
{
    let start = put(b"ArceOS Shell - Available Commands:\n\n", out, 0);
    let end = put_rows(image, Listing::Commands, out, start);
    put(
        b"\nBuilt-in Commands:\n  help            Show help information\n  help <command>  Show help for a specific command\n  clear           Clear the screen\n  exit/quit       Exit the shell\n\nTip: Use 'help <command>' to see detailed usage of a command\n",
        out,
        end,
    )
}

// The list of all commands of an image.
pub fn show_available_commands(image: &[u8], out: &mut [u8]) -> Result<usize, TooShort>
    requires { length image.now ≤ image_limit }
    ensures { Showing (available_text (frames_of image.now)) out.old result out.new }
{
    show_by(|out| put_available(image, out), out)
}
