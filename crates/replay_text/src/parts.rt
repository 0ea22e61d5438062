// What the crate text says of one text: its first character's code, what trimming leaves, and its words.
use replay::line::Bytes;
use std::fmt;
use text::{Decoded, decode, is_blank, next_word, trim};

// Puts the code of the first character, '-' where none begins the text.
pub fn put_first<W: fmt::Write>(s: &[u8], line: &mut W) -> fmt::Result {
    match decode(s, 0) {
        Decoded::Character { code, length: _ } => write!(line, "{code:x}"),
        Decoded::IllFormed | Decoded::End => write!(line, "-"),
    }
}

// Puts whether the text is blank, and the bytes that trimming leaves.
pub fn put_trimmed<W: fmt::Write>(s: &[u8], line: &mut W) -> fmt::Result {
    let kind = if is_blank(s) { "blank" } else { "text" };
    write!(line, " {kind} {}", Bytes(trim(s)))
}

// Puts where each word lies. A text of 512 bytes has at most 256 words, so that past 300 the search doesn't advance.
pub fn put_words<W: fmt::Write>(s: &[u8], line: &mut W) -> fmt::Result {
    let mut from = 0;
    for _ in 0..300 {
        let Some(word) = next_word(s, from) else {
            return Ok(());
        };
        write!(line, " {}-{}", word.start, word.end)?;
        from = word.end;
    }
    write!(line, " and more words")
}
