//! Texts as cases write them, and their words.
use std::alloc::{AllocError, Global};

/// The text that a case's text stands for: `'` is a quotation mark, `~3*ab;` is `ababab`, and `$` at the end takes the
/// last newline away.
pub(super) fn unfolded(alloc: Global, text: &str) -> Result<Vec<u8>, AllocError> {
    let text = text.strip_suffix("$\n").unwrap_or(text);
    let mut out = Vec::new(alloc);
    for part in text.split('~') {
        match part.split_once('*') {
            None => put(&mut out, part)?,
            Some((count, piece)) => put_times(&mut out, count, piece)?,
        }
    }
    Ok(out)
}

/// Puts a piece many times, and what stands behind its end.
fn put_times(out: &mut Vec<u8>, count: &str, piece: &str) -> Result<(), AllocError> {
    let (piece, rest) = piece.split_once(';').unwrap_or((piece, ""));
    for _ in 0..count.parse::<u64>().unwrap_or(0) {
        put(out, piece)?;
    }
    put(out, rest)
}

fn put(out: &mut Vec<u8>, text: &str) -> Result<(), AllocError> {
    for byte in text.as_bytes() {
        out.push(if *byte == b'\'' { b'"' } else { *byte })?;
    }
    Ok(())
}

/// The words of a line that are left.
#[derive(Drop)]
pub(super) struct Words<'a> {
    rest: &'a str,
}

impl<'a> Words<'a> {
    pub(super) fn new(rest: &'a str) -> Words<'a> {
        Words { rest }
    }

    /// The next word, of no letter behind the last.
    pub(super) fn word(&mut self) -> &'a str {
        let (word, rest) = self.rest.split_once(' ').unwrap_or((self.rest, ""));
        self.rest = rest;
        word
    }

    /// The next word as a number, if it is one.
    pub(super) fn number(&mut self) -> Option<u64> {
        self.word().parse::<u64>().ok()
    }
}
