//! Texts as rows write them.
use std::alloc::{AllocError, Global};

/// The text that a row's text stands for: `|` ends a line, `'` is a quotation mark, `^` the byte 255, and `~3*ab;` is
/// `ababab`.
pub(super) fn unfolded(alloc: Global, text: &str) -> Result<Vec<u8>, AllocError> {
    let mut out = Vec::new(alloc);
    for part in text.split('~') {
        match part.split_once('*') {
            None => put(&mut out, part)?,
            Some((count, piece)) => put_times(&mut out, count, piece)?,
        }
    }
    Ok(out)
}

/// Puts a piece many times, and what stands behind its end.
fn put_times(out: &mut Vec<u8>, count: &str, piece: &str) -> Result<(), AllocError> {
    let (piece, rest) = piece.split_once(';').unwrap_or((piece, ""));
    for _ in 0..count.parse::<u64>().unwrap_or(0) {
        put(out, piece)?;
    }
    put(out, rest)
}

fn put(out: &mut Vec<u8>, text: &str) -> Result<(), AllocError> {
    for byte in text.as_bytes() {
        out.push(match byte {
            b'|' => b'\n',
            b'\'' => b'"',
            b'^' => 255,
            other => *other,
        })?;
    }
    Ok(())
}
