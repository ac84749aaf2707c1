//! Which growths the script refuses: all of a test, or those alone that come while they may be refused.
//!
//! The script sees what is asked for. So a request for as many bytes as nothing else asks for tells it what it may do
//! from there on. Its answer plays no part.

use std::alloc::{AllocError, Global};

/// Behind a request for so many bytes growths are refused in turn.
const MAY_BE_REFUSED: usize = 7_000_001;

/// Behind a request for so many bytes none is refused.
const ARE_GRANTED: usize = 7_000_000;

/// From here on a growth may be refused.
pub(super) fn may_be_refused(alloc: Global) {
    let _ = ask(alloc, MAY_BE_REFUSED);
}

/// From here on every growth is granted.
pub(super) fn are_granted(alloc: Global) {
    let _ = ask(alloc, ARE_GRANTED);
}

// A call of its own, because a request whose answer plays no part could be left out.
#[inline(never)]
fn ask(alloc: Global, bytes: usize) -> Result<Vec<u8>, AllocError> {
    Vec::with_capacity(alloc, bytes)
}
