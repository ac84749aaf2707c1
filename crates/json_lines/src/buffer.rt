//! All or nothing at the end of a buffer, and a text copied to its front.
//!
//! A function `put_..` writes at the end, and where memory runs out a part may stand there. What is
//! offered to a caller of its own is called `write_..`, and then takes that part away again.
ghost use Rattle.std.specs.Prelude.{◌≡◌, take, OnOk, OnErr};
ghost use Rattle.json_lines.specs.Messages.{Copied};

use std::alloc::AllocError;

/// Cuts the buffer to its length before, where writing failed.
pub fn or_undo(
    out: &mut Vec<u8>,
    length_before: usize,
    written: Result<(), AllocError>,
) -> Result<(), AllocError>
    ensures written { result ≡ written }
    ensures ok { OnOk result (out.new.items ≡ out.old.items) }
    ensures err { OnErr result (out.new.items ≡ take length_before out.old.items) }
{
    if written.is_err() {
        out.truncate(length_before);
    }
    written
}

/// Copies a text to the front as far as there is room, and tells its whole length.
pub fn copy_front(text: &[u8], out: &mut [u8]) -> usize
    ensures { Copied text.now out.old out.new result }
{
    let count = text.len().min(out.len());
    out[..count].copy_from_slice(&text[..count]);
    text.len()
}
