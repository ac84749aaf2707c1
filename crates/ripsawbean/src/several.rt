//! The calls of several lines at once, as C makes them.

ghost use Rattle.std.specs.Prelude.{Some};
ghost use Rattle.ripsawbean.specs.SeveralExports.{Called};

use crate::handle::Handle;
use crate::number;
use embedded::{Database, Done, Taken};
use std::alloc::Global;

/// Makes the calls of lines, one after another, each with its newline; shows their texts one behind another in `out`, and
/// notes in `notes` what became of each line: its status, and how many bytes its text has. `taken` tells how many lines
/// were taken, how many bytes they have, and how many bytes of texts stand in `out`.
///
/// A faulty line ends nothing: its note has its fault's code. Nor does a scan or a poll whose answer would have more than
/// `most` bytes of rows or messages, where `most` isn't the greatest number: it makes no call, and its note has 25.
///
/// 0: all lines were taken, or `notes` is full. At any other number what was taken stands, and no line behind the next one
/// was looked at. 14: the last line's call was made, and its text found no room or no memory; `ripsawbean_text` shows it.
/// 12: it is out of memory at the next line. 13: there is no position for it. 16: the handle is closed.
#[unsafe(no_mangle)]
pub extern "C" fn ripsawbean_calls(
    alloc: Global,
    handle: &mut Handle,
    lines: &[u8],
    out: &mut [u8],
    notes: &mut [Done],
    most: u64,
    taken: &mut Taken,
) -> u8
    ensures { Called lines.now most handle.old.database out.old out.new notes.old notes.new taken.new result handle.new.database }
{
    *taken = Taken {
        lines: 0,
        bytes: 0,
        length: 0,
    };
    with_open!(handle, alloc, database => calls(&mut database, lines, out, notes, most, taken))
}

/// The lines' calls, with the number that tells why they end.
fn calls(
    database: &mut Database,
    lines: &[u8],
    out: &mut [u8],
    notes: &mut [Done],
    most: u64,
    taken: &mut Taken,
) -> u8
    ensures { Called lines.now most (Some database.old) out.old out.new notes.old notes.new taken.new result (Some database.new) }
{
    let (told, result) = database.call_lines(lines, out, notes, most);
    *taken = told;
    match result {
        Ok(()) => 0,
        Err(error) => number(error),
    }
}
