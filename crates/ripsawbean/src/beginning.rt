//! The function that opens a replica with rows, which C calls: what a scan found at the feed's cursor, or what another
//! replica had that was told all through there.
//!
//! ```text
//!                             line            rows        number   told
//! ripsawbean_replica_begin    0 open - - 5    row a 1     0
//! ripsawbean_replica_rows                                 0        row a 1
//! ripsawbean_replica_begin    0 open - - 5    row a 1     17
//! ```

ghost use Rattle.std.specs.Prelude.{◌≡◌};
ghost use Rattle.ripsawbean.specs.Prelude.{IsUnseeded};
ghost use Rattle.embedded_replica.specs.declared.consumer.SeedingError.TheVariants.{NoMemory};
ghost use Rattle.ripsawbean.specs.ReplicaExports.{Begun, begin_number};

use crate::replica_handle::ReplicaHandle;
use crate::replicas::{NO_FEED, NO_MESSAGE, NOT_AFTER, OUTSIDE_SPAN};
use crate::{NO_MEMORY, OPEN};
use embedded_replica::{Consumer, SeedingError};
use std::alloc::Global;

/// Opens a closed handle on a replica of the feed, no initial one, that the line's command opens, with its newline. It
/// begins with rows: lines of a scan's rows, as `ripsawbean_replica_rows` shows them, or no bytes.
///
/// 0: it is open. Else all is as it was. 17: the handle is open, which is looked at first. 1 to 9: the line's fault by
/// its code. 22: the command opens no feed, or an initial one, or one above the greatest timestamp. 18: the text isn't
/// lines of rows. 19: their keys don't rise. 20: a key lies outside the span. 12: there is no memory.
#[unsafe(no_mangle)]
pub extern "C" fn ripsawbean_replica_begin(
    alloc: Global,
    handle: &mut ReplicaHandle,
    line: &[u8],
    rows: &[u8],
) -> u8
    ensures begun { Begun line.now rows.now handle.old.consumer result handle.new.consumer }
    // 12 is told only of a line that may want memory to be read, or opens a feed.
    ensures memory { result ≡ 12 → IsUnseeded line.now rows.now NoMemory }
{
    if handle.is_open(alloc) {
        return OPEN;
    }
    let consumer = match Consumer::begin(alloc, line, rows) {
        Ok(consumer) => consumer,
        Err(error) => return begin_number(error),
    };
    let Ok(consumer) = Box::new(alloc, consumer) else {
        return NO_MEMORY;
    };
    handle.put(consumer);
    0
}

/// The number that tells of an error.
fn begin_number(error: SeedingError) -> u8
    ensures number { result ≡ begin_number error }
    ensures memory { result ≡ 12 → error ≡ NoMemory }
{
    match error {
        SeedingError::Fault(fault) => fault.code(),
        SeedingError::NoFeed => NO_FEED,
        SeedingError::Rows(_) => NO_MESSAGE,
        SeedingError::NotAfter => NOT_AFTER,
        SeedingError::OutsideSpan => OUTSIDE_SPAN,
        SeedingError::NoMemory => NO_MEMORY,
    }
}
