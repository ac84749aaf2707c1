//! Calls whose answer is to find room, as C makes them: scans in so many rows and bytes, and polls in so many bytes.
//!
//! ```text
//! the keys are "a" "b" "c", each with a value of 3 bytes    number   answer      out                          the event
//! ripsawbean_scan     from "" to the end, rows 2            0        9 rows, 2   "a", "b", an end at "c"      scan 10 - c
//! ripsawbean_scan     from "c" to the end, rows 2           0        9 rows, 1   "c"                          scan 10 c -
//! ripsawbean_scan     from "" below "b", bytes 20           0        9 rows, 1   "a", an end at "a\0"         scan 10 - a%00
//! ripsawbean_scan     from "" below "", has_high 1          4                                                 none
//! ```
//!
//! | Number | What it says |
//! |---|---|
//! | 0 | the call was made, the answer says what came of it, and its bytes are shown |
//! | 4 | a bound has more than 257 bytes, or the high one has none; no call was made |
//! | 6 | the seat is not 0 to 63; no call was made. It is tested before the bounds |
//! | 12 | no memory for a bound, the key at which the scan ends, or the messages that are looked at; no call was made |
//! | 13 | no position is left; no call was made. It is tested before memory is asked for |
//! | 14 | the call was made and its answer told; its bytes ran out of memory: `ripsawbean_bytes` tries again |
//! | 16 | the handle is closed; nothing was done. It is tested before all else |

ghost use Rattle.std.specs.Prelude.{◌≡◌, None, Some, IfOk, IfErr, if◌then◌else◌};
ghost use Rattle.embedded.specs.declared.bounded.Bounded.TheVariants.{Poll, Scan, ScanAt};
ghost use Rattle.ripsawbean.specs.BoundedExports.{MadePollWithin, MadeScan, low_of, span_fault, span_of, BoundedOf};
ghost use Rattle.ripsawbean.specs.TypedExports.{Answered, OfHandle, ShownBytes, IsOf, number_of};

use crate::handle::Handle;
use crate::typed::{Unfit, bytes, no_answer, number};
use crate::{NO_MEMORY, SESSION, SPENT};
use embedded::{Answer, Bounded, BoundedError, Database};
use spans::bound::MAX_BOUND_BYTES;
use spans::{Bound, Span};
use std::alloc::Global;

/// Reads the keys of a span in a transaction, as far as their rows find room: at most `rows` rows, of at most `bytes`
/// bytes together, but the first row in any case. A row has the bytes of its key and its value, and 17 more. The event is
/// that of the scan of the span's longest beginning of which the rows find room, or of that up to just behind the first.
///
/// No `low` bytes are no low bound, and without `has_high` there is no high one. The rows are shown as
/// [`ripsawbean_poll`](crate::typed::ripsawbean_poll) shows those of a feed, with the scan's timestamp. Behind them stands
/// a message of kind 3, unless the event's span has no high bound: that bound is its key. Where it isn't the caller's own,
/// the next scan goes on there.
#[unsafe(no_mangle)]
pub extern "C" fn ripsawbean_scan(
    alloc: Global,
    handle: &mut Handle,
    seat: u8,
    timestamp: u64,
    low: &[u8],
    high: &[u8],
    has_high: u8,
    rows: u64,
    bytes: u64,
    out: &mut [u8],
    length: &mut usize,
    answer: &mut Answer,
) -> u8
    ensures made { MadeScan seat low.now has_high high.now (Scan timestamp (span_of low.now has_high high.now) rows bytes) handle.old.database result handle.new.database }
    ensures answer { Answered result handle.new.database answer.new }
    ensures rows { ShownBytes result handle.new.database out.old out.new length.new }
{
    let cmd = span_of(alloc, low, has_high, high).map(|span| Bounded::Scan {
        ts: timestamp,
        span,
        rows,
        bytes,
    });
    show(alloc, handle, seat, cmd, out, length, answer)
}

/// The same at a closed timestamp, of what was committed there.
#[unsafe(no_mangle)]
pub extern "C" fn ripsawbean_scan_at(
    alloc: Global,
    handle: &mut Handle,
    seat: u8,
    timestamp: u64,
    low: &[u8],
    high: &[u8],
    has_high: u8,
    rows: u64,
    bytes: u64,
    out: &mut [u8],
    length: &mut usize,
    answer: &mut Answer,
) -> u8
    ensures made { MadeScan seat low.now has_high high.now (ScanAt timestamp (span_of low.now has_high high.now) rows bytes) handle.old.database result handle.new.database }
    ensures answer { Answered result handle.new.database answer.new }
    ensures rows { ShownBytes result handle.new.database out.old out.new length.new }
{
    let cmd = span_of(alloc, low, has_high, high).map(|span| Bounded::ScanAt {
        t: timestamp,
        span,
        rows,
        bytes,
    });
    show(alloc, handle, seat, cmd, out, length, answer)
}

/// Takes the next messages of a feed, `most` at most, as far as they have at most `bytes` bytes together, but the first in
/// any case, and shows them as [`ripsawbean_poll`](crate::typed::ripsawbean_poll) does. The event is that of the poll of so
/// many.
#[unsafe(no_mangle)]
pub extern "C" fn ripsawbean_poll_within(
    alloc: Global,
    handle: &mut Handle,
    seat: u8,
    feed: u64,
    most: u64,
    bytes: u64,
    out: &mut [u8],
    length: &mut usize,
    answer: &mut Answer,
) -> u8
    ensures made { MadePollWithin seat (Poll feed most bytes) handle.old.database result handle.new.database }
    ensures answer { Answered result handle.new.database answer.new }
    ensures messages { ShownBytes result handle.new.database out.old out.new length.new }
{
    let cmd = Ok(Bounded::Poll {
        feed,
        max: most,
        bytes,
    });
    show(alloc, handle, seat, cmd, out, length, answer)
}

/// The span from the low bytes to the high ones. A fault is told before memory is asked for.
fn span_of(alloc: Global, low: &[u8], has_high: u8, high: &[u8]) -> Result<Span, Unfit>
    ensures { IsOf (span_fault low.now has_high high.now) (Unit {0}) (span_of low.now has_high high.now) result }
{
    if has_fault(low, has_high, high) {
        return Err(Unfit::KeyLength);
    }
    let lo = bound_of(alloc, low)?;
    let hi = bound_of(alloc, if has_high == 0 { &[] } else { high })?;
    Ok(Span { lo, hi })
}

/// Whether a bound has too many bytes, or the high one has none.
fn has_fault(low: &[u8], has_high: u8, high: &[u8]) -> bool
    ensures { span_fault low.now has_high high.now ≡ (if result then Some 4 else None) }
{
    low.len() > MAX_BOUND_BYTES
        || has_high != 0 && (high.is_empty() || high.len() > MAX_BOUND_BYTES)
}

/// The bound of bytes; none of no bytes. `has_fault` has looked at their length, so only memory can be wanting.
fn bound_of(alloc: Global, bytes: &[u8]) -> Result<Option<Bound>, Unfit>
    ensures ok { IfOk result (λ bound. bound ≡ low_of bytes.now) }
    ensures err { IfErr result (λ unfit. number_of unfit ≡ 12) }
{
    if bytes.is_empty() {
        return Ok(None);
    }
    Bound::new(alloc, bytes)
        .map(Some)
        .map_err(|_| Unfit::NoMemory)
}

/// The call of a command on a handle's database, or why there is none, by its number; and the bytes of its answer.
fn show(
    alloc: Global,
    handle: &mut Handle,
    seat: u8,
    cmd: Result<Bounded, Unfit>,
    out: &mut [u8],
    length: &mut usize,
    answer: &mut Answer,
) -> u8
    ensures made { OfHandle (BoundedOf seat cmd) handle.old.database result handle.new.database }
    ensures answer { Answered result handle.new.database answer.new }
    ensures bytes { ShownBytes result handle.new.database out.old out.new length.new }
{
    *length = 0;
    *answer = no_answer();
    with_open!(handle, alloc, database => match call(&mut database, seat, cmd, answer) {
        0 => bytes(&database, out, length),
        number => number,
    })
}

/// The call of a command on a database, or why there is none, by its number.
fn call(database: &mut Database, seat: u8, cmd: Result<Bounded, Unfit>, answer: &mut Answer) -> u8
    ensures made { BoundedOf seat cmd database.old result database.new }
    ensures unshown { (result ≡ 14) → ⊥ }
    ensures answer { Answered result (Some database.new) answer.new }
{
    *answer = no_answer();
    if seat > 63 {
        return SESSION;
    }
    match cmd {
        Err(Unfit::NoMemory) if database.is_spent() => SPENT,
        Err(unfit) => number(unfit),
        Ok(cmd) => match database.make_within(seat, cmd) {
            Err(BoundedError::NoMemory) => NO_MEMORY,
            Err(BoundedError::NoPosition) => SPENT,
            Ok(()) => {
                *answer = database.answer();
                0
            }
        },
    }
}
