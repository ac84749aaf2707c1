//! The functions of a replica, which C calls: the consumer's half of a feed.
//!
//! A program owns a [`ReplicaHandle`], all zero bytes at first. `ripsawbean_replica_open` puts the replica behind it of
//! the feed that a line opens, `ripsawbean_replica_begin` one that begins with rows, and `ripsawbean_replica_close`
//! frees it again. Between them the lines of the feed's messages are taken. The rules of handles, pointers, threads and
//! memory are those of the database's functions.
//!
//! ```text
//!                             line                                           number   told
//! ripsawbean_replica_open     0 open - - 5                                   0
//! ripsawbean_replica_take     {"after":"MQ==","key":"YQ==","updated":"10"}   0
//! ripsawbean_replica_take     {"after":"MQ==","key":"YQ==","updated":"10"}   19
//! ripsawbean_replica_ready    {"after":"Mg==","key":"Yg==","updated":"20"}   0        at 19
//! ripsawbean_replica_complete                                                0        through 9, at none
//! ripsawbean_replica_rows                                                    0        row a 1
//! ```
//!
//! The table of numbers stands at the crate's head.

ghost use Rattle.std.specs.Prelude.{◌≡◌, None};
ghost use Rattle.ripsawbean.specs.Prelude.{IsUnopened};
ghost use Rattle.embedded_replica.specs.declared.consumer.BeginError.TheVariants.{NoMemory};
ghost use Rattle.ripsawbean.specs.ReplicaExports.{Opened, Taken, Told, NoTime, Hidden, ReadyBy, CompleteBy, GotBy, RowsBy, number_or_none, open_number, line_number, take_number};

use crate::replica_handle::ReplicaHandle;
use crate::{KEY_LENGTH, NO_MEMORY, OPEN};
use embedded_replica::{BeginError, Consumer, TakeError};
use json_lines::MessageFault;
use replica::Fault;
use std::alloc::Global;
use timestamps::KeyError;

/// The line is no message of a feed, or the text has a line that is none of a row.
pub(crate) const NO_MESSAGE: u8 = 18;
/// A row comes too early.
pub(crate) const NOT_AFTER: u8 = 19;
/// A row lies outside the span.
pub(crate) const OUTSIDE_SPAN: u8 = 20;
/// A resolved timestamp comes too early.
const RESOLVED_BACK: u8 = 21;
/// The line's command opens no feed.
pub(crate) const NO_FEED: u8 = 22;
/// The key has no value.
const NO_VALUE: u8 = 23;
/// No timestamp.
const NONE: u64 = 18446744073709551615;

/// Opens a closed handle on the empty replica of the feed that the line's command opens, with its newline.
///
/// 0: it is open. Else all is as it was. 17: the handle is open, which is looked at first. 1 to 9: the line's fault by
/// its code. 22: the command opens no feed, or opens it above the greatest timestamp. 12: there is no memory.
#[unsafe(no_mangle)]
pub extern "C" fn ripsawbean_replica_open(
    alloc: Global,
    handle: &mut ReplicaHandle,
    line: &[u8],
) -> u8
    ensures opened { Opened line.now handle.old.consumer result handle.new.consumer }
    // 12 is told only of a line that may want memory to be read, or opens a feed.
    ensures memory { result ≡ 12 → IsUnopened line.now NoMemory }
{
    if handle.is_open(alloc) {
        return OPEN;
    }
    let consumer = match Consumer::open(alloc, line) {
        Ok(consumer) => consumer,
        Err(error) => return open_number(error),
    };
    let Ok(consumer) = Box::new(alloc, consumer) else {
        return NO_MEMORY;
    };
    handle.put(consumer);
    0
}

/// Takes the line of a message, with its newline.
///
/// 0: it was taken. Else nothing changed. 18: the line is no message's. 19: its row comes at or before what was taken.
/// 20: its row lies outside the span. 21: its resolved timestamp comes at or before what was taken. 12: there is no
/// memory, which a resolved message never wants. 16: the handle is closed.
#[unsafe(no_mangle)]
pub extern "C" fn ripsawbean_replica_take(
    alloc: Global,
    handle: &mut ReplicaHandle,
    line: &[u8],
) -> u8
    ensures { Taken line.now handle.old.consumer result handle.new.consumer }
{
    with_open!(handle, alloc, consumer => match consumer.take(line) {
        Ok(()) => 0,
        Err(error) => take_number(error),
    })
}

/// Tells at which timestamp the rows are the map as they stand, where the line's message shows it, which is to be taken
/// next.
///
/// 0: `at` is that timestamp, or 18446744073709551615 where there is none, as at every other number. 18: the line is no
/// message's. 12: there is no memory, which a resolved message never wants. 16: the handle is closed.
#[unsafe(no_mangle)]
pub extern "C" fn ripsawbean_replica_ready(
    alloc: Global,
    handle: &mut ReplicaHandle,
    line: &[u8],
    at: &mut u64,
) -> u8
    ensures ready { Told (ReadyBy line.now at.new) handle.old.consumer result handle.new.consumer }
    ensures none { NoTime result at.new }
{
    *at = NONE;
    with_open!(handle, alloc, consumer => match consumer.ready(line) {
        Ok(time) => {
            *at = number_or_none(time);
            0
        }
        Err(fault) => line_number(fault),
    })
}

/// Tells through which timestamp it was told all; and at which its rows are the map, after a resolved message, and of a
/// feed that isn't initial also at first.
///
/// 0: each is that timestamp, or 18446744073709551615 where there is none, as at every other number. 16: the handle is
/// closed.
#[unsafe(no_mangle)]
pub extern "C" fn ripsawbean_replica_complete(
    alloc: Global,
    handle: &mut ReplicaHandle,
    through: &mut u64,
    at: &mut u64,
) -> u8
    ensures complete { Told (CompleteBy through.new at.new) handle.old.consumer result handle.new.consumer }
    ensures through { NoTime result through.new }
    ensures at { NoTime result at.new }
{
    *through = NONE;
    *at = NONE;
    with_open!(handle, alloc, consumer => {
        *through = number_or_none(consumer.complete_through());
        *at = number_or_none(consumer.at_resolved());
        0
    })
}

/// Shows the value of a key.
///
/// 0: `out` begins with as much of the value as there is room for, and `length` is the whole value's. At every other
/// number `out` is as it was and `length` is 0. 23: the key has no value. 4: there is no byte, or more than 256. 12:
/// there is no memory for a key of more than 24 bytes. 16: the handle is closed.
#[unsafe(no_mangle)]
pub extern "C" fn ripsawbean_replica_get(
    alloc: Global,
    handle: &mut ReplicaHandle,
    key: &[u8],
    out: &mut [u8],
    length: &mut usize,
) -> u8
    ensures got { Told (GotBy key.now out.old out.new length.new) handle.old.consumer result handle.new.consumer }
    ensures hidden { Hidden result out.old out.new length.new }
{
    *length = 0;
    with_open!(handle, alloc, consumer => match consumer.get(key, out) {
        Ok(Some(whole)) => {
            *length = whole;
            0
        }
        Ok(None) => NO_VALUE,
        Err(KeyError::KeyLength) => KEY_LENGTH,
        Err(KeyError::NoMemory) => NO_MEMORY,
    })
}

/// Shows the lines of all rows, keys rising: `row KEY VALUE`, spelled as in a scan's text.
///
/// 0: `out` begins with as much of the lines as there is room for, and `length` is the whole length. At every other
/// number `out` is as it was and `length` is 0. 12: there is no memory for the lines. 16: the handle is closed.
#[unsafe(no_mangle)]
pub extern "C" fn ripsawbean_replica_rows(
    alloc: Global,
    handle: &mut ReplicaHandle,
    out: &mut [u8],
    length: &mut usize,
) -> u8
    ensures rows { Told (RowsBy out.old out.new length.new) handle.old.consumer result handle.new.consumer }
    ensures hidden { Hidden result out.old out.new length.new }
{
    *length = 0;
    with_open!(handle, alloc, consumer => match consumer.rows(out) {
        Ok(whole) => {
            *length = whole;
            0
        }
        Err(_) => NO_MEMORY,
    })
}

/// Frees the replica of a handle, which is closed afterwards; a closed one stays closed.
#[unsafe(no_mangle)]
pub extern "C" fn ripsawbean_replica_close(alloc: Global, handle: &mut ReplicaHandle)
    ensures { handle.new.consumer ≡ None }
{
    if let Some(consumer) = handle.take(alloc) {
        consumer.drop();
    }
}

/// A timestamp as a number.
pub(crate) fn number_or_none(time: Option<u64>) -> u64
    ensures { result ≡ number_or_none time }
{
    time.unwrap_or(NONE)
}

fn open_number(error: BeginError) -> u8
    ensures number { result ≡ open_number error }
    ensures memory { result ≡ 12 → error ≡ NoMemory }
{
    match error {
        BeginError::Fault(fault) => fault.code(),
        BeginError::NoFeed => NO_FEED,
        BeginError::NoMemory => NO_MEMORY,
    }
}

fn take_number(error: TakeError) -> u8
    ensures { result ≡ take_number error }
{
    match error {
        TakeError::Line(fault) => line_number(fault),
        TakeError::Message(Fault::NotAfter) => NOT_AFTER,
        TakeError::Message(Fault::OutsideSpan) => OUTSIDE_SPAN,
        TakeError::Message(Fault::ResolvedBack) => RESOLVED_BACK,
        TakeError::Message(Fault::NoMemory) => NO_MEMORY,
    }
}

fn line_number(fault: MessageFault) -> u8
    ensures { result ≡ line_number fault }
{
    match fault {
        MessageFault::NoMemory => NO_MEMORY,
        _ => NO_MESSAGE,
    }
}
