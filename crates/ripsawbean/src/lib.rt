//! The database as a static library: functions that C calls, and by C every language that can.
//!
//! A program owns a [`Handle`], all zero bytes at first. `ripsawbean_open` puts a database behind it, and
//! `ripsawbean_close` frees that again. A call takes the line of a command, and shows the text of its event: all of it
//! or its beginning, and its whole length. `ripsawbean_calls`, in `several`, makes the calls of several lines at once, and
//! the calls in `typed` have a command's parts as arguments, in place of a line, as do those in `bounded`, whose answers
//! are to find room. `looks` and `dump` tell what is asked without a call. The wrappers in `embed` call all of them, and
//! any program that can call C. A handle of another kind owns the replica of a feed's span: its functions stand in
//! `replicas`.
//!
//! 1. A handle that is open owns one database and the right to free it; a closed one owns nothing.
//! 2. A function that answers gives a number. The program's memory then follows from that number alone; that of
//!    `ripsawbean_calls` from the notes too.
//!
//! ```text
//!                                             number   length   out              the handle's history
//! ripsawbean_open   ring 64                   0                                  no event
//! ripsawbean_call   "0 begin 10\n"   room 4   0        24       0 0              0 0 begin 10 => started
//! ripsawbean_text                    room 64  0        24       its 24 bytes     (as before)
//! ripsawbean_call   "0 begin\n"      room 64  1        0        (as before)      (as before)
//! ripsawbean_last                             0                 1 begin, at 10   (as before)
//! ripsawbean_state                   room 4   0        206      {"ki             (as before)
//! ripsawbean_places  feed 1                   0                 reached 10 ..    (as before)
//! ripsawbean_close                                                               none: it is closed
//! ripsawbean_call   "0 begin 20\n"   room 64  16       0        (as before)      none
//! ```
//!
//! | Number | What it says |
//! |---|---|
//! | 0 | done |
//! | 1 to 9 | the line's fault by its code; 3 to 6 also of a number, a key, a value or a seat without a line |
//! | 12 | no memory for a line, a key, a value or what is asked for |
//! | 13 | no position is left |
//! | 14 | no room or no memory for a text, or for an answer's bytes |
//! | 15 | the ring is out of range |
//! | 16 | the handle is closed |
//! | 17 | the handle is open |
//! | 18 | the line is no message's, or the text isn't lines of rows |
//! | 19 | a row comes too early, or the keys of rows don't rise |
//! | 20 | a row lies outside the span |
//! | 21 | a resolved timestamp comes too early |
//! | 22 | the line's command opens no feed, one above the greatest timestamp, or an initial one where rows are given |
//! | 23 | the key has no value |
//! | 24 | the timestamp is below the horizon |
//! | 25 | in a note of `ripsawbean_calls`: the line's answer would be too long |
//!
//! At a number from 1 on nothing was done, with two exceptions. At 14 a call that was made stands, and
//! `ripsawbean_text` or `ripsawbean_bytes` shows what it told. What `ripsawbean_calls` took and
//! `ripsawbean_versions_at` told before the number stands too. Each function tells its own numbers.
//!
//! A program owes pointers that aren't null, also to no bytes, and slices that don't overlap. Its handle is all zero
//! bytes or was left by these functions, isn't copied while it is open, and is used by one call at a time.
//!
//! Costs:
//!
//! - `ripsawbean_open`: O(1); `ripsawbean_close`: all that the database holds is freed
//! - `ripsawbean_call`: its line, the engine's step, and the text of its event
//! - `ripsawbean_calls`: the calls of the lines that are taken, and the bytes of their texts again
//! - the calls of `typed`: the engine's step, the bytes copied, and all messages of a poll
//! - the calls of `bounded`: the same, and a look at what is told before
//! - `ripsawbean_text`: the bytes copied, and the text where it wasn't written
//! - `ripsawbean_last`: O(1)
//! - `ripsawbean_state`, `ripsawbean_held_by`: the undecided transactions, the protections and the feeds, with a search for
//!   each, and its text, or those of the seat
//! - `ripsawbean_places`: O(log n), where n is all that the database holds
//! - `ripsawbean_versions_at`: the bytes of its keys, and for each a search for its version
//! - `ripsawbean_dump`: for each row a search for it, and its lines, and a look at one row more
//!
//! Memory is the program's own `malloc`, `realloc` and `free`. All but `ripsawbean_last`, `ripsawbean_places`,
//! `ripsawbean_version`, `ripsawbean_close` and `ripsawbean_abort` may take it.
//!
//! Tests: `embed/test`, `embed/random`, outside the gate.
#![tactic(auto)]

ghost use Rattle.std.specs.Prelude.{◌≡◌, None, IfSome, IfNone};
ghost use Rattle.ripsawbean.specs.Prelude.{NoMemory};
ghost use Rattle.text_format.specs.declared.Format.TheVariants.{Two};
ghost use Rattle.word_lines.specs.Reading.{byte_words_at, WantsMemory};
ghost use Rattle.word_lines.specs.Table.{table};
ghost use Rattle.ripsawbean.specs.Exports.{refusal_of, Opened, Numbered, Called, Asked, Rewritten, Told, ToldOf, number_of};

/// The number that is made of what an open handle keeps, which is put back behind it; a closed one tells that it is closed.
/// `$number` may not return, since the handle would stay closed.
macro_rules! with_open {
    ($handle:ident, $alloc:ident, $kept:ident => $number:expr) => {
        match $handle.take($alloc) {
            None => $crate::CLOSED,
            Some(mut $kept) => {
                let number = $number;
                $handle.put($kept);
                number
            }
        }
    };
}

mod beginning;
mod bounded;
mod dump;
mod handle;
mod looks;
mod loose;
mod replica_handle;
mod replicas;
mod several;
mod typed;
mod version;

use crate::handle::Handle;
use embedded::{CallError, Database};
use spans::limits::MAX_RING;
use std::alloc::Global;

/// A number is no timestamp.
const NUMBER: u8 = 3;
/// A key has no byte, or more than 256.
const KEY_LENGTH: u8 = 4;
/// A value has more than 65536 bytes.
const VALUE_LENGTH: u8 = 5;
/// No seat has the number.
const SESSION: u8 = 6;
/// No memory for a line, for a key or a value, or for a database.
const NO_MEMORY: u8 = 12;
/// No position is left.
const SPENT: u8 = 13;
/// No memory for a text.
const UNWRITTEN: u8 = 14;
/// The ring is out of range.
const RING: u8 = 15;
/// The handle is closed.
const CLOSED: u8 = 16;
/// The handle is open.
const OPEN: u8 = 17;

/// Opens a closed handle on a database with no event. `ring` is 1 to 65536, and has no effect.
///
/// 0: it is open. Else all is as it was. 15: the ring is out of range, which is looked at first. 17: the handle is
/// open. 12: there is no memory.
#[unsafe(no_mangle)]
pub extern "C" fn ripsawbean_open(alloc: Global, handle: &mut Handle, ring: u32) -> u8
    ensures refused { IfSome (refusal_of ring handle.old.database) (λ n. (result ≡ n) × (handle.new.database ≡ handle.old.database)) }
    ensures opened { IfNone (refusal_of ring handle.old.database) (Opened result handle.new.database) }
{
    if ring == 0 || ring > MAX_RING {
        return RING;
    }
    if handle.is_open(alloc) {
        return OPEN;
    }
    let Ok(database) = Box::new(alloc, Database::new(alloc, ring)) else {
        return NO_MEMORY;
    };
    handle.put(database);
    0
}

/// Makes the call of a line, with its newline, and shows the text of its event.
///
/// 0: the call was made, `out` begins with as much of the text as there is room for, and `length` is the whole text's.
/// At every other number `out` is as it was and `length` is 0. 1 to 9: the line's fault by its code. 12: no memory for
/// the line's key, value or span. 13: no position is left. 14: the call was made, and its text ran out of memory. 16: the handle is closed.
#[unsafe(no_mangle)]
pub extern "C" fn ripsawbean_call(
    alloc: Global,
    handle: &mut Handle,
    line: &[u8],
    out: &mut [u8],
    length: &mut usize,
) -> u8
    ensures called { Called line.now handle.old.database result handle.new.database }
    // 12 is told only of a key, a value or a bound that is a word of more than 24 bytes.
    ensures memory { result ≡ 12 → WantsMemory (byte_words_at Two table 64 line.now) }
    ensures text { Told result handle.old.database handle.new.database out.old out.new length.new }
{
    *length = 0;
    with_open!(handle, alloc, database => call(&mut database, line, out, length))
}

/// Shows the text of the last event again, as often as it is asked for; no call is made.
///
/// 0: `out` begins with as much of the text as there is room for, and `length` is the whole text's, or 0 where no call
/// was made yet. At every other number `out` is as it was and `length` is 0. 14: the text wasn't written, and finds no
/// memory. 16: the handle is closed.
#[unsafe(no_mangle)]
pub extern "C" fn ripsawbean_text(
    alloc: Global,
    handle: &mut Handle,
    out: &mut [u8],
    length: &mut usize,
) -> u8
    ensures asked { Asked handle.old.database result handle.new.database }
    ensures text { Told result handle.old.database handle.new.database out.old out.new length.new }
{
    *length = 0;
    with_open!(handle, alloc, database => text(&mut database, out, length))
}

/// Frees the database of a handle, which is closed afterwards; a closed one stays closed.
#[unsafe(no_mangle)]
pub extern "C" fn ripsawbean_close(alloc: Global, handle: &mut Handle)
    ensures { handle.new.database ≡ None }
{
    if let Some(database) = handle.take(alloc) {
        database.drop();
    }
}

/// A call of a line, with the number that tells of it.
fn call(database: &mut Database, line: &[u8], out: &mut [u8], length: &mut usize) -> u8
    ensures called { Numbered line.now database.old result database.new }
    ensures memory { result ≡ 12 → WantsMemory (byte_words_at Two table 64 line.now) }
    ensures text { ToldOf result database.old database.new out.old out.new length.new }
{
    *length = 0;
    match database.call(line) {
        Ok(()) => {
            *length = database.copy_text(out);
            0
        }
        Err(error) => number(error),
    }
}

/// The last event's text, with the number that tells of it.
fn text(database: &mut Database, out: &mut [u8], length: &mut usize) -> u8
    ensures asked { Rewritten database.old result database.new }
    ensures text { ToldOf result database.old database.new out.old out.new length.new }
{
    *length = 0;
    match database.write() {
        Ok(()) => {
            *length = database.copy_text(out);
            0
        }
        Err(_) => UNWRITTEN,
    }
}

/// The number of a call that shows no text.
fn number(error: CallError) -> u8
    ensures number { result ≡ number_of error }
    ensures memory { result ≡ 12 → error ≡ NoMemory }
{
    match error {
        CallError::Fault(fault) => fault.code(),
        CallError::NoMemory => NO_MEMORY,
        CallError::Spent => SPENT,
        CallError::Unwritten => UNWRITTEN,
    }
}
