//! The exports for C whose command is given in parts, one for each command, and the one that shows a value's bytes again:
//! the same events as by lines, and no text is read or written.
//!
//! ```text
//!                                                       number   answer       length   out
//! ripsawbean_begin     seat 0, 10                       0        1 started
//! ripsawbean_put       seat 0, 10, "a", "1"             0        4 written
//! ripsawbean_get       seat 0, 10, "a"       room 8     0        3 value, 1   1        1
//! ripsawbean_get       seat 0, 10, ""        room 8     4        0            0        (as before)
//! ripsawbean_commit    seat 0, 10                       0        5 committed, 1
//! ripsawbean_text                            room 64    0                     29       3 0 commit 10 => committed 1
//! ```
//!
//! | Number | What it says | By |
//! |---|---|---|
//! | 0 | the call was made, and the answer says what came of it; of bytes, they are shown | all |
//! | 4 | the key has no byte, or more than 256; no call was made | get, put, delete, read_at |
//! | 5 | the value has more than 65536 bytes; no call was made | put |
//! | 6 | the seat is not 0 to 63; no call was made. It is tested first, then the key, then the value | all but bytes |
//! | 12 | no memory for a key or a value of more than 24 bytes; no call was made | get, put, delete, read_at |
//! | 13 | no position is left; no call was made | all but bytes |
//! | 14 | the call was made and its answer told; its messages or rows ran out of memory: `ripsawbean_bytes` tries again | poll, bytes |
//! | 16 | the handle is closed; nothing was done. It is tested before all else | all |

ghost use Rattle.std.specs.Prelude.{◌≡◌, ◌⊎◌, Some, false, IfOk};
ghost use Rattle.spans.specs.declared.calls.commands.Cmd.TheVariants.{Begin, Get, Put, Del, Commit, Abort, Close, ReadAt, Poll};
ghost use Rattle.ripsawbean.specs.Prelude.{HasBulk, is_read, last_of, numbers};
ghost use Rattle.ripsawbean.specs.TypedExports.{◌or◌, key_fault, value_fault, IsLong, OfHandle, MadeAlone, MadeAtKey, MadeWithValue, MadePoll, Answered, ShownBytes, AskedBytes, is_made, IsOf, MadeOf, ShownOf, number_of};

use crate::handle::Handle;
use crate::{KEY_LENGTH, NO_MEMORY, SESSION, SPENT, UNWRITTEN, VALUE_LENGTH};
use embedded::{Answer, Database, NoPosition};
use spans::Cmd;
use std::alloc::Global;
use timestamps::{Key, KeyError, MAX_VALUE_BYTES, Value, ValueError};

/// Why parts make no command.
#[derive(Clone, Copy)]
pub(crate) enum Unfit {
    KeyLength,
    ValueLength,
    NoMemory,
}

/// Begins the transaction of a timestamp.
#[unsafe(no_mangle)]
pub extern "C" fn ripsawbean_begin(
    alloc: Global,
    handle: &mut Handle,
    seat: u8,
    timestamp: u64,
    answer: &mut Answer,
) -> u8
    ensures made { MadeAlone seat (Begin timestamp) handle.old.database result handle.new.database }
    ensures answer { Answered result handle.new.database answer.new }
{
    let cmd = Ok(Cmd::Begin { ts: timestamp });
    make(alloc, handle, seat, cmd, answer)
}

/// Reads a key in a transaction, and shows its value: as much of it as there is room for, and its whole length.
/// [`ripsawbean_bytes`] shows it again.
#[unsafe(no_mangle)]
pub extern "C" fn ripsawbean_get(
    alloc: Global,
    handle: &mut Handle,
    seat: u8,
    timestamp: u64,
    key: &[u8],
    out: &mut [u8],
    length: &mut usize,
    answer: &mut Answer,
) -> u8
    ensures made { MadeAtKey seat key.now (Get timestamp key.now) handle.old.database result handle.new.database }
    ensures answer { Answered result handle.new.database answer.new }
    ensures value { ShownBytes result handle.new.database out.old out.new length.new }
{
    let cmd = key_of(alloc, key).map(|key| Cmd::Get { ts: timestamp, key });
    show(alloc, handle, seat, cmd, out, length, answer)
}

/// Writes a value in a transaction.
#[unsafe(no_mangle)]
pub extern "C" fn ripsawbean_put(
    alloc: Global,
    handle: &mut Handle,
    seat: u8,
    timestamp: u64,
    key: &[u8],
    value: &[u8],
    answer: &mut Answer,
) -> u8
    ensures made { MadeWithValue seat key.now value.now (Put timestamp key.now value.now) handle.old.database result handle.new.database }
    ensures answer { Answered result handle.new.database answer.new }
{
    let cmd = put(alloc, timestamp, key, value);
    make(alloc, handle, seat, cmd, answer)
}

/// Deletes a key in a transaction.
#[unsafe(no_mangle)]
pub extern "C" fn ripsawbean_delete(
    alloc: Global,
    handle: &mut Handle,
    seat: u8,
    timestamp: u64,
    key: &[u8],
    answer: &mut Answer,
) -> u8
    ensures made { MadeAtKey seat key.now (Del timestamp key.now) handle.old.database result handle.new.database }
    ensures answer { Answered result handle.new.database answer.new }
{
    let cmd = key_of(alloc, key).map(|key| Cmd::Del { ts: timestamp, key });
    make(alloc, handle, seat, cmd, answer)
}

/// Commits a transaction.
#[unsafe(no_mangle)]
pub extern "C" fn ripsawbean_commit(
    alloc: Global,
    handle: &mut Handle,
    seat: u8,
    timestamp: u64,
    answer: &mut Answer,
) -> u8
    ensures made { MadeAlone seat (Commit timestamp) handle.old.database result handle.new.database }
    ensures answer { Answered result handle.new.database answer.new }
{
    let cmd = Ok(Cmd::Commit { ts: timestamp });
    make(alloc, handle, seat, cmd, answer)
}

/// Aborts a transaction.
#[unsafe(no_mangle)]
pub extern "C" fn ripsawbean_abort(
    alloc: Global,
    handle: &mut Handle,
    seat: u8,
    timestamp: u64,
    answer: &mut Answer,
) -> u8
    ensures made { MadeAlone seat (Abort timestamp) handle.old.database result handle.new.database }
    ensures answer { Answered result handle.new.database answer.new }
{
    let cmd = Ok(Cmd::Abort { ts: timestamp });
    make(alloc, handle, seat, cmd, answer)
}

/// Moves the closed timestamp up, to just below the oldest undecided transaction at most.
#[unsafe(no_mangle)]
pub extern "C" fn ripsawbean_close_to(
    alloc: Global,
    handle: &mut Handle,
    seat: u8,
    timestamp: u64,
    answer: &mut Answer,
) -> u8
    ensures made { MadeAlone seat (Close timestamp) handle.old.database result handle.new.database }
    ensures answer { Answered result handle.new.database answer.new }
{
    let cmd = Ok(Cmd::Close { to: timestamp });
    make(alloc, handle, seat, cmd, answer)
}

/// Reads the committed value of a key at a closed timestamp, and shows it as [`ripsawbean_get`] does.
#[unsafe(no_mangle)]
pub extern "C" fn ripsawbean_read_at(
    alloc: Global,
    handle: &mut Handle,
    seat: u8,
    timestamp: u64,
    key: &[u8],
    out: &mut [u8],
    length: &mut usize,
    answer: &mut Answer,
) -> u8
    ensures made { MadeAtKey seat key.now (ReadAt timestamp key.now) handle.old.database result handle.new.database }
    ensures answer { Answered result handle.new.database answer.new }
    ensures value { ShownBytes result handle.new.database out.old out.new length.new }
{
    let cmd = key_of(alloc, key).map(|key| Cmd::ReadAt { t: timestamp, key });
    show(alloc, handle, seat, cmd, out, length, answer)
}

/// Takes the next messages of a feed, `most` at most, and shows them as bytes, one behind another. A message has a head
/// of 17 bytes: what it is (0 a resolved timestamp, 1 a row with a value, 2 a row of a delete), its timestamp in eight
/// bytes, and in four bytes each how many bytes of a key and of a value stand behind the head. Each number has its
/// lowest byte first. Messages that find no room or no memory are not lost: [`ripsawbean_bytes`] shows them again.
#[unsafe(no_mangle)]
pub extern "C" fn ripsawbean_poll(
    alloc: Global,
    handle: &mut Handle,
    seat: u8,
    feed: u64,
    most: u64,
    out: &mut [u8],
    length: &mut usize,
    answer: &mut Answer,
) -> u8
    ensures made { MadePoll seat (Poll feed most) handle.old.database result handle.new.database }
    ensures answer { Answered result handle.new.database answer.new }
    ensures messages { ShownBytes result handle.new.database out.old out.new length.new }
{
    let cmd = Ok(Cmd::Poll { feed, max: most });
    show(alloc, handle, seat, cmd, out, length, answer)
}

/// Shows the bytes of the last event's answer again, as often as they are asked for: a value, messages, or rows. No call
/// is made.
#[unsafe(no_mangle)]
pub extern "C" fn ripsawbean_bytes(
    alloc: Global,
    handle: &mut Handle,
    out: &mut [u8],
    length: &mut usize,
) -> u8
    ensures same { handle.new.database ≡ handle.old.database }
    ensures asked { AskedBytes handle.old.database result }
    ensures bytes { ShownBytes result handle.old.database out.old out.new length.new }
{
    *length = 0;
    with_open!(handle, alloc, database => bytes(&database, out, length))
}

/// The command of a put, or why there is none.
fn put(alloc: Global, ts: u64, key: &[u8], value: &[u8]) -> Result<Cmd, Unfit>
    ensures { IsOf (key_fault key.now or value_fault value.now) (IsLong key.now ⊎ IsLong value.now) (Put ts key.now value.now) result }
{
    let key = match key_of(alloc, key) {
        // a fault is told before memory is asked for
        Err(Unfit::NoMemory) if value.len() > MAX_VALUE_BYTES => return Err(Unfit::ValueLength),
        made => made?,
    };
    let value = value_of(alloc, value)?;
    Ok(Cmd::Put { ts, key, value })
}

fn key_of(alloc: Global, bytes: &[u8]) -> Result<Key, Unfit>
    ensures { IsOf (key_fault bytes.now) (IsLong bytes.now) bytes.now result }
{
    match Key::new(alloc, bytes) {
        Ok(key) => Ok(key),
        Err(KeyError::KeyLength) => Err(Unfit::KeyLength),
        Err(KeyError::NoMemory) => Err(Unfit::NoMemory),
    }
}

fn value_of(alloc: Global, bytes: &[u8]) -> Result<Value, Unfit>
    ensures { IsOf (value_fault bytes.now) (IsLong bytes.now) bytes.now result }
{
    match Value::new(alloc, bytes) {
        Ok(value) => Ok(value),
        Err(ValueError::ValueLength) => Err(Unfit::ValueLength),
        Err(ValueError::NoMemory) => Err(Unfit::NoMemory),
    }
}

/// The call of a command on a handle's database, or why there is none, by its number.
fn make(
    alloc: Global,
    handle: &mut Handle,
    seat: u8,
    cmd: Result<Cmd, Unfit>,
    answer: &mut Answer,
) -> u8
    ensures made { OfHandle (MadeOf seat cmd) handle.old.database result handle.new.database }
    ensures answer { Answered result handle.new.database answer.new }
{
    *answer = no_answer();
    with_open!(handle, alloc, database => call(&mut database, seat, cmd, answer))
}

/// The same, and the bytes of its answer.
fn show(
    alloc: Global,
    handle: &mut Handle,
    seat: u8,
    cmd: Result<Cmd, Unfit>,
    out: &mut [u8],
    length: &mut usize,
    answer: &mut Answer,
) -> u8
    ensures made { OfHandle (ShownOf seat cmd) handle.old.database result handle.new.database }
    ensures reads { result ≡ 14 → IfOk cmd (λ c. is_read c ≡ false) }
    ensures answer { Answered result handle.new.database answer.new }
    ensures bytes { ShownBytes result handle.new.database out.old out.new length.new }
{
    *length = 0;
    *answer = no_answer();
    with_open!(handle, alloc, database => match call(&mut database, seat, cmd, answer) {
        0 => bytes(&database, out, length),
        number => number,
    })
}

/// The call of a command on a database, or why there is none, by its number.
fn call(database: &mut Database, seat: u8, cmd: Result<Cmd, Unfit>, answer: &mut Answer) -> u8
    ensures made { MadeOf seat cmd database.old result database.new }
    ensures reads { result ≡ 0 → HasBulk (last_of database.new) → IfOk cmd (λ c. is_read c ≡ false) }
    ensures answer { Answered result (Some database.new) answer.new }
{
    *answer = no_answer();
    if seat > 63 {
        return SESSION;
    }
    match cmd {
        Err(unfit) => number(unfit),
        Ok(cmd) => match database.make(seat, cmd) {
            Err(NoPosition) => SPENT,
            Ok(()) => {
                *answer = database.answer();
                0
            }
        },
    }
}

/// The bytes of the last event's answer, with the number that tells of them.
pub(crate) fn bytes(database: &Database, out: &mut [u8], length: &mut usize) -> u8
    ensures asked { AskedBytes (Some database.now) result }
    ensures bytes { ShownBytes result (Some database.now) out.old out.new length.new }
{
    *length = 0;
    match database.copy_bytes(out) {
        Ok(whole) => {
            *length = whole;
            0
        }
        Err(_) => UNWRITTEN,
    }
}

pub(crate) fn no_answer() -> Answer
    ensures { result ≡ numbers 0 0 0 }
{
    Answer {
        kind: 0,
        number: 0,
        other: 0,
    }
}

pub(crate) fn number(unfit: Unfit) -> u8
    ensures number { result ≡ number_of unfit }
    ensures unmade { is_made result ≡ false }
{
    match unfit {
        Unfit::KeyLength => KEY_LENGTH,
        Unfit::ValueLength => VALUE_LENGTH,
        Unfit::NoMemory => NO_MEMORY,
    }
}
