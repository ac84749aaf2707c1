//! A dump of the database, piece by piece, as C asks for it.

ghost use Rattle.std.specs.Prelude.{◌≡◌, ◌≤◌, None, Some, IfOk, length, take};
ghost use Rattle.ripsawbean.specs.Prelude.{DumpPiece};
ghost use Rattle.ripsawbean.specs.Dumps.{HasKeyRoom, IsShownOrNot, IsTold, ToldDump, dump_fault, in_front, key_bytes, key_of, next_key, place_record};

use crate::handle::Handle;
use crate::{KEY_LENGTH, NO_MEMORY, NUMBER, UNWRITTEN};
use embedded::{Database, DumpPiece, DumpPlace};
use json_lines::buffer::copy_front;
use std::alloc::Global;
use timestamps::ts::MAX;
use timestamps::{Key, KeyError, MAX_KEY_BYTES};

/// A place in a dump. A dump begins at a place that is all 0.
#[repr(C)]
#[derive(Clone, Copy, Debug)]
pub struct DumpPlaceRecord {
    /// The timestamp of the row that was written last.
    pub timestamp: u64,
    /// How many bytes of the key buffer are that row's key. 0: all rows of the timestamp were written.
    pub key: usize,
    /// 1 where the dump has ended.
    pub ended: u8,
}

/// Shows a piece of the dump that rebuilds the database now. The dump closes at the greatest of `at`, closed and all that
/// began, and it goes as far as `through` for now. No call is made.
///
/// 0: the piece is shown, `length` is how many bytes it has, and `place` and `key` say where the next one begins, or that
/// the dump has ended. A place where it has ended stays, and shows nothing. At every other number `place`, `key` and
/// `out` are as they were. 3: `at` is no timestamp. 4: `key` has room for fewer than 256 bytes, or the place's key has
/// more. 12: there is no memory, and `length` is 0. 14: the next lines have no room in `out`, and `length` is how many
/// bytes they have. 16: the handle is closed, which is looked at first.
#[unsafe(no_mangle)]
pub extern "C" fn ripsawbean_dump(
    alloc: Global,
    handle: &mut Handle,
    at: u64,
    through: u64,
    place: &mut DumpPlaceRecord,
    key: &mut [u8],
    out: &mut [u8],
    length: &mut usize,
) -> u8
    ensures same { handle.new.database ≡ handle.old.database }
    ensures dump { ToldDump handle.old.database at through place.old place.new key.old key.new out.old out.new result length.new }
{
    *length = 0;
    with_open!(handle, alloc, database => dump(alloc, &database, at, through, place, key, out, length))
}

/// A piece, with the number that tells of it.
fn dump(
    alloc: Global,
    database: &Database,
    at: u64,
    through: u64,
    place: &mut DumpPlaceRecord,
    key: &mut [u8],
    out: &mut [u8],
    length: &mut usize,
) -> u8
    ensures { IsTold (dump_fault at place.old key.old) database.now at through place.old place.new key.old key.new out.old out.new result length.new }
{
    *length = 0;
    if at > MAX {
        return NUMBER;
    }
    if key.len() < MAX_KEY_BYTES || place.key > MAX_KEY_BYTES {
        return KEY_LENGTH;
    }
    if place.ended != 0 {
        return 0;
    }
    let Ok(from) = place_at(alloc, place.timestamp, &key[..place.key]) else {
        return NO_MEMORY;
    };
    match database.dump_piece(at, through, from, out.len()) {
        Err(_) => NO_MEMORY,
        Ok(piece) => show(&piece, place, key, out, length),
    }
}

/// The place behind the row of a key, or without a byte behind all rows of the timestamp.
fn place_at(alloc: Global, ts: u64, key: &[u8]) -> Result<DumpPlace, KeyError>
    requires { length key.now ≤ 256 }
    ensures { IfOk result (λ place. place ≡ record { ts = ts; key = key_of key.now }) }
{
    if key.is_empty() {
        return Ok(DumpPlace { ts, key: None });
    }
    let key = Some(Key::new(alloc, key)?);
    Ok(DumpPlace { ts, key })
}

/// Shows a piece where there is room for all of it, and tells how many bytes it has.
fn show(
    piece: &DumpPiece,
    place: &mut DumpPlaceRecord,
    key: &mut [u8],
    out: &mut [u8],
    length: &mut usize,
) -> u8
    requires { HasKeyRoom key.old }
    ensures { IsShownOrNot piece.now result place.old place.new key.old key.new out.old out.new length.new }
{
    *length = piece.text.len();
    if piece.text.len() > out.len() {
        return UNWRITTEN;
    }
    copy_front(piece.text.as_slice(), out);
    put_place(&piece.next, place, key);
    0
}

/// Tells where the next piece begins.
fn put_place(next: &Option<DumpPlace>, place: &mut DumpPlaceRecord, key: &mut [u8])
    requires { HasKeyRoom key.old }
    ensures place { place.new ≡ place_record next.now }
    ensures key { key.new ≡ in_front (next_key next.now) key.old }
{
    let (timestamp, key, ended) = match next {
        None => (0, 0, 1),
        Some(next) => (next.ts, put_key(&next.key, key), 0),
    };
    *place = DumpPlaceRecord {
        timestamp,
        key,
        ended,
    };
}

/// Writes a key to the front, where there is one, and tells how many bytes it has.
fn put_key(next: &Option<Key>, key: &mut [u8]) -> usize
    requires { HasKeyRoom key.old }
    ensures length { result ≡ length (key_bytes next.now) }
    ensures key { key.new ≡ in_front (key_bytes next.now) key.old }
{
    match next {
        None => 0,
        Some(next) => copy_front(next.bytes(), key),
    }
}
