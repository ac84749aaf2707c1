//! What a program may ask of a database without a call: its last event, its state, how far it has come, what a seat
//! holds, and the versions of several keys.

ghost use Rattle.std.specs.Prelude.{◌++◌, ◌≡◌, Some, drop, length, take};
ghost use Rattle.ripsawbean.specs.Looks.{ToldHeld, ToldPlaces, ToldVersions, places_record, versions_number, IsStateNumber, ToldLast, ToldState};

use crate::handle::Handle;
use crate::replicas::number_or_none;
use crate::{KEY_LENGTH, NO_MEMORY, UNWRITTEN};
use embedded::{Database, EventRecord, HeldRecord, VersionFault};
use engine::Places;
use json_lines::buffer::copy_front;
use std::alloc::Global;

/// The timestamp is below the horizon.
const BELOW_HORIZON: u8 = 24;

/// Tells the last event in numbers, as often as it is asked for: all 0 where no call was made yet. No call is made, and
/// no memory is taken.
///
/// 0: `told` is the last event's. 16: the handle is closed, and `told` is all 0.
#[unsafe(no_mangle)]
pub extern "C" fn ripsawbean_last(alloc: Global, handle: &mut Handle, told: &mut EventRecord) -> u8
    ensures same { handle.new.database ≡ handle.old.database }
    ensures last { ToldLast handle.old.database result told.new }
{
    *told = EventRecord::none();
    with_open!(handle, alloc, database => {
        *told = database.last();
        0
    })
}

/// Shows the text of what an operator may ask of the database now, as often as it is asked for. No call is made, and the
/// last event's text stays.
///
/// 0: `out` begins with as much of the text as there is room for, and `length` is the whole text's. At every other number
/// `out` is as it was and `length` is 0. 14: there is no memory for the text. 16: the handle is closed.
#[unsafe(no_mangle)]
pub extern "C" fn ripsawbean_state(
    alloc: Global,
    handle: &mut Handle,
    out: &mut [u8],
    length: &mut usize,
) -> u8
    ensures same { handle.new.database ≡ handle.old.database }
    ensures number { IsStateNumber handle.old.database result }
    ensures text { ToldState result handle.old.database out.old out.new length.new }
{
    *length = 0;
    with_open!(handle, alloc, database => state(&database, out, length))
}

/// The text of its report, with the number that tells of it.
fn state(database: &Database, out: &mut [u8], length: &mut usize) -> u8
    ensures number { IsStateNumber (Some database.now) result }
    ensures text { ToldState result (Some database.now) out.old out.new length.new }
{
    *length = 0;
    match database.state() {
        Ok(text) => {
            *length = copy_front(text.as_slice(), out);
            0
        }
        Err(_) => UNWRITTEN,
    }
}

/// How far a database and one of its feeds have come, in numbers. 18446744073709551615 where there is no timestamp.
#[repr(C)]
#[derive(Clone, Copy, Debug, Default)]
pub struct PlacesRecord {
    /// The closed timestamp.
    pub closed: u64,
    /// Below it nothing is read.
    pub horizon: u64,
    /// How far a collection can go now.
    pub limit: u64,
    /// The least timestamp that is undecided, where one is.
    pub oldest: u64,
    /// The greatest timestamp that began or was closed: each that is above it is free.
    pub reached: u64,
    /// The floor of the feed: through where it has told all, but for what an initial one tells first.
    pub floor: u64,
}

/// Tells how far the database, and the feed of this number, have come. No call is made, and no memory is taken.
///
/// 0: `told` says it. 16: the handle is closed, and `told` is all 0.
#[unsafe(no_mangle)]
pub extern "C" fn ripsawbean_places(
    alloc: Global,
    handle: &mut Handle,
    feed: u64,
    told: &mut PlacesRecord,
) -> u8
    ensures same { handle.new.database ≡ handle.old.database }
    ensures places { ToldPlaces handle.old.database feed result told.new }
{
    *told = PlacesRecord::default();
    with_open!(handle, alloc, database => {
        *told = places_record(database.places(), database.floor(feed));
        0
    })
}

fn places_record(places: Places, floor: Option<u64>) -> PlacesRecord
    ensures { result ≡ places_record places floor }
{
    PlacesRecord {
        closed: places.closed,
        horizon: places.horizon,
        limit: places.limit,
        oldest: number_or_none(places.oldest),
        reached: places.reached,
        floor: number_or_none(floor),
    }
}

/// Shows what a seat holds: its undecided transactions, its feeds, and all protections, which are of no seat. `count` is
/// how many there are, and `out` begins with as many as there is room for. No call is made.
///
/// 0: they are shown. At every other number `count` is 0 and `out` is as it was. 12: there is no memory to find them. 16:
/// the handle is closed.
#[unsafe(no_mangle)]
pub extern "C" fn ripsawbean_held_by(
    alloc: Global,
    handle: &mut Handle,
    seat: u8,
    out: &mut [HeldRecord],
    count: &mut usize,
) -> u8
    ensures same { handle.new.database ≡ handle.old.database }
    ensures held { ToldHeld handle.old.database seat result out.old out.new count.new }
{
    *count = 0;
    with_open!(handle, alloc, database => held_by(&database, seat, out, count))
}

/// Writes the records of what a seat holds, and tells the status.
fn held_by(database: &Database, seat: u8, out: &mut [HeldRecord], count: &mut usize) -> u8
    ensures { ToldHeld (Some database.now) seat result out.old out.new count.new }
{
    *count = 0;
    match database.held_by(seat) {
        Ok(held) => {
            *count = copy_held(held.as_slice(), out);
            0
        }
        Err(_) => NO_MEMORY,
    }
}

/// Copies to the front as far as there is room, and tells how many there are.
fn copy_held(held: &[HeldRecord], out: &mut [HeldRecord]) -> usize
    ensures copied { out.new ≡ take (length out.old) held.now ++ drop (length held.now) out.old }
    ensures count { result ≡ length held.now }
{
    let count = held.len().min(out.len());
    out[..count].copy_from_slice(&held[..count]);
    held.len()
}

/// Tells the version of each key: the timestamp of its newest committed version at or below `timestamp`, 0 where it has
/// no value there. Keys stand one behind another, each behind its length in two bytes, the lowest first. `count` is how
/// many were told, and no more are than there is room for; the rest of `versions` is as it was. No call is made.
///
/// 0: all keys were told, or `versions` is full. 4: the next key has no byte or more than 256, or the keys end within
/// it. 12: the next key has more than 24 bytes, and it is out of memory. 24: the timestamp is below the horizon, and none was
/// told; it is looked at first. 16: the handle is closed, and none was told.
#[unsafe(no_mangle)]
pub extern "C" fn ripsawbean_versions_at(
    alloc: Global,
    handle: &mut Handle,
    timestamp: u64,
    keys: &[u8],
    versions: &mut [u64],
    count: &mut usize,
) -> u8
    ensures same { handle.new.database ≡ handle.old.database }
    ensures told { ToldVersions handle.old.database timestamp keys.now result versions.old versions.new count.new }
{
    *count = 0;
    with_open!(handle, alloc, database => {
        let (told, result) = database.versions_at(timestamp, keys, versions);
        *count = told;
        versions_number(result)
    })
}

fn versions_number(told: Result<(), VersionFault>) -> u8
    ensures { result ≡ versions_number told }
{
    match told {
        Ok(()) => 0,
        Err(VersionFault::KeyLength) => KEY_LENGTH,
        Err(VersionFault::NoMemory) => NO_MEMORY,
        Err(VersionFault::BelowHorizon) => BELOW_HORIZON,
    }
}
