//! How far a scan finds room: a walk through its keys that takes no memory, marks nothing and copies nothing.
//!
//! ```text
//! keys of the span, by a read at 30     weight   left: 9 rows, 60 bytes
//! a    "12345"                          23       8 rows, 37 bytes
//! b    (a delete)                                8 rows, 37 bytes
//! c    "1234567890"                     28       7 rows, 9 bytes
//! d    "1"                              19       it ends at d
//! ```

ghost use Rattle.std.specs.Prelude.{◌≡◌, true};
ghost use Rattle.std.specs.Map.{keys_of};
ghost use Rattle.std.specs.Option.{option_copied};
ghost use Rattle.mvto_rules.specs.Prelude.{AreFilled, RisingKeys};
ghost use Rattle.mvto_rules.specs.Scans.{IsEnd, end_in, has_room, room_behind, stops_at, entries_of, keys_in, value_in};
ghost use Rattle.mvto_rules.specs.Holding.{Holds};

use crate::reading::is_named;
use crate::rules::Rules;
use spans::Span;
use timestamps::Key;
use version_chain::chain::Version;
use version_chain::{Steps, Store};

/// The bytes that a row has beside those of its key and its value.
const HEAD: u64 = 17;

/// How many rows still find room, and how many bytes.
#[derive(Clone, Copy)]
struct Room {
    rows: u64,
    bytes: u64,
}

impl Rules {
    /// The key at which a scan at `ts` ends, if its rows are to find room in `rows` and `bytes`: the first whose row finds
    /// none. There is none where all find room, where something stops the reader before, and below the horizon.
    pub fn end_within<'a>(
        &'a self,
        ts: u64,
        span: &'a Span,
        rows: u64,
        bytes: u64,
    ) -> Option<&'a Key>
        ensures { Holds self.now (λ k. IsEnd k ts span.now rows bytes (option_copied result)) }
    {
        keys_rise(&self.store, span);
        if ts < self.horizon {
            return None;
        }
        find_end(&self.store, span, ts, Room { rows, bytes })
    }
}

/// The keys of a span rise, and each has a version. It goes to the first of them, and no further.
fn keys_rise(store: &Store, span: &Span)
    ensures rising { RisingKeys (keys_of store.now.entries) }
    ensures filled { AreFilled (entries_of store.now span.now) }
{
    let _found = store.in_span(span);
}

/// The key at which a scan ends.
fn find_end<'a>(store: &'a Store, span: &'a Span, ts: u64, room: Room) -> Option<&'a Key>
    ensures { option_copied result ≡ end_in store.now ts room.rows room.bytes (keys_in store.now span.now) }
{
    let mut room = room;
    for (key, chain) in store.in_span(span) {
        let newest = chain.newest_at(ts, &mut Steps::new());
        is_named(newest);
        if stops(newest, ts) {
            return None;
        }
        if !room.take(key, newest) {
            return Some(key);
        }
    }
    None
}

/// Whether the newest version, where there is one, stops a read.
fn stops(newest: Option<&Version>, ts: u64) -> bool
    ensures { result ≡ stops_at ts (option_copied newest.entry) }
{
    newest.is_some_and(|version| version.ts.get() != ts && !version.committed)
}

impl Room {
    /// Takes the row of a key, where there is room for it. A key without a value has none.
    fn take(&mut self, key: &Key, newest: Option<&Version>) -> bool
        ensures fits { result ≡ has_room self.old key.now (value_in (option_copied newest.entry)) }
        ensures left { result ≡ true → self.new ≡ room_behind self.old key.now (value_in (option_copied newest.entry)) }
    {
        let Some(version) = newest else {
            return true;
        };
        let Some(value) = &version.after else {
            return true;
        };
        let weight = HEAD + key.bytes().len() as u64 + value.bytes().len() as u64;
        if self.rows == 0 || self.bytes < weight {
            return false;
        }
        self.rows -= 1;
        self.bytes -= weight;
        true
    }
}
