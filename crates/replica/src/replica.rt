//! A replica of a span, as its user calls it.
ghost use Rattle.std.specs.Prelude.{◌≡◌, ◌==◌, ℕ, List, [], None, Some, OnOk, OnErr, IfOk, IfErr};
ghost use Rattle.std.specs.Option.{option_copied};
ghost use Rattle.replica.specs.Prelude.{Message, complete_after, ready_after};
ghost use Rattle.spans.specs.declared.calls.messages.Message.TheVariants as messages;
ghost use Rattle.replica.specs.Rows.{AreRowsOf, AreKeysWith, IsCountOf};
ghost use Rattle.replica.specs.Starts.{Start, seeded_start, initial_start, resolved_at, MayBegin, IsSeedFault};
ghost use Rattle.replica.specs.Replicas.{view_in, span_in, complete_in, through_in, Follows, Takes, IsFaultAt, test_of, fault_in, is_first_in, ready_in, AddsValue};
ghost use Rattle.replica.specs.declared.fault.Fault.TheVariants.{NoMemory};

use crate::fault::Fault;
use crate::place::{Place, comes_after, is_of, reaches};
use crate::seed::{are_inside, rise, table_of};
use crate::table::Table;
use spans::{Kind, Message, Span};
use std::alloc::{AllocError, Global};
use std::collections::btree_map::Iter;
use timestamps::{Key, Row, Value};

/// The rows of a replica, lent: pairs of a key and its value, keys rising.
pub type KeysAndValues<'a> = Iter<'a, Key, Value>;

/// The rows of a span, as a feed tells them.
#[derive(Debug)]
pub struct Replica {
    span: Span,
    /// The cursor that its feed was opened at.
    cursor: u64,
    /// The timestamp that was resolved last, or where it started.
    resolved: u64,
    /// The row that was taken last.
    last: Option<Place>,
    /// All at or below it was told, if it isn't below the cursor: what is taken next is above it.
    floor: u64,
    /// The timestamp whose rows it has, all of them and none besides.
    complete: Option<u64>,
    table: Table,
}

// for the proof, which has no case for each part of it where a replica is dropped
impl Drop for Replica {
    fn drop(self) {
        let Replica {
            span: _,
            cursor: _,
            resolved: _,
            last: _,
            floor: _,
            complete: _,
            table: _,
        } = self;
    }
}

impl Replica {
    /// A replica of what a span holds at a cursor: the pairs that a snapshot answered there, keys rising.
    /// It is for a feed of the span that was opened at this cursor.
    pub fn new(
        alloc: Global,
        span: Span,
        cursor: u64,
        rows: Vec<(Key, Value)>,
    ) -> Result<Replica, Fault>
        ensures ok { IfOk result (λ r. Follows r (seeded_start span cursor rows.items) []) }
        ensures taken { OnOk result (MayBegin span rows.items) }
        ensures refused { IfErr result (λ fault. IsSeedFault span rows.items fault) }
    {
        let pairs = rows.as_slice();
        if !rise(pairs) {
            return Err(Fault::NotAfter);
        }
        if !are_inside(&span, pairs) {
            return Err(Fault::OutsideSpan);
        }
        let table = table_of(alloc, rows)?;
        Ok(Replica {
            span,
            cursor,
            resolved: cursor,
            last: None,
            floor: cursor,
            complete: Some(cursor),
            table,
        })
    }

    /// An empty replica, for an initial feed of the span that was opened at this cursor: it tells what the
    /// span holds there.
    pub fn new_initial(alloc: Global, span: Span, cursor: u64) -> Replica
        ensures { Follows result (initial_start span cursor) [] }
    {
        let kind = Kind {
            initial: true,
            gap: None,
        };
        let start = kind.start(cursor);
        Replica {
            span,
            cursor,
            resolved: start,
            last: None,
            floor: start,
            complete: None,
            table: Table::new(alloc),
        }
    }

    /// Takes a message. Only a row with a value wants memory.
    pub fn apply(&mut self, message: Message) -> Result<(), Fault>
        ensures ok { OnOk result (Takes self.old self.new message) }
        ensures accepted { OnOk result (IsFaultAt self.old message None) }
        ensures err { OnErr result (self.new ≡ self.old) }
        ensures refused { IfErr result (λ fault. IsFaultAt self.old message (test_of fault)) }
        ensures memory { IfErr result (λ fault. fault ≡ NoMemory → AddsValue message) }
    {
        if let Some(fault) = self.fault(&message) {
            return Err(fault);
        }
        match message {
            Message::Row(row) => self.take_row(row)?,
            Message::Resolved(ts) => {
                let at = ts.get();
                self.resolved = at;
                self.floor = at;
                self.complete = Some(at);
            }
        }
        Ok(())
    }

    /// Why a message is refused, where it is.
    fn fault(&self, message: &Message) -> Option<Fault>
        ensures { result ≡ fault_in self.now message.now }
    {
        match message {
            Message::Row(row) if row.ts.get() <= self.resolved || !comes_after(row, &self.last) => {
                Some(Fault::NotAfter)
            }
            Message::Row(row) if !self.span.contains(&row.key) => Some(Fault::OutsideSpan),
            Message::Resolved(t) if t.get() <= self.resolved || !reaches(t.get(), &self.last) => {
                Some(Fault::ResolvedBack)
            }
            _ => None,
        }
    }

    /// Takes a row, which passed the tests.
    fn take_row(&mut self, row: Row) -> Result<(), AllocError>
        ensures ok { OnOk result (Takes self.old self.new (messages.Row row)) }
        ensures err { OnErr result (self.new ≡ self.old) }
        ensures memory { OnErr result (AddsValue (messages.Row row)) }
    {
        let Row { ts, key, after } = row;
        self.table.change(&key, after)?;
        self.floor = ts.get() - 1;
        self.last = Some(Place { ts, key });
        self.complete = None;
        Ok(())
    }

    /// The timestamp at which it has all rows of its span: the cursor at first, but of an initial feed none;
    /// that of a resolved message after it; none after a row.
    pub fn at_resolved(&self) -> Option<u64>
        ensures complete { result ≡ complete_in self.now }
        ensures messages { (s : Start) (messages : List Message) → Follows self.now s messages → result ≡ resolved_at s.first messages }
    {
        self.complete
    }

    /// The timestamp through which it was told all: no row and no resolved timestamp at or below it comes any more. None
    /// among the first rows of an initial feed. After a row the rows are no map, since more rows of its timestamp may come.
    pub fn complete_through(&self) -> Option<u64>
        ensures through { result ≡ through_in self.now }
        ensures messages { (s : Start) (messages : List Message) → Follows self.now s messages → result ≡ complete_after s.start s.cursor messages }
    {
        (self.floor >= self.cursor).then_some(self.floor)
    }

    /// The timestamp at which its rows are the map as they stand, where a message shows it that is to be taken next: the
    /// first row of a later timestamp, above the cursor, shows that all below it was told.
    pub fn ready(&self, message: &Message) -> Option<u64>
        ensures ready { result ≡ ready_in self.now message.now }
        ensures messages { (s : Start) (taken : List Message) → Follows self.now s taken → result ≡ ready_after s.span s.start s.cursor taken message.now }
    {
        match message {
            Message::Row(row) if self.is_first(row) && self.fault(message).is_none() => {
                Some(row.ts.get() - 1)
            }
            _ => None,
        }
    }

    /// Whether a row is the first of its timestamp, and above the cursor.
    fn is_first(&self, row: &Row) -> bool
        ensures { result ≡ is_first_in self.now row.now }
    {
        self.cursor < row.ts.get() && !is_of(&self.last, row.ts.get())
    }

    /// The span.
    pub fn span(&self) -> &Span
        ensures { result.now ≡ span_in self.now }
    {
        &self.span
    }

    /// The value of a key.
    pub fn get(&self, key: &Key) -> Option<&Value>
        ensures { option_copied result ≡ view_in self.now key.now }
    {
        self.table.get(key)
    }

    /// How many rows it has.
    pub fn len(&self) -> usize
        ensures { IsCountOf (view_in self.now) result }
    {
        self.table.len()
    }

    /// Whether it has no row.
    pub fn is_empty(&self) -> bool
        ensures { (n : ℕ) × IsCountOf (view_in self.now) n × (result ≡ (n == 0)) }
    {
        self.len() == 0
    }

    /// The rows, keys rising.
    pub fn rows(&self) -> KeysAndValues<'_>
        ensures { AreRowsOf (view_in self.now) result }
    {
        self.table.iter()
    }

    /// Copies of the keys that have a value, rising.
    pub fn keys_with(&self, alloc: Global, value: &Value) -> Result<Vec<Key>, AllocError>
        ensures { IfOk result (λ keys. AreKeysWith (view_in self.now) value.now keys.items) }
    {
        self.table.keys_with(alloc, value)
    }
}
