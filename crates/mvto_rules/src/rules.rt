//! The versions with the marks of readers, the transactions and what is closed, under the rules that tie them.
//! `Sight::of` is the read rule, which gets and scans apply. The store judges a write by the write rule.
ghost use Rattle.std.specs.Prelude.{◌≡◌, ◌≤◌, Some, None, IfOk, IfErr, OnOk, OnErr};
ghost use Rattle.std.specs.Option.{option_copied};
ghost use Rattle.mvto_rules.specs.Prelude.{Abort, Begin, Commit, Get, IsAbortedBy, IsAlike, IsAnswered, IsWanting, MAX, NoMemory, Refused, Scan, TooLate, closed_in, refusal, nothing_kept};
ghost use Rattle.mvto_rules.specs.Tables.{AreInRange};

use crate::reading::{Reading, read_span};
use crate::sight::{Sight, value_of};
use closing::Closing;
use spans::{Refusal, Reply, Rows, Span, State};
use std::alloc::{AllocError, Global};
use timestamps::{Key, Ts, Value};
use txn_table::{Outcome, Txns};
use version_chain::{Store, Wrote};

/// The versions with the marks of readers, the transactions, the closed timestamp with the protections, and the
/// horizon, under the rules that tie them.
///
/// A call takes the seat that asks, where that matters, and the timestamp of its transaction as the
/// command says it, which may be any number. A refused growth leaves all as it was.
#[derive(Drop)]
pub struct Rules {
    pub(crate) alloc: Global,
    pub(crate) store: Store,
    pub(crate) txns: Txns,
    pub(crate) closing: Closing,
    /// Below it, versions may be gone.
    pub(crate) horizon: u64,
    pub ghost in_range: { AreInRange txns },
    pub ghost closed_low: { closed_in closing ≤ MAX },
}

impl Rules {
    ghost use Rattle.mvto_rules.specs.Holding.{Changes, Steps, held, holding, write_of};

    /// Nothing has happened.
    pub fn new(alloc: Global) -> Rules
        ensures { IsAlike nothing_kept (holding nothing_kept result) }
    {
        Rules {
            alloc,
            store: Store::new(alloc),
            txns: Txns::new(alloc),
            closing: Closing::new(alloc),
            horizon: 0,
        }
    }

    /// Begins a transaction of a seat above what is closed, unless one of its timestamp began before.
    pub fn begin(&mut self, seat: u8, ts: u64) -> Reply
        ensures step { Steps self.old self.new seat (Begin ts) result }
    {
        let Some(timestamp) = Ts::new(ts) else {
            return Reply::Refused(Refusal::TsRange);
        };
        let closed = self.closing.closed();
        if closed >= ts {
            return Reply::Refused(Refusal::BelowClosed { closed });
        }
        match self.txns.begin(timestamp, seat) {
            Ok(true) => Reply::Started,
            Ok(false) => Reply::Refused(Refusal::TsUsed),
            Err(_) => Reply::Refused(Refusal::NoMemory),
        }
    }

    /// Reads a key, and marks the reader, unless the version is its own.
    pub fn get(&mut self, seat: u8, ts: u64, key: &Key) -> Reply
        ensures step { Steps self.old self.new seat (Get ts key.now) result }
    {
        or_no_memory(self.try_get(seat, ts, key))
    }

    fn try_get(&mut self, seat: u8, ts: u64, key: &Key) -> Result<Reply, AllocError>
        ensures answered { IfOk result (λ reply. Changes self.old self.new (λ k k'. IsAnswered k k' seat (Get ts key.now) reply)) }
        ensures wanting { OnErr result (Changes self.old self.new (λ k k'. IsWanting k k' seat (Get ts key.now))) }
    {
        let ts = match self.undecided(seat, ts) {
            Err(refusal) => return Ok(Reply::Refused(refusal)),
            Ok(ts) => ts,
        };
        let (newest, next, spot) = self.store.around(key, ts.get());
        match Sight::of(newest, ts) {
            Sight::Blocked(by) => Ok(Reply::Refused(Refusal::Blocked { by })),
            Sight::Own => {
                let after = value_of(newest)?;
                Ok(Reply::Found(after))
            }
            Sight::Other(above) => {
                let after = value_of(newest)?;
                self.store.mark(key, spot, ts, above, next)?;
                Ok(Reply::Found(after))
            }
        }
    }

    /// Writes a value, or a delete where there is none, unless a later reader has read the version
    /// before it. Then the transaction is aborted, which takes no memory.
    pub fn write(&mut self, seat: u8, ts: u64, key: &Key, after: Option<&Value>) -> Reply
        ensures step { Steps self.old self.new seat (write_of ts key.now (option_copied after.entry)) result }
    {
        let ts = match self.undecided(seat, ts) {
            Err(refusal) => return Reply::Refused(refusal),
            Ok(ts) => ts,
        };
        match self.store.write(key, ts, after) {
            Ok(Wrote::Done) => Reply::Written,
            Ok(Wrote::Crossed) => {
                self.take_back(ts);
                Reply::Refused(Refusal::TooLate)
            }
            Err(_) => Reply::Refused(Refusal::NoMemory),
        }
    }

    /// Reads the keys of a span, and marks the reader at all of them, those without a version too, but
    /// for keys where the version is its own. That something stops the reader is answered without memory.
    pub fn scan(&mut self, seat: u8, ts: u64, span: &Span) -> Reply
        ensures step { Steps self.old self.new seat (Scan ts span.now) result }
    {
        or_no_memory(self.try_scan(seat, ts, span))
    }

    fn try_scan(&mut self, seat: u8, ts: u64, span: &Span) -> Result<Reply, AllocError>
        ensures answered { IfOk result (λ reply. Changes self.old self.new (λ k k'. IsAnswered k k' seat (Scan ts span.now) reply)) }
        ensures wanting { OnErr result (Changes self.old self.new (λ k k'. IsWanting k k' seat (Scan ts span.now))) }
    {
        let ts = match self.undecided(seat, ts) {
            Err(refusal) => return Ok(Reply::Refused(refusal)),
            Ok(ts) => ts,
        };
        match read_span(self.alloc, &self.store, span, ts)? {
            Reading::Stopped(by) => Ok(Reply::Refused(Refusal::Blocked { by })),
            Reading::Through(rows) => {
                self.store.mark_all(span, ts)?;
                Ok(Reply::Rows(Rows::from_vec(rows)))
            }
        }
    }

    /// Commits a transaction with what it wrote. It takes no memory.
    pub fn commit(&mut self, seat: u8, ts: u64) -> Reply
        ensures step { Steps self.old self.new seat (Commit ts) result }
    {
        match self.undecided(seat, ts) {
            Err(refusal) => Reply::Refused(refusal),
            Ok(ts) => {
                let keys = self.store.commit(ts);
                self.txns.decide(ts, Outcome::Committed);
                Reply::Committed { keys }
            }
        }
    }

    /// Aborts a transaction, and takes back what it wrote. It takes no memory.
    pub fn abort(&mut self, seat: u8, ts: u64) -> Reply
        ensures step { Steps self.old self.new seat (Abort ts) result }
    {
        match self.undecided(seat, ts) {
            Err(refusal) => Reply::Refused(refusal),
            Ok(ts) => {
                self.take_back(ts);
                Reply::Aborted
            }
        }
    }

    /// Takes back what a transaction wrote, and notes that it was aborted.
    fn take_back(&mut self, ts: Ts)
        ensures { Changes self.old self.new (λ k k'. IsAbortedBy k k' ts) }
    {
        self.store.abort(ts);
        self.txns.decide(ts, Outcome::Aborted);
    }

    /// The timestamp of a transaction that the seat may still use, or why it may not.
    pub(crate) fn undecided(&self, seat: u8, ts: u64) -> Result<Ts, Refusal>
        ensures ok { IfOk result (λ t. t ≡ ts) }
        ensures none { OnOk result (refusal (held self.now) seat ts ≡ None) }
        ensures err { IfErr result (λ r. refusal (held self.now) seat ts ≡ Some r) }
        ensures other { IfErr result (λ r. r ≡ TooLate → ⊥) }
        ensures in_range { OnOk result ((1 ≤ ts) × (ts ≤ MAX)) }
    {
        if ts <= self.closing.closed() {
            return Err(Refusal::Ended);
        }
        let Some((owner, state)) = self.txns.standing(ts) else {
            return Err(Refusal::NoTxn);
        };
        if owner != seat {
            return Err(Refusal::NotOwner);
        }
        if state != State::Undecided {
            return Err(Refusal::Ended);
        }
        // each number in the table is one
        Ok(Ts::new(ts).unwrap())
    }
}

/// The reply, or that memory was wanting.
fn or_no_memory(reply: Result<Reply, AllocError>) -> Reply
    ensures ok { IfOk reply (λ r. result ≡ r) }
    ensures err { OnErr reply (result ≡ Refused NoMemory) }
{
    match reply {
        Ok(reply) => reply,
        Err(_) => Reply::Refused(Refusal::NoMemory),
    }
}
