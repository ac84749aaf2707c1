//! What a seat holds, in numbers: what keeps closed or a collection back until the seat ends it, and all protections.
//!
//! ```text
//! seat 1 wrote two keys at 30, opened feed 4 at 20, and a seat protected 15
//!
//! held_by 1     30, 2, a transaction     4, 20, a feed     1, 15, a protection
//! held_by 2                                                1, 15, a protection
//! ```
ghost use Rattle.std.specs.Prelude.{List, IfOk, map, filter, ◌==◌, ◌≡◌};
ghost use Rattle.embedded.specs.Prelude.{Event, FeedReport, TransactionReport};
ghost use Rattle.embedded.specs.Embedded.{StandsFor};
ghost use Rattle.embedded.specs.Looks.{AreHeldBy, held_feed, held_in, held_protection, held_transaction};

use crate::database::Database;
use spans::{FeedReport, ProtectionReport, Report, TransactionReport};
use std::alloc::{AllocError, Global};

/// An undecided transaction.
const TRANSACTION: u8 = 1;
/// A feed that lives.
const FEED: u8 = 2;
/// A protection that stands.
const PROTECTION: u8 = 3;

/// One thing that is held. `embed/ripsawbean.h` names the kinds.
#[repr(C)]
#[derive(Clone, Copy, Debug)]
pub struct HeldRecord {
    /// The timestamp of a transaction, or the number of a feed or a protection.
    pub number: u64,
    /// How many keys a transaction wrote; a feed's floor; a protection's timestamp.
    pub at: u64,
    /// 1 a transaction, 2 a feed, 3 a protection.
    pub kind: u8,
}

impl Database {
    /// The undecided transactions and the live feeds of a seat, and all protections, in the report's order.
    pub fn held_by(&self, seat: u8) -> Result<Vec<HeldRecord>, AllocError>
        ensures { (h : List Event) → StandsFor self.now h → IfOk result (λ held. AreHeldBy h seat held.items) }
    {
        let report = self.engine.report()?;
        held_in(self.alloc, &report, seat)
    }
}

/// The records of a report that are a seat's.
fn held_in(alloc: Global, report: &Report, seat: u8) -> Result<Vec<HeldRecord>, AllocError>
    ensures { IfOk result (λ held. held.items ≡ held_in report.now seat) }
{
    let mut held = held_transactions(alloc, &report.transactions, seat)?;
    let mut feeds = held_feeds(alloc, &report.feeds, seat)?;
    let mut protections = held_protections(alloc, &report.protections)?;
    feeds.append(&mut protections)?;
    held.append(&mut feeds)?;
    Ok(held)
}

/// Those of a seat.
fn held_transactions(
    alloc: Global,
    transactions: &[TransactionReport],
    seat: u8,
) -> Result<Vec<HeldRecord>, AllocError>
    ensures { IfOk result (λ held. held.items ≡ map held_transaction (filter (λ (n : TransactionReport). n.seat == seat) transactions.now)) }
{
    let own = transactions.iter().filter(|n| n.seat == seat);
    own.map(|n| HeldRecord {
        number: n.timestamp,
        at: n.keys,
        kind: TRANSACTION,
    })
    .collect(alloc)
}

/// Those of a seat.
fn held_feeds(alloc: Global, feeds: &[FeedReport], seat: u8) -> Result<Vec<HeldRecord>, AllocError>
    ensures { IfOk result (λ held. held.items ≡ map held_feed (filter (λ (n : FeedReport). n.seat == seat) feeds.now)) }
{
    let own = feeds.iter().filter(|n| n.seat == seat);
    own.map(|n| HeldRecord {
        number: n.number,
        at: n.floor,
        kind: FEED,
    })
    .collect(alloc)
}

/// All of them.
fn held_protections(
    alloc: Global,
    protections: &[ProtectionReport],
) -> Result<Vec<HeldRecord>, AllocError>
    ensures { IfOk result (λ held. held.items ≡ map held_protection protections.now) }
{
    let all = protections.iter();
    all.map(|n| HeldRecord {
        number: n.number,
        at: n.timestamp,
        kind: PROTECTION,
    })
    .collect(alloc)
}
