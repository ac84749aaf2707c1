//! What an operator may ask of a database: how far it is closed and collected, what holds both back, and how far each
//! feed has come.
//!
//! `engine` makes the live report, and `report_lines` writes it as text. `specs/Report.antt` says what each part is.
//!
//! ```text
//! closed 30   horizon 9   feed 1 - -, its floor at 9   feed 2 - -, its floor at 9   transaction 31 of seat 0
//!
//! limit       at 9, by feed 1: of equal ones the first
//! oldest      31, of seat 0: a closing goes to 30
//! ```
ghost use Rattle.std.specs.Prelude.{◌≡◌, map, List, true, false, nat_lt, if◌then◌else◌};
ghost use Rattle.spans.specs.Report.{first_least, told_protection, told_feed, IsReport, limit_in, limit_of, limit};
ghost use Rattle.spans.specs.declared.calls.events.Event.{Event};
ghost use Rattle.spans.specs.Effects.{effects_of};
ghost use Rattle.spans.specs.Legal.{IsLegal};

use crate::kind::Kind;
use crate::span::Span;
use std::marker::Model;
use timestamps::Key;

/// An undecided transaction. A closing stops below the first of them.
#[derive(Clone, Copy, Debug, PartialEq, Eq)]
pub struct TransactionReport {
    pub timestamp: u64,
    /// The seat that began it.
    pub seat: u8,
    /// How many keys it wrote.
    pub keys: u64,
}

/// A protection that stands. A collection stops at the least timestamp of them.
#[derive(Clone, Copy, Debug, PartialEq, Eq)]
pub struct ProtectionReport {
    pub number: u64,
    pub timestamp: u64,
}

/// The row that a feed told last: its key and timestamp.
#[derive(Debug, Drop)]
pub struct ToldRow {
    pub ts: u64,
    pub key: Key,
}

impl Model for ToldRow {
    ghost use Rattle.spans.specs.Collection.{VersionName};

    ghost Value = { VersionName };

    ghost view = { λ n. record { key = n.key; ts = n.ts } };
}

/// A feed that lives. A collection stops at the least floor of them.
#[derive(Debug, Drop)]
pub struct FeedReport {
    pub number: u64,
    /// The seat that opened it.
    pub seat: u8,
    pub kind: Kind,
    pub span: Span,
    pub cursor: u64,
    /// The row that it told last.
    pub row: Option<ToldRow>,
    /// The timestamp that it resolved last.
    pub resolved: Option<u64>,
    /// Through where its consumer knows that all was told; none while an initial feed tells what is at its cursor.
    pub complete: Option<u64>,
    /// The floor that it sets to a collection.
    pub floor: u64,
    /// How many rows at or below closed it has still to tell. Only a whole report has it.
    pub untold: Option<u64>,
}

/// The report of a database. Its lists rise by timestamp, and by number.
#[derive(Debug)]
pub struct Report {
    pub closed: u64,
    pub horizon: u64,
    /// How many versions aren't dead.
    pub versions: u64,
    /// How many of them a collection up to closed would drop now. Only a whole report has it.
    pub removable: Option<u64>,
    pub transactions: Vec<TransactionReport>,
    pub protections: Vec<ProtectionReport>,
    pub feeds: Vec<FeedReport>,
}

// for the proof, which has no case for each part of it where a report is dropped
impl Drop for Report {
    fn drop(self) {
        let Report {
            closed: _,
            horizon: _,
            versions: _,
            removable: _,
            transactions: _,
            protections: _,
            feeds: _,
        } = self;
    }
}

/// The holder that keeps a collection from going further.
#[derive(Clone, Copy, Debug, PartialEq, Eq)]
pub enum Holder {
    /// Nothing but the closed timestamp.
    Closed,
    /// The protection of this number.
    Protection { number: u64 },
    /// The feed of this number.
    Feed { number: u64 },
}

/// How far a collection can go now, and what keeps it there.
#[derive(Clone, Copy, Debug, PartialEq, Eq)]
pub struct Limit {
    pub at: u64,
    pub by: Holder,
}

impl Report {
    /// How far a collection can go now, and what keeps it there.
    pub fn limit(&self) -> Limit
        ensures exact { result ≡ limit_in self.now }
        ensures whole { (h : List Event) → IsLegal h → IsReport true (effects_of h) self.now → result ≡ limit_of (effects_of h) }
        ensures live { (h : List Event) → IsLegal h → IsReport false (effects_of h) self.now → result ≡ limit_of (effects_of h) }
    {
        let closed = Limit {
            at: self.closed,
            by: Holder::Closed,
        };
        least_feed(least_protection(closed, &self.protections), &self.feeds)
    }
}

impl Limit {
    /// The limit of another holder, where that is lower.
    fn or_lower(self, at: u64, by: Holder) -> Limit
        ensures { result ≡ (if nat_lt at self.at then limit at by else self) }
    {
        if at < self.at { Limit { at, by } } else { self }
    }
}

/// The first of these that are least.
fn least_protection(limit: Limit, protections: &[ProtectionReport]) -> Limit
    ensures { result ≡ first_least limit (map told_protection protections.now) }
{
    let mut least = limit;
    for protection in protections {
        let number = protection.number;
        least = least.or_lower(protection.timestamp, Holder::Protection { number });
    }
    least
}

/// The first of these that are least.
fn least_feed(limit: Limit, feeds: &[FeedReport]) -> Limit
    ensures { result ≡ first_least limit (map told_feed feeds.now) }
{
    let mut least = limit;
    for feed in feeds {
        let number = feed.number;
        least = least.or_lower(feed.floor, Holder::Feed { number });
    }
    least
}
