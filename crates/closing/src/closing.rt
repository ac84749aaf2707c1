//! The closed timestamp and the protections.
ghost use Rattle.std.specs.Prelude.{◌≡◌, ◌==◌, ◌<◌, ◌≤◌, ◌∷◌, ℕ, [], IfOk, OnOk, OnErr, false, filter, map, max, not, reverse, suc};
ghost use Rattle.std.specs.List.{list_any};
ghost use Rattle.spans.specs.Collection.{Protection};
ghost use Rattle.spans.specs.Report.{protection_report};
ghost use Rattle.spans.specs.Transactions.{least_of};
ghost use Rattle.kept.specs.Places.{or_min};
ghost use Rattle.kept.specs.Finding.{reach};
ghost use Rattle.closing.specs.Standing.{closed_in, entry_report, made_in, protections_in, protection, Standing, newest_first, AreTied};

use spans::ProtectionReport;
use std::alloc::{AllocError, Global};
use std::collections::{BTreeMap, BTreeSet};
use std::marker::Model;

/// Up to where timestamps are closed, and the protections that stand.
#[derive(Drop)]
pub struct Closing {
    alloc: Global,
    closed: u64,
    made: u64,
    by_number: BTreeMap<u64, u64>,
    by_timestamp: BTreeSet<(u64, u64)>,
}

impl Model for Closing {
    ghost Value = { Standing };

    ghost view = { λ c. record { closed = c.closed; made = c.made; protections = newest_first c.by_number.entries } };

    ghost invariant = { λ c. AreTied c.made c.by_number c.by_timestamp };
}

impl Closing {
    /// Nothing is closed, and nothing is protected.
    pub fn new(alloc: Global) -> Closing
        ensures closed { closed_in result ≡ 0 }
        ensures protections { protections_in result ≡ [] }
        ensures made { made_in result ≡ 0 }
    {
        Closing {
            alloc,
            closed: 0,
            made: 0,
            by_number: BTreeMap::new(alloc),
            by_timestamp: BTreeSet::new(alloc),
        }
    }

    /// The closed timestamp.
    pub fn closed(&self) -> u64
        ensures { result ≡ closed_in self.now }
    {
        self.closed
    }

    /// How many protections were made.
    pub fn made(&self) -> u64
        ensures { result ≡ made_in self.now }
    {
        self.made
    }

    /// Closes through `to`, or to just below the oldest undecided transaction where that is lower, and answers where
    /// closed then stands.
    pub fn close(&mut self, to: u64, oldest: Option<u64>) -> u64
        ensures answer { result ≡ closed_in self.new }
        ensures closed { closed_in self.new ≡ max (closed_in self.old) (reach to oldest) }
        ensures never_falls { closed_in self.old ≤ closed_in self.new }
        ensures protections { protections_in self.new ≡ protections_in self.old }
        ensures made { made_in self.new ≡ made_in self.old }
    {
        self.close_hard(oldest.map_or(to, |oldest| to.min(oldest.saturating_sub(1))))
    }

    /// Closes through `to` whatever is undecided, and answers where closed then stands.
    pub fn close_hard(&mut self, to: u64) -> u64
        ensures answer { result ≡ closed_in self.new }
        ensures closed { closed_in self.new ≡ max (closed_in self.old) to }
        ensures never_falls { closed_in self.old ≤ closed_in self.new }
        ensures protections { protections_in self.new ≡ protections_in self.old }
        ensures made { made_in self.new ≡ made_in self.old }
    {
        self.closed = self.closed.max(to);
        self.closed()
    }

    /// Protects a timestamp, and answers the protection's number. Where it is out of memory, nothing is protected.
    #[tactic(auto, using(crate::proofs::Numbers::number_stands, crate::proofs::Numbers::none_beyond, crate::proofs::Numbers::insert_last, crate::proofs::Numbers::newest_push))]
    pub fn protect(&mut self, t: u64) -> Result<u64, AllocError>
        requires room { made_in self.old < u64.MAX }
        ensures number { IfOk result (λ id. id ≡ suc (made_in self.old)) }
        ensures fresh { IfOk result (λ id. list_any (λ (n : Protection). n.id == id) (protections_in self.old) ≡ false) }
        ensures protected { IfOk result (λ id. protections_in self.new ≡ protection id t ∷ protections_in self.old) }
        ensures made { OnOk result (made_in self.new ≡ suc (made_in self.old)) }
        ensures closed { closed_in self.new ≡ closed_in self.old }
        ensures err { OnErr result (self.new ≡ self.old) }
    {
        let id = self.made + 1;
        self.by_timestamp.insert((t, id))?;
        let Ok(_) = self.by_number.insert(id, t) else {
            self.by_timestamp.remove(&(t, id));
            return Err(AllocError);
        };
        self.made = id;
        Ok(id)
    }

    /// Ends a protection, and answers whether one of this number stood. It takes no memory.
    #[tactic(auto, using(crate::proofs::Numbers::newest_removed))]
    pub fn release(&mut self, id: u64) -> bool
        ensures stood { result ≡ list_any (λ (n : Protection). n.id == id) (protections_in self.old) }
        ensures released { protections_in self.new ≡ filter (λ (n : Protection). not (n.id == id)) (protections_in self.old) }
        ensures made { made_in self.new ≡ made_in self.old }
        ensures closed { closed_in self.new ≡ closed_in self.old }
    {
        match self.by_number.remove(&id) {
            None => false,
            Some(at) => {
                self.by_timestamp.remove(&(at, id));
                true
            }
        }
    }

    /// The least timestamp that is protected.
    pub fn least_protection(&self) -> Option<u64>
        ensures { (n : ℕ) → or_min result n ≡ least_of n (map (λ (p : Protection). p.at) (protections_in self.now)) }
    {
        Some(self.by_timestamp.first()?.0)
    }

    /// The protections that stand, numbers rising. It takes memory for them alone.
    pub fn protections(&self) -> Result<Vec<ProtectionReport>, AllocError>
        ensures { IfOk result (λ ns. ns.items ≡ map protection_report (reverse (protections_in self.now))) }
    {
        protection_reports(self.alloc, &self.by_number)
    }
}

/// The protections of these numbers with their timestamps.
fn protection_reports(
    alloc: Global,
    by_number: &BTreeMap<u64, u64>,
) -> Result<Vec<ProtectionReport>, AllocError>
    ensures { IfOk result (λ ns. ns.items ≡ map entry_report by_number.now.entries) }
{
    let reports = by_number.iter().map(|(number, timestamp)| ProtectionReport {
        number: *number,
        timestamp: *timestamp,
    });
    reports.collect(alloc)
}
