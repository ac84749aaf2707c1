//! The checker's list of the protections that stand.
ghost use Rattle.std.specs.Prelude.{◌≡◌, ◌==◌, ◌<◌, [], map, min, reverse, suc, IfOk, OnErr};
ghost use Rattle.std.specs.List.{fold, list_any};
ghost use Rattle.plain_database.specs.Prelude.{Protection, Protects, Releases, is_protected, least_of, protection_report, protections_made, protections_of};
ghost use Rattle.plain_database.specs.ProtectionTie.{ProtectionsTied, Says, LeadsTo, timestamps_of, Standing};

use spans::ProtectionReport;
use std::alloc::{AllocError, Global};
use std::marker::Model;

/// A protected timestamp: what a read there wants is kept from being collected.
#[derive(Drop)]
struct Protection {
    id: u64,
    at: u64,
}

impl Model for Protection {
    ghost Value = { Protection };

    ghost view = { λ x. record { id = x.id; at = x.at } };
}

/// How many protections were made, and those that stand, the newest first.
#[derive(Drop)]
pub struct Protections {
    made: u64,
    standing: Vec<Protection>,
}

impl Model for Protections {
    ghost Value = { Standing };

    ghost view = { λ p. record { made = p.made; standing = p.standing.items } };
}

impl Protections {
    /// No protection.
    pub fn new(alloc: Global) -> Protections
        ensures { ProtectionsTied result [] }
    {
        Protections {
            made: 0,
            standing: Vec::new(alloc),
        }
    }

    /// How many protections were made.
    pub fn made(&self) -> u64
        ensures { result ≡ self.now.made }
    {
        self.made
    }

    /// Protects a timestamp, and answers the protection's number.
    pub fn protect(&mut self, t: u64) -> Result<u64, AllocError>
        requires room { self.old.made < u64.MAX }
        ensures number { IfOk result (λ id. Says self.old (λ p. id ≡ suc (protections_made p))) }
        ensures protected { IfOk result (λ id. LeadsTo self.old (Protects id t) self.new) }
        ensures err { OnErr result (self.new ≡ self.old) }
    {
        let id = self.made + 1;
        self.standing.insert(0, Protection { id, at: t })?;
        self.made = id;
        Ok(id)
    }

    /// Ends a protection. It takes no memory, and does nothing where none of this number stands.
    pub fn release(&mut self, id: u64)
        ensures { LeadsTo self.old (Releases id) self.new }
    {
        self.standing.retain(|protection| protection.id != id);
    }

    /// Whether a protection of this number stands.
    pub fn is_standing(&self, id: u64) -> bool
        ensures { Says self.now (λ p. result ≡ is_protected p id) }
    {
        has_id(self.standing.as_slice(), id)
    }

    /// The protections that stand, numbers rising.
    pub fn report(&self, alloc: Global) -> Result<Vec<ProtectionReport>, AllocError>
        ensures { IfOk result (λ ns. Says self.now (λ p.
            ns.items ≡ map protection_report (reverse (protections_of p)))) }
    {
        reports(alloc, self.standing.as_slice())
    }

    /// The least of `n` and the protected timestamps.
    #[tactic(auto, using(crate::proofs::Least::folded))]
    pub fn least(&self, n: u64) -> u64
        ensures { Says self.now (λ p. result ≡ least_of n (timestamps_of (protections_of p))) }
    {
        least_protected(self.standing.as_slice(), n)
    }
}

fn has_id(standing: &[Protection], id: u64) -> bool
    ensures { result ≡ list_any (λ (x : Protection). x.id == id) standing.now }
{
    standing.iter().any(|protection| protection.id == id)
}

fn least_protected(standing: &[Protection], n: u64) -> u64
    ensures { result ≡ fold min n (timestamps_of standing.now) }
{
    standing.iter().fold(n, |low, kept| low.min(kept.at))
}

fn reports(alloc: Global, standing: &[Protection]) -> Result<Vec<ProtectionReport>, AllocError>
    ensures { IfOk result (λ ns. ns.items ≡ map protection_report (reverse standing.now)) }
{
    let oldest_first = standing.iter().rev();
    let reports = oldest_first.map(|protection| ProtectionReport {
        number: protection.id,
        timestamp: protection.at,
    });
    reports.collect(alloc)
}
