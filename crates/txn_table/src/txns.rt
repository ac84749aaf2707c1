//! The table of transactions, by timestamp: who began, how each stands, and which are undecided.
ghost use Rattle.std.specs.Prelude.{◌≡◌, ◌&&◌, ℕ, None, IfOk, OnOk, OnErr, nat_le, nat_lt, option_map, is_none, if◌then◌else◌, length, ◌<◌, ◌^◌};
ghost use Rattle.std.specs.List.Sorted.{IsStrictlyIncreasing};
ghost use Rattle.spans.specs.Kept.{Transaction};
ghost use Rattle.kept.specs.Finding.{IsOldest, is_open, AreThose, IsNumberOf};
ghost use Rattle.txn_table.specs.States.{begun, decided, found, transaction_in, IsGreatest, IsSetAt, Table, AreUndecided};

use crate::ending::{Ending, Outcome};
use crate::undecided::Undecided;
use spans::State;
use std::alloc::{AllocError, Global};
use std::collections::BTreeMap;
use std::collections::btree_map::Entry;
use std::marker::Model;
use timestamps::{Ts, TsKey};

/// The transactions, of which the undecided ones stand apart.
#[derive(Drop)]
pub struct Txns {
    undecided: BTreeMap<TsKey, u8>,
    endings: BTreeMap<TsKey, Ending>,
}

impl Model for Txns {
    ghost Value = { Table };

    ghost view = { λ t. record { undecided = t.undecided.entries; endings = t.endings.entries } };

    ghost invariant = { λ t. AreUndecided t.undecided.entries t.endings.entries };
}

impl Txns {
    /// No transaction.
    pub fn new(alloc: Global) -> Txns
        ensures { (i : ℕ) → transaction_in result i ≡ None }
    {
        Txns {
            undecided: BTreeMap::new(alloc),
            endings: BTreeMap::new(alloc),
        }
    }

    /// Begins a transaction of a seat, unless there is one of `ts`, and answers whether it did.
    pub fn begin(&mut self, ts: Ts, seat: u8) -> Result<bool, AllocError>
        ensures new { IfOk result (λ new. new ≡ is_none (transaction_in self.old ts)) }
        ensures ok { OnOk result (IsSetAt self.old self.new ts (begun seat)) }
        ensures err { OnErr result (self.new ≡ self.old) }
        ensures free { OnErr result (transaction_in self.old ts ≡ None) }
    {
        let ts = TsKey(ts.get());
        match self.endings.entry(ts)? {
            Entry::Occupied(_) => Ok(false),
            Entry::Vacant(place) => {
                self.undecided.insert(ts, seat)?;
                place.insert(Ending {
                    seat,
                    outcome: Outcome::Committed,
                });
                Ok(true)
            }
        }
    }

    /// The seat that began the transaction of `ts`, and how it stands.
    pub fn standing(&self, ts: u64) -> Option<(u8, State)>
        ensures { result ≡ option_map (λ (n : Transaction). (n.seat, n.state)) (transaction_in self.now ts) }
    {
        if let Some(seat) = self.undecided.get(&TsKey(ts)) {
            return Some((*seat, State::Undecided));
        }
        let ending = self.endings.get(&TsKey(ts))?;
        Some(ending.standing())
    }

    /// Ends the transaction of `ts`, where there is one.
    pub fn decide(&mut self, ts: Ts, outcome: Outcome)
        ensures { IsSetAt self.old self.new ts (option_map (decided outcome)) }
    {
        let ts = TsKey(ts.get());
        let was_undecided = self.undecided.remove(&ts).is_some();
        if was_undecided && outcome == Outcome::Committed {
            // its ending says so already
            return;
        }
        if let Some(ending) = self.endings.get_mut(&ts) {
            ending.outcome = outcome;
        }
    }

    /// The least timestamp that is undecided.
    pub fn oldest_undecided(&self) -> Option<u64>
        ensures { IsOldest (transaction_in self.now) result }
    {
        let (oldest, _) = self.undecided.first_key_value()?;
        Some(oldest.0)
    }

    /// The greatest timestamp that has a transaction.
    pub fn greatest(&self) -> Option<u64>
        ensures { IsGreatest self.now result }
    {
        let (greatest, _) = self.endings.last_key_value()?;
        Some(greatest.0)
    }

    /// How many transactions are undecided.
    pub fn undecided(&self) -> u64
        ensures { IsNumberOf (λ t. is_open (transaction_in self.now t)) result }
    {
        self.undecided.len() as u64
    }

    /// The undecided timestamps at or below `to`, rising.
    pub fn undecided_through(&self, to: u64) -> Undecided<'_>
        ensures those { AreThose (λ t. nat_le t to && is_open (transaction_in self.now t)) result }
        ensures rising { IsStrictlyIncreasing result }
        ensures fits { length result < 2 ^ 63 }
    {
        Undecided {
            seats: self.undecided.range(..=TsKey(to)),
        }
    }

    /// Forgets the transactions at or below `ts`, undecided ones too.
    pub fn forget_through(&mut self, ts: u64)
        ensures { (i : ℕ) → transaction_in self.new i ≡ (if nat_lt ts i then transaction_in self.old i else None) }
    {
        drop_through(&mut self.undecided, ts);
        drop_through(&mut self.endings, ts);
    }
}

/// Drops what is at or below `ts`.
fn drop_through<V: Drop>(map: &mut BTreeMap<TsKey, V>, ts: u64)
    ensures { (i : ℕ) → found map.new.entries i ≡ (if nat_lt ts i then found map.old.entries i else None) }
{
    while let Some((first, _)) = map.first_key_value() {
        if first.0 > ts {
            break;
        }
        map.pop_first();
    }
}
