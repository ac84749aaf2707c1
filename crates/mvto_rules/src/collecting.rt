//! A collection, and how far it can go.
//!
//! A read at a closed timestamp needs the newest committed version at or below it, and a feed those above its floor. So the
//! horizon, by which a collection drops what is dead, moves only as far as none of them needs anything below it. Of each key
//! the newest version that is committed at or below it stays, unless it is a delete.
//!
//! ```text
//!                           versions of "a"      closed   protection   floor of feed 1   horizon
//! collect 50                10* 20* 30* 40*      40       15           25                15        none
//! the protection ends       10* 20* 30* 40*      40                    25                15
//! collect 50                20* 30* 40*          40                    25                25        1 removed
//! feed 1 is cancelled       20* 30* 40*          40                                      25
//! collect 35                30* 40*              40                                      35        1 removed
//! collect 50                40*                  40                                      40        1 removed
//! collect 10                40*                  40                                      40        none
//! ```
ghost use Rattle.std.specs.Prelude.{ℕ, ◌≡◌};
ghost use Rattle.mvto_rules.specs.Prelude.{or_min, Collect, IsAnswered, IsLeastFloor};
ghost use Rattle.mvto_rules.specs.Holding.{IsLimit, Changes, closing_of};

use crate::rules::Rules;
use spans::{Refusal, Reply};
use timestamps::ts::MAX;

impl Rules {
    /// Collects through `to`, where `floor` is the least floor of the feeds, if any lives. It drops the versions that are
    /// dead by the horizon that it reaches. It takes no memory, so it never answers that it is out of it.
    pub fn collect(&mut self, to: u64, floor: Option<u64>) -> Reply
        ensures answered { (seat : ℕ) → Changes self.old self.new (λ k k'. IsLeastFloor k.feed floor → IsAnswered k k' seat (Collect to) result) }
    {
        if to > MAX {
            return Reply::Refused(Refusal::TsRange);
        }
        let horizon = self.horizon.max(to.min(self.limit(floor)));
        let removed = self.store.drop_dead(horizon);
        self.horizon = horizon;
        Reply::Collected { horizon, removed }
    }

    /// How far a collection can go now: to closed, and past no protection and no feed's floor.
    pub fn limit(&self, floor: Option<u64>) -> u64
        ensures { IsLimit (closing_of self.now) floor result }
    {
        let free = at_most(self.closing.closed(), floor);
        at_most(free, self.closing.least_protection())
    }
}

/// The lower of a number and another, where there is one.
fn at_most(number: u64, other: Option<u64>) -> u64
    ensures { result ≡ or_min other number }
{
    other.map_or(number, |other| other.min(number))
}
