//! Closings, and what they let go: transactions, readers, and versions.
ghost use Rattle.std.specs.Prelude.{ℕ, ◌≡◌, ◌≤◌};
ghost use Rattle.mvto_rules.specs.Prelude.{Close, CloseHard, HaveSameMarks, IsClosedAt, MAX, closed_in};
ghost use Rattle.mvto_rules.specs.Holding.{AreTakenBack, IsCountTakenBack, is_taken_back, Changes, Steps, closing_of, AreMarksForgotten};
ghost use Rattle.mvto_rules.specs.Tables.{AreInRange};

use crate::rules::Rules;
use spans::{Refusal, Reply};
use timestamps::Ts;
use timestamps::ts::MAX;
use txn_table::Txns;
use version_chain::Store;

impl Rules {
    /// Closes through `to`, or up to just below the oldest undecided transaction where that is lower. It
    /// forgets the transactions and the readers there, and takes no memory.
    pub fn close(&mut self, to: u64) -> Reply
        ensures step { (seat : ℕ) → Steps self.old self.new seat (Close to) result }
        ensures marks { to ≤ MAX → AreMarksForgotten self.old self.new (closed_in (closing_of self.new)) }
    {
        if to > MAX {
            return Reply::Refused(Refusal::TsRange);
        }
        let oldest = self.txns.oldest_undecided();
        let at = self.closing.close(to, oldest);
        self.forget_closed();
        Reply::Closed { at, aborted: 0 }
    }

    /// Closes through `to`, and takes back what undecided transactions wrote there. It forgets them and
    /// the readers, and takes no memory.
    pub fn close_hard(&mut self, to: u64) -> Reply
        ensures step { (seat : ℕ) → Steps self.old self.new seat (CloseHard to) result }
        ensures marks { to ≤ MAX → AreMarksForgotten self.old self.new (closed_in (closing_of self.new)) }
    {
        if to > MAX {
            return Reply::Refused(Refusal::TsRange);
        }
        let aborted = take_back_through(&mut self.store, &self.txns, to);
        let at = self.closing.close_hard(to);
        self.forget_closed();
        Reply::Closed { at, aborted }
    }

    /// Forgets the transactions and the readers at or below what is closed, which was lower before.
    fn forget_closed(&mut self)
        ensures marks { AreMarksForgotten self.old self.new (closed_in (closing_of self.old)) }
        ensures closing { closing_of self.new ≡ closing_of self.old }
        ensures closed { (was : ℕ) → Changes self.old self.new (λ k k'. IsClosedAt (record k { closed = was }) k' k.closed) }
    {
        let closed = self.closing.closed();
        self.store.forget_through(closed);
        self.txns.forget_through(closed);
    }
}

/// Takes back what the undecided transactions at or below `to` wrote, and says how many they are.
fn take_back_through(store: &mut Store, txns: &Txns, to: u64) -> u64
    requires in_range { AreInRange txns.now }
    ensures gone { AreTakenBack store.old store.new (is_taken_back txns.now to) }
    ensures marks { HaveSameMarks store.old store.new }
    ensures count { IsCountTakenBack txns.now to result }
{
    let mut count = 0u64;
    for ts in txns.undecided_through(to) {
        // each number in the table is one
        let ts = Ts::new(ts.0).unwrap();
        store.abort(ts);
        count += 1;
    }
    count
}
