//! What a report tells of the undecided transactions.
ghost use Rattle.std.specs.Prelude.{IfOk};
ghost use Rattle.kept.specs.Reports.{AreOpen};
ghost use Rattle.mvto_rules.specs.Holding.{Holds};

use crate::rules::Rules;
use spans::TransactionReport;
use std::alloc::AllocError;

impl Rules {
    /// The undecided transactions, timestamps rising. It takes memory for them alone.
    pub fn undecided_report(&self) -> Result<Vec<TransactionReport>, AllocError>
        ensures { IfOk result (λ ns. Holds self.now (λ k. AreOpen k ns.items)) }
    {
        let mut reports = Vec::new(self.alloc);
        for ts in self.txns.undecided_through(u64::MAX) {
            // each of them has a transaction
            let (seat, _) = self.txns.standing(ts.0).unwrap();
            reports.push(TransactionReport {
                timestamp: ts.0,
                seat,
                keys: self.store.written_at(ts.0),
            })?;
        }
        Ok(reports)
    }
}
