//! What a dump writes, as the checker finds it: the versions that are left, where it closes, and the horizon.
ghost use Rattle.std.specs.Prelude.{◌≡◌, ◌≤◌, IfOk};
ghost use Rattle.plain_database.specs.Prelude.{MAX, left_rows, mark_of};
ghost use Rattle.plain_database.specs.Tied.{AfterEach};
ghost use Rattle.plain_database.specs.Streams.{IsDump, is_kept};

use crate::Allocated;
use crate::database::PlainDatabase;
use spans::Span;
use std::alloc::AllocError;
use timestamps::{Row, Ts};

/// The contents of a dump.
#[derive(Drop)]
pub struct Dump {
    /// The versions that are left, by timestamp and then by key.
    pub rows: Vec<Row>,
    /// The timestamp at which the dump closes.
    pub to: u64,
    pub horizon: u64,
}

impl PlainDatabase {
    /// The dump that closes at `at`, or at the greatest of closed and all that began, where that is above. It changes
    /// nothing.
    #[tactic(auto, using(spans::proofs::Legal::legal_allowed, restarts::proofs::InRange::has_mark, crate::proofs::Dumping::greatest_more))]
    pub fn dump(&self, at: u64) -> Result<Dump, AllocError>
        requires { at ≤ MAX }
        ensures { IfOk result (λ dump. AfterEach self.now (λ p. IsDump p (mark_of p at) dump)) }
    {
        let to = at.max(self.versions.closed()).max(self.versions.latest());
        let rows = self.left_rows(to)?;
        let horizon = self.horizon;
        Ok(Dump { rows, to, horizon })
    }

    /// The rows of the versions through a timestamp that are left.
    fn left_rows(&self, through: u64) -> Allocated<Vec<Row>>
        ensures { IfOk result (λ rows. AfterEach self.now (λ p. through ≤ MAX → rows.items ≡ left_rows p through)) }
    {
        let Some(through) = Ts::new(through) else {
            // no version lies at 0
            return Ok(Vec::new(self.alloc));
        };
        let versions = &self.versions;
        let span = Span { lo: None, hi: None };
        let mut rows = versions.rows_after(self.alloc, &span, 0, None, through, u64::MAX)?;
        rows.retain(|row| self.is_left(row));
        Ok(rows)
    }

    /// Whether a committed version isn't dead, by its row.
    fn is_left(&self, row: &Row) -> bool
        ensures { result ≡ is_kept self.now row.now }
    {
        row.ts.get() > self.horizon
            || row.after.is_some() && self.versions.source(&row.key, self.horizon) <= row.ts.get()
    }
}
