//! What an operator may ask of the database: the statistics, and the report.
ghost use Rattle.std.specs.Prelude.{◌≡◌, ◌-◌, IfOk, length, ℕ};
ghost use Rattle.plain_database.specs.Prelude.{AreFeeds, IsReport, Stats, dead_of, versions_of};
ghost use Rattle.plain_database.specs.Tied.{AfterCounted, AfterEach, AnswersCounted, any_seat};
ghost use Rattle.plain_database.specs.Streams.{IsUntoldIn};

use crate::Allocated;
use crate::database::PlainDatabase;
use crate::feeds::record::FeedRecord;
use spans::{FeedReport, Reply, Report};
use std::alloc::AllocError;

impl PlainDatabase {
    /// The versions are counted without the dead ones.
    #[tactic(auto, using(spans::proofs::Legal::legal_allowed))]
    pub(crate) fn answer_stats(&self) -> Reply
        ensures { AnswersCounted self.now any_seat Stats result }
    {
        Reply::Stats {
            versions: self.kept_versions(),
            undecided: self.versions.open_count(),
            feeds: self.feeds.live_count(),
            closed: self.versions.closed(),
            horizon: self.horizon,
        }
    }

    /// The report: whole, or live, without the two counts that need a walk. It changes nothing.
    #[tactic(auto, using(spans::proofs::Legal::legal_allowed))]
    pub fn report(&self, whole: bool) -> Result<Report, AllocError>
        ensures report { IfOk result (λ report. AfterCounted self.now (λ p. IsReport whole p report)) }
    {
        Ok(Report {
            closed: self.versions.closed(),
            horizon: self.horizon,
            versions: self.kept_versions(),
            removable: whole.then(|| self.collection(self.versions.closed()).1),
            transactions: self.versions.open_reports(self.alloc)?,
            protections: self.protections.report(self.alloc)?,
            feeds: self.feed_reports(whole)?,
        })
    }

    /// How many versions aren't dead.
    #[tactic(auto, using(crate::proofs::Counting::counting))]
    fn kept_versions(&self) -> u64
        ensures { AfterCounted self.now (λ p. result ≡ length (versions_of p) - length (dead_of p)) }
    {
        let closed = self.versions.closed();
        let above = self.versions.count_between(closed, u64::MAX);
        self.passed.saturating_add(above).saturating_sub(self.dead)
    }

    /// The feeds that live, numbers rising.
    fn feed_reports(&self, whole: bool) -> Allocated<Vec<FeedReport>>
        ensures { IfOk result (λ ns. AfterEach self.now (λ p. AreFeeds whole p ns.items)) }
    {
        let mut reports = Vec::new(self.alloc);
        for record in self.feeds.live() {
            let untold = self.untold_in(whole, record)?;
            reports.push(record.report(untold)?)?;
        }
        // the newest came first
        reports.reverse();
        Ok(reports)
    }

    /// How many rows a feed has still to tell, where the report is a whole one.
    fn untold_in(&self, whole: bool, feed: &FeedRecord) -> Allocated<Option<u64>>
        ensures { IfOk result (IsUntoldIn self.now whole feed.now) }
    {
        if !whole {
            return Ok(None);
        }
        let rows = self.rows_left(feed, u64::MAX)?;
        Ok(Some(rows.len() as u64))
    }
}
