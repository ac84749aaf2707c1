//! How closed and the horizon move: the checker's closings, protections and collections.
ghost use Rattle.std.specs.Prelude.{◌≡◌, ◌+◌, ◌-◌, ◌^◌, OnErr, OnOk, min, true, ℕ};
ghost use Rattle.plain_database.specs.Prelude.{Close, CloseHard, Collect, collection_horizon, Protect, Release, first_refusal, horizon_tests, is_accepted};
ghost use Rattle.plain_database.specs.Tied.{AfterCounted, AfterEach, Answers, AnswersCounted, Records, any_seat};
ghost use Rattle.plain_database.specs.VersionsTied.{newly_dead, versions_between, Says};

use crate::Allocated;
use crate::database::PlainDatabase;
use crate::feeds::horizon::horizon_reached;
use spans::{Refusal, Reply};
use std::alloc::AllocError;
use timestamps::ts::MAX;

impl PlainDatabase {
    #[tactic(auto, using(crate::proofs::Common::legal_allowed))]
    pub(crate) fn answer_close(&self, to: u64) -> Reply
        ensures { Answers self.now any_seat (Close to) result }
    {
        if to > MAX {
            return Reply::Refused(Refusal::TsRange);
        }
        let at = self.versions.closed_by(to);
        Reply::Closed { at, aborted: 0 }
    }

    #[tactic(auto, using(crate::proofs::Common::legal_allowed))]
    pub(crate) fn answer_close_hard(&self, to: u64) -> Reply
        ensures { Answers self.now any_seat (CloseHard to) result }
    {
        if to > MAX {
            return Reply::Refused(Refusal::TsRange);
        }
        let at = self.versions.closed().max(to);
        let aborted = self.versions.open_through(to);
        Reply::Closed { at, aborted }
    }

    /// Records a closing, or a hard one.
    pub(crate) fn record_close(&mut self, reply: &Reply)
        ensures soft { (seat to : ℕ) → Records self.old seat (Close to) reply.now self.new }
        ensures hard { (seat to : ℕ) → Records self.old seat (CloseHard to) reply.now self.new }
    {
        if let Reply::Closed { at, .. } = reply {
            self.close(*at);
        }
    }

    /// Moves closed, and counts the versions that it passes. Whoever is undecided at or below it is aborted by that.
    fn close(&mut self, at: u64)
        ensures versions { self.new.versions ≡ record self.old.versions { closed = at } }
        ensures rest { self.new ≡ record self.old { versions = self.new.versions; passed = self.new.passed } }
        ensures counted { Says self.new.versions (λ p.
            self.new.passed ≡ min (self.old.passed + versions_between p self.old.versions.closed at) (2 ^ 64 - 1)) }
    {
        let before = self.versions.closed();
        self.versions.close(at);
        let more = self.versions.count_between(before, at);
        self.passed = self.passed.saturating_add(more);
    }

    #[tactic(auto, using(spans::proofs::Histories::made_at_most, spans::proofs::Histories::effect_count))]
    pub(crate) fn answer_protect(&self, t: u64) -> Reply
        ensures { AnswersCounted self.now any_seat (Protect t) result }
    {
        if let Some(refusal) = self.horizon_refusal(t) {
            return Reply::Refused(refusal);
        }
        // no more were made than there were commands, so a number is left
        let id = self.protections.made().saturating_add(1);
        Reply::Protected { id }
    }

    pub(crate) fn record_protect(&mut self, t: u64, reply: &Reply) -> Allocated<()>
        ensures ok { OnOk result ((seat : ℕ) → Records self.old seat (Protect t) reply.now self.new) }
        ensures err { OnErr result (self.new ≡ self.old) }
        ensures memory { OnErr result (is_accepted reply.now ≡ true) }
    {
        let Reply::Protected { .. } = reply else {
            return Ok(());
        };
        if self.protections.made() == u64::MAX {
            return Err(AllocError);
        }
        let _id = self.protections.protect(t)?;
        Ok(())
    }

    pub(crate) fn answer_release(&self, id: u64) -> Reply
        ensures { Answers self.now any_seat (Release id) result }
    {
        if !self.protections.is_standing(id) {
            return Reply::Refused(Refusal::NoProtection);
        }
        Reply::Released
    }

    pub(crate) fn record_release(&mut self, id: u64, reply: &Reply)
        ensures { (seat : ℕ) → Records self.old seat (Release id) reply.now self.new }
    {
        if let Reply::Released = reply {
            self.protections.release(id);
        }
    }

    /// The first of the tests of what looks back to a timestamp that applies.
    fn horizon_refusal(&self, t: u64) -> Option<Refusal>
        ensures { AfterEach self.now (λ p. result ≡ first_refusal (horizon_tests p t)) }
    {
        let horizon = self.horizon;
        if t > MAX {
            return Some(Refusal::TsRange);
        }
        (t < horizon).then_some(Refusal::BelowHorizon { horizon })
    }

    pub(crate) fn answer_collect(&self, to: u64) -> Reply
        ensures { AnswersCounted self.now any_seat (Collect to) result }
    {
        if to > MAX {
            return Reply::Refused(Refusal::TsRange);
        }
        let (horizon, removed) = self.collection(to);
        Reply::Collected { horizon, removed }
    }

    /// Moves the horizon. The dead versions stay, as nothing is forgotten here, and are counted.
    pub(crate) fn record_collect(&mut self, to: u64, reply: &Reply)
        ensures { (seat : ℕ) → Records self.old seat (Collect to) reply.now self.new }
    {
        if let Reply::Collected { horizon, removed } = reply {
            self.horizon = *horizon;
            self.dead = self.dead.saturating_add(*removed);
        }
    }

    /// The horizon that a collection through `to` reaches, and how many versions die by it.
    #[tactic(auto, using(spans::proofs::Legal::legal_allowed, crate::proofs::Collecting::collection_low, crate::proofs::Counting::dead_fit))]
    pub(crate) fn collection(&self, to: u64) -> (u64, u64)
        ensures horizon { AfterEach self.now (λ p. result.0 ≡ collection_horizon p to) }
        ensures removed { AfterCounted self.now (λ p. result.1 ≡ newly_dead p (collection_horizon p to)) }
    {
        let closed = self.versions.closed();
        let horizon = horizon_reached(&self.feeds, &self.protections, to, closed, self.horizon);
        (horizon, self.versions.died_between(self.horizon, horizon))
    }
}
