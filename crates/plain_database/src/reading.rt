//! The checker's reads of a key and of a span: in a transaction, and at a closed timestamp, which changes nothing.
ghost use Rattle.std.specs.Prelude.{◌≡◌, IfOk, OnErr, OnOk, true, ℕ};
ghost use Rattle.std.specs.Option.{option_copied};
ghost use Rattle.plain_database.specs.Prelude.{Get, ReadAt, Scan, ScanAt, first_refusal, is_accepted, snapshot_tests};
ghost use Rattle.plain_database.specs.Tied.{Accepts, AfterEach, Answers, Records, any_seat};
ghost use Rattle.plain_database.specs.Replies.{rows_seen};

use crate::Allocated;
use crate::database::PlainDatabase;
use crate::versions::reads::Read;
use spans::{Refusal, Reply, Rows, Span};
use timestamps::{Key, Value};

impl PlainDatabase {
    #[tactic(auto, using(crate::proofs::Common::legal_allowed, crate::proofs::Common::tests_past))]
    pub(crate) fn answer_get(&self, seat: u8, ts: u64, key: &Key) -> Allocated<Reply>
        ensures answer { IfOk result (λ reply. Answers self.now seat (Get ts key.now) reply) }
        ensures memory { OnErr result (Accepts self.now seat (Get ts key.now)) }
    {
        if let Some(refusal) = self.refusal(seat, ts) {
            return Ok(Reply::Refused(refusal));
        }
        if let Some(by) = self.versions.blocker_at(key, ts) {
            return Ok(Reply::Refused(Refusal::Blocked { by }));
        }
        Ok(Reply::Found(copied(self.versions.value_at(key, ts))?))
    }

    pub(crate) fn record_get(&mut self, ts: u64, key: &Key, reply: &Reply) -> Allocated<()>
        ensures ok { OnOk result ((seat : ℕ) → Records self.old seat (Get ts key.now) reply.now self.new) }
        ensures err { OnErr result (self.new ≡ self.old) }
        ensures memory { OnErr result (is_accepted reply.now ≡ true) }
    {
        let Reply::Found(_) = reply else {
            return Ok(());
        };
        let source = self.versions.source(key, ts);
        let key = key.copy()?;
        self.versions.read(ts, Read::Key { key, source })
    }

    #[tactic(auto, using(crate::proofs::Common::legal_allowed, crate::proofs::Common::tests_past, crate::proofs::Common::first_met, crate::proofs::Common::none_met))]
    pub(crate) fn answer_scan(&self, seat: u8, ts: u64, span: &Span) -> Allocated<Reply>
        ensures answer { IfOk result (λ reply. Answers self.now seat (Scan ts span.now) reply) }
        ensures memory { OnErr result (Accepts self.now seat (Scan ts span.now)) }
    {
        if let Some(refusal) = self.refusal(seat, ts) {
            return Ok(Reply::Refused(refusal));
        }
        if let Some(by) = self.versions.blocker(span, ts) {
            return Ok(Reply::Refused(Refusal::Blocked { by }));
        }
        Ok(Reply::Rows(self.visible_rows(span, ts)?))
    }

    /// The keys that the scan found are copied first, so that a failure changes nothing.
    pub(crate) fn record_scan(&mut self, ts: u64, span: &Span, reply: &Reply) -> Allocated<()>
        ensures ok { OnOk result ((seat : ℕ) → Records self.old seat (Scan ts span.now) reply.now self.new) }
        ensures err { OnErr result (self.new ≡ self.old) }
        ensures memory { OnErr result (is_accepted reply.now ≡ true) }
    {
        let Reply::Rows(_) = reply else {
            return Ok(());
        };
        let sources = self.versions.sources(self.alloc, span, ts)?;
        let span = span.copy()?;
        self.versions.read(ts, Read::Span { span, sources })
    }

    #[tactic(auto, using(std::proofs::lemmas::Bool::Decides::nat_tests, spans::proofs::Legal::legal_allowed, spans::proofs::Closed::closed_value))]
    pub(crate) fn answer_read_at(&self, t: u64, key: &Key) -> Allocated<Reply>
        ensures answer { IfOk result (λ reply. Answers self.now any_seat (ReadAt t key.now) reply) }
        ensures memory { OnErr result (Accepts self.now any_seat (ReadAt t key.now)) }
    {
        if let Some(refusal) = self.snapshot_refusal(t) {
            return Ok(Reply::Refused(refusal));
        }
        Ok(Reply::Found(copied(self.versions.value_at(key, t))?))
    }

    #[tactic(auto, using(std::proofs::lemmas::Bool::Decides::nat_tests, spans::proofs::Legal::legal_allowed, crate::proofs::SnapshotReplies::committed_pairs))]
    pub(crate) fn answer_scan_at(&self, t: u64, span: &Span) -> Allocated<Reply>
        ensures answer { IfOk result (λ reply. Answers self.now any_seat (ScanAt t span.now) reply) }
        ensures memory { OnErr result (Accepts self.now any_seat (ScanAt t span.now)) }
    {
        if let Some(refusal) = self.snapshot_refusal(t) {
            return Ok(Reply::Refused(refusal));
        }
        Ok(Reply::Rows(self.visible_rows(span, t)?))
    }

    /// The first of the tests of a read at a closed timestamp that applies.
    fn snapshot_refusal(&self, t: u64) -> Option<Refusal>
        ensures { AfterEach self.now (λ p. result ≡ first_refusal (snapshot_tests p t)) }
    {
        let (closed, horizon) = (self.versions.closed(), self.horizon);
        if t > closed {
            return Some(Refusal::NotClosed { closed });
        }
        (t < horizon).then_some(Refusal::BelowHorizon { horizon })
    }

    /// The rows of a span that a transaction sees.
    fn visible_rows(&self, span: &Span, ts: u64) -> Allocated<Rows>
        ensures { IfOk result (λ rows. AfterEach self.now (λ p. rows ≡ rows_seen p span.now ts)) }
    {
        let pairs = self.versions.pairs(self.alloc, span, None, ts, u64::MAX)?;
        Ok(Rows::from_vec(pairs))
    }
}

/// A copy of the value, if there is one.
pub(crate) fn copied(value: Option<&Value>) -> Allocated<Option<Value>>
    ensures { IfOk result (λ after. after ≡ option_copied value.entry) }
{
    match value {
        None => Ok(None),
        Some(value) => Ok(Some(value.copy()?)),
    }
}
