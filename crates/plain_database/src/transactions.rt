//! The checker's begin, put, del, commit and abort. A command's answer stands beside its record.
ghost use Rattle.std.specs.Prelude.{◌≡◌, OnErr, OnOk, length, true, ℕ};
ghost use Rattle.std.specs.Option.{option_copied};
ghost use Rattle.plain_database.specs.Prelude.{Abort, Begin, Commit, first_refusal, is_accepted, transaction_tests};
ghost use Rattle.plain_database.specs.Table.{begun_at, keys_in};
ghost use Rattle.plain_database.specs.Tied.{AfterEach, Answers, Records, any_seat};
ghost use Rattle.plain_database.specs.Replies.{write_answer, write_cmd};

use crate::Allocated;
use crate::database::PlainDatabase;
use crate::reading::copied;
use spans::{Refusal, Reply, State};
use timestamps::ts::MAX;
use timestamps::{Key, Value};

impl PlainDatabase {
    pub(crate) fn answer_begin(&self, ts: u64) -> Reply
        ensures { Answers self.now any_seat (Begin ts) result }
    {
        let closed = self.versions.closed();
        if ts == 0 || ts > MAX {
            return Reply::Refused(Refusal::TsRange);
        }
        if ts <= closed {
            return Reply::Refused(Refusal::BelowClosed { closed });
        }
        if self.versions.find(ts).is_some() {
            return Reply::Refused(Refusal::TsUsed);
        }
        Reply::Started
    }

    pub(crate) fn record_begin(&mut self, seat: u8, ts: u64, reply: &Reply) -> Allocated<()>
        ensures ok { OnOk result (Records self.old seat (Begin ts) reply.now self.new) }
        ensures err { OnErr result (self.new ≡ self.old) }
        ensures memory { OnErr result (is_accepted reply.now ≡ true) }
    {
        match reply {
            Reply::Started => self.versions.begin(ts, seat),
            _ => Ok(()),
        }
    }

    pub(crate) fn answer_write(&self, seat: u8, ts: u64, key: &Key) -> Reply
        ensures { AfterEach self.now (λ p. result ≡ write_answer p seat ts key.now) }
    {
        if let Some(refusal) = self.refusal(seat, ts) {
            return Reply::Refused(refusal);
        }
        if self.versions.any_across(key, ts) {
            return Reply::Refused(Refusal::TooLate);
        }
        Reply::Written
    }

    /// Records a put, or a delete where there is no value.
    pub(crate) fn record_write(
        &mut self,
        ts: u64,
        key: &Key,
        value: Option<&Value>,
        reply: &Reply,
    ) -> Allocated<()>
        ensures ok { OnOk result ((seat : ℕ) →
            Records self.old seat (write_cmd ts key.now (option_copied value.entry)) reply.now self.new) }
        ensures err { OnErr result (self.new ≡ self.old) }
        ensures memory { OnErr result (is_accepted reply.now ≡ true) }
    {
        match reply {
            Reply::Written => self.versions.write(ts, key, copied(value)?),
            Reply::Refused(Refusal::TooLate) => {
                self.versions.end(ts, State::Aborted);
                Ok(())
            }
            _ => Ok(()),
        }
    }

    #[tactic(auto, using(crate::proofs::Common::write_set_length))]
    pub(crate) fn answer_commit(&self, seat: u8, ts: u64) -> Reply
        ensures { Answers self.now seat (Commit ts) result }
    {
        if let Some(refusal) = self.refusal(seat, ts) {
            return Reply::Refused(refusal);
        }
        let keys = self.write_count(ts);
        Reply::Committed { keys }
    }

    pub(crate) fn record_commit(&mut self, ts: u64, reply: &Reply)
        ensures { (seat : ℕ) → Records self.old seat (Commit ts) reply.now self.new }
    {
        if let Reply::Committed { .. } = reply {
            self.versions.end(ts, State::Committed);
        }
    }

    pub(crate) fn answer_abort(&self, seat: u8, ts: u64) -> Reply
        ensures { Answers self.now seat (Abort ts) result }
    {
        if let Some(refusal) = self.refusal(seat, ts) {
            return Reply::Refused(refusal);
        }
        Reply::Aborted
    }

    pub(crate) fn record_abort(&mut self, ts: u64, reply: &Reply)
        ensures { (seat : ℕ) → Records self.old seat (Abort ts) reply.now self.new }
    {
        if let Reply::Aborted = reply {
            self.versions.end(ts, State::Aborted);
        }
    }

    /// How many keys a transaction wrote.
    fn write_count(&self, ts: u64) -> u64
        ensures { result ≡ length (keys_in (begun_at self.now.versions.table ts)) }
    {
        let begun = self.versions.find(ts);
        begun.map_or(0, |begun| begun.writes.len())
    }

    /// The first of a transaction's tests that applies.
    pub(crate) fn refusal(&self, seat: u8, ts: u64) -> Option<Refusal>
        ensures { AfterEach self.now (λ p. result ≡ first_refusal (transaction_tests p seat ts)) }
    {
        if ts <= self.versions.closed() {
            return Some(Refusal::Ended);
        }
        match self.versions.find(ts) {
            None => Some(Refusal::NoTxn),
            Some(begun) if begun.seat != seat => Some(Refusal::NotOwner),
            Some(begun) if begun.state == State::Undecided => None,
            Some(_) => Some(Refusal::Ended),
        }
    }
}
