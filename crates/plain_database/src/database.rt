//! The checker's database: the transactions, the feeds and the protections, the horizon, and two numbers of versions.
ghost use Rattle.std.specs.Prelude.{◌≡◌, IfOk, OnErr, OnOk, [], true};
ghost use Rattle.plain_database.specs.Prelude.{is_accepted, may_lack_memory};
ghost use Rattle.plain_database.specs.Tied.{AnswersCounted, MayLackMemory, Records, StandsFor};

use crate::feeds::book::FeedBook;
use crate::feeds::protections::Protections;
use crate::versions::store::VersionStore;
use spans::{Cmd, Reply};
use std::alloc::{AllocError, Global};

/// The state that a history led to.
#[derive(Drop)]
pub struct PlainDatabase {
    pub(crate) alloc: Global,
    pub(crate) versions: VersionStore,
    /// How many versions stand at or below closed.
    pub(crate) passed: u64,
    pub(crate) horizon: u64,
    /// How many versions are dead.
    pub(crate) dead: u64,
    pub(crate) feeds: FeedBook,
    pub(crate) protections: Protections,
}

impl PlainDatabase {
    /// The database of the empty history.
    pub fn new(alloc: Global) -> PlainDatabase
        ensures { StandsFor result [] }
    {
        PlainDatabase {
            alloc,
            versions: VersionStore::new(alloc),
            passed: 0,
            horizon: 0,
            dead: 0,
            feeds: FeedBook::new(alloc),
            protections: Protections::new(alloc),
        }
    }

    /// The answer to a seat's command, after a history whose events a `u64` can count. It changes nothing.
    pub fn answer(&self, seat: u8, cmd: &Cmd) -> Result<Reply, AllocError>
        ensures answer { IfOk result (λ reply. AnswersCounted self.now seat cmd.now reply) }
        ensures memory { OnErr result (MayLackMemory self.now seat cmd.now) }
    {
        match cmd {
            Cmd::Begin { ts } => Ok(self.answer_begin(*ts)),
            Cmd::Get { ts, key } => self.answer_get(seat, *ts, key),
            Cmd::Scan { ts, span } => self.answer_scan(seat, *ts, span),
            Cmd::Put { ts, key, .. } => Ok(self.answer_write(seat, *ts, key)),
            Cmd::Del { ts, key } => Ok(self.answer_write(seat, *ts, key)),
            Cmd::Commit { ts } => Ok(self.answer_commit(seat, *ts)),
            Cmd::Abort { ts } => Ok(self.answer_abort(seat, *ts)),
            Cmd::Close { to } => Ok(self.answer_close(*to)),
            Cmd::CloseHard { to } => Ok(self.answer_close_hard(*to)),
            Cmd::ReadAt { t, key } => self.answer_read_at(*t, key),
            Cmd::ScanAt { t, span } => self.answer_scan_at(*t, span),
            Cmd::Protect { t } => Ok(self.answer_protect(*t)),
            Cmd::Release { id } => Ok(self.answer_release(*id)),
            Cmd::Open { cursor, .. } => Ok(self.answer_open(false, None, *cursor)),
            Cmd::OpenInitial { cursor, .. } => Ok(self.answer_open(true, None, *cursor)),
            Cmd::OpenEvery { cursor, gap, .. } => Ok(self.answer_open(false, Some(*gap), *cursor)),
            Cmd::OpenInitialEvery { cursor, gap, .. } => {
                Ok(self.answer_open(true, Some(*gap), *cursor))
            }
            Cmd::Cancel { feed } => Ok(self.answer_cancel(*feed)),
            Cmd::Collect { to } => Ok(self.answer_collect(*to)),
            Cmd::Poll { feed, max } => self.answer_poll(seat, *feed, *max),
            Cmd::Stats => Ok(self.answer_stats()),
        }
    }

    /// Takes in a command with its right reply. Where it is out of memory, nothing changes.
    pub fn record(&mut self, seat: u8, cmd: &Cmd, reply: &Reply) -> Result<(), AllocError>
        ensures ok { OnOk result (Records self.old seat cmd.now reply.now self.new) }
        ensures err { OnErr result (self.new ≡ self.old) }
        ensures memory { OnErr result ((is_accepted reply.now ≡ true) × (may_lack_memory cmd.now ≡ true)) }
    {
        match cmd {
            Cmd::Begin { ts } => self.record_begin(seat, *ts, reply)?,
            Cmd::Get { ts, key } => self.record_get(*ts, key, reply)?,
            Cmd::Scan { ts, span } => self.record_scan(*ts, span, reply)?,
            Cmd::Put { ts, key, value } => self.record_write(*ts, key, Some(value), reply)?,
            Cmd::Del { ts, key } => self.record_write(*ts, key, None, reply)?,
            Cmd::Commit { ts } => self.record_commit(*ts, reply),
            Cmd::Abort { ts } => self.record_abort(*ts, reply),
            Cmd::Close { .. } => self.record_close(reply),
            Cmd::CloseHard { .. } => self.record_close(reply),
            Cmd::ReadAt { .. } => {}
            Cmd::ScanAt { .. } => {}
            Cmd::Protect { t } => self.record_protect(*t, reply)?,
            Cmd::Release { id } => self.record_release(*id, reply),
            Cmd::Open { span, cursor } => {
                self.record_open(seat, false, None, span, *cursor, reply)?
            }
            Cmd::OpenInitial { span, cursor } => {
                self.record_open(seat, true, None, span, *cursor, reply)?
            }
            Cmd::OpenEvery { span, cursor, gap } => {
                self.record_open(seat, false, Some(*gap), span, *cursor, reply)?
            }
            Cmd::OpenInitialEvery { span, cursor, gap } => {
                self.record_open(seat, true, Some(*gap), span, *cursor, reply)?
            }
            Cmd::Cancel { feed } => self.record_cancel(*feed, reply),
            Cmd::Collect { to } => self.record_collect(*to, reply),
            Cmd::Poll { feed, .. } => self.record_poll(*feed, reply)?,
            Cmd::Stats => {}
        }
        Ok(())
    }
}
