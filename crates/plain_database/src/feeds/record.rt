//! One of the checker's feeds: whose it is, what it watches, what it was told, its next messages, and its report.
ghost use Rattle.std.specs.Prelude.{◌≡◌, ◌≤◌, ◌++◌, length, map, IfOk, OnErr, OnOk};
ghost use Rattle.std.specs.Option.{option_to_list};
ghost use Rattle.plain_database.specs.Prelude.{MAX};
ghost use Rattle.plain_database.specs.FeedTie.{record_report, due_in, floor_in, fresh_told, told_more, AreNext};

use crate::Allocated;
use spans::{FeedReport, Kind, Message, Messages, Span, ToldRow};
use std::alloc::{AllocError, Global};
use timestamps::{Row, Ts};

/// The record of a feed that lives.
#[derive(Drop)]
pub struct FeedRecord {
    pub number: u64,
    /// The seat that opened it.
    pub seat: u8,
    pub kind: Kind,
    pub span: Span,
    /// Its stream has the versions above this timestamp.
    pub cursor: u64,
    pub(crate) told: Told,
}

/// The traces that a feed's messages leave, however many they were.
#[derive(Drop)]
pub(crate) struct Told {
    /// The row that was told last.
    pub(crate) row: Option<ToldRow>,
    /// The greatest of the start and the resolved timestamps.
    pub(crate) resolved: u64,
    /// The timestamp that was resolved last, if one was.
    pub(crate) latest: Option<u64>,
    /// Up to where the last message says that all is told; the start before the first.
    pub(crate) floor: u64,
}

impl FeedRecord {
    /// Up to where all is told, and never below the cursor.
    pub(crate) fn floor(&self) -> u64
        ensures { result ≡ floor_in self.now }
    {
        self.cursor.max(self.told.floor)
    }

    /// Its next messages, at most `max`: `rows`, which are the first `max` that it was not told, and then the
    /// resolved message that is due. Its list goes through `closed`. It isn't told them yet.
    #[tactic(auto, using(crate::proofs::Telling::next_is))]
    pub fn next_messages(
        &self,
        alloc: Global,
        max: u64,
        closed: u64,
        rows: Vec<Row>,
    ) -> Result<Messages, AllocError>
        requires room { length rows.items ≤ max }
        requires closed { closed ≤ MAX }
        ensures { IfOk result (λ messages. AreNext self.now max closed rows.items messages) }
    {
        let mut messages = all_messages(alloc, rows, self.due(closed))?;
        messages.truncate(max as usize);
        Ok(Messages::from_vec(messages))
    }

    /// The timestamp of the resolved message that is due, if one is.
    fn due(&self, closed: u64) -> Option<Ts>
        requires { closed ≤ MAX }
        ensures { result ≡ due_in self.now closed }
    {
        if self.kind.is_due(self.told.resolved, closed) {
            return Ts::new(closed);
        }
        None
    }

    /// How far it has come, and how many rows it has still to tell, where that is known.
    pub fn report(&self, untold: Option<u64>) -> Result<FeedReport, AllocError>
        ensures { IfOk result (λ n. n ≡ record_report untold self.now) }
    {
        Ok(FeedReport {
            number: self.number,
            seat: self.seat,
            kind: self.kind,
            span: self.span.copy()?,
            cursor: self.cursor,
            row: row_copy(&self.told.row)?,
            resolved: self.told.latest,
            complete: (self.told.floor >= self.cursor).then_some(self.told.floor),
            floor: self.floor(),
            untold,
        })
    }
}

impl Told {
    /// Nothing yet, by a feed of this kind and cursor.
    pub(crate) fn new(kind: Kind, cursor: u64) -> Told
        ensures { result ≡ fresh_told kind cursor }
    {
        Told {
            row: None,
            resolved: kind.start(cursor),
            latest: None,
            floor: kind.start(cursor),
        }
    }

    /// More messages are told.
    pub(crate) fn add(&mut self, messages: &[Message]) -> Allocated<()>
        ensures ok { OnOk result (self.new ≡ told_more messages.now self.old) }
        ensures err { OnErr result (self.new ≡ self.old) }
    {
        let mut last = None;
        let (mut resolved, mut latest, mut floor) = (self.resolved, self.latest, self.floor);
        for message in messages {
            match message {
                Message::Row(row) => {
                    last = Some(row);
                    // another row of the same timestamp may be told yet
                    floor = row.ts.get() - 1;
                }
                Message::Resolved(t) => {
                    resolved = resolved.max(t.get());
                    latest = Some(t.get());
                    floor = t.get();
                }
            }
        }
        // the key is copied before anything changes, so that a refusal leaves what was told
        if let Some(row) = last {
            let ts = row.ts.get();
            let key = row.key.copy()?;
            self.row = Some(ToldRow { ts, key });
        }
        self.resolved = resolved;
        self.latest = latest;
        self.floor = floor;
        Ok(())
    }
}

/// The rows and then what is due, as messages.
fn all_messages(alloc: Global, rows: Vec<Row>, due: Option<Ts>) -> Allocated<Vec<Message>>
    ensures { IfOk result (λ messages.
        messages.items ≡ map Message.Row rows.items ++ map Message.Resolved (option_to_list due)) }
{
    let rows = rows.into_iter().map(|row| Message::Row(row));
    let due = due.into_iter().map(|at| Message::Resolved(at));
    rows.chain(due).collect(alloc)
}

/// The row that was told last, once more.
fn row_copy(row: &Option<ToldRow>) -> Allocated<Option<ToldRow>>
    ensures { IfOk result (λ told. told ≡ row.now) }
{
    let Some(row) = row else {
        return Ok(None);
    };
    let key = row.key.copy()?;
    Ok(Some(ToldRow { ts: row.ts, key }))
}
