//! A follower: a replica, with the input that changes it and what is told of it. `IsGoing` in
//! `specs/Steps.antt` says what holds between two lines.
ghost use Rattle.std.specs.Prelude.{◌≡◌, ◌≤◌, [], Some, length, IfOk, IfErr, OnOk, OnErr};
ghost use Rattle.follow.specs.Prelude.{Follows, format_of};
ghost use Rattle.follow.specs.Following.{start_of, IsUnbegun, MayStart};

use crate::choice::Choice;
use crate::ending::{FollowEnd, end_by, unfound};
use crate::fault::{FollowError, of_line, of_message, of_replica};
use crate::options::{FollowOptions, Start};
use crate::telling::Telling;
use json_lines::read_message;
use replica::Replica;
use sessions::{Lines, Output, Sink, Source};
use spans::{Message, Span};
use std::alloc::Global;
use text_format::Format;
use word_lines::words::text_of;

/// A follower of a feed, with what it has read and not yet taken.
#[derive(Drop)]
pub(crate) struct Follower {
    alloc: Global,
    lines: Lines,
    choice: Choice,
    format: Format,
    /// Whether completeness is told between resolved messages too.
    complete: bool,
    /// Whether a message was taken.
    started: bool,
    replica: Replica,
    telling: Telling,
    ghost formatted: { format_of lines ≡ format },
}

impl Follower {
    ghost use Rattle.follow.specs.Prelude.{IsNextLine, waiting, pending_of, FollowOptions, GoesInBlocks};
    ghost use Rattle.follow.specs.Steps.{HasRead, IsMisreadAt, IsFresh, IsStopped, TakesLine, StopsAtLine, TakesMore, StopsWithLine, TakesMessage, StopsWithMessage, ShowsReady, end_at, end_of};

    pub(crate) fn begin(alloc: Global, options: FollowOptions) -> Result<Follower, FollowError>
        ensures fresh { IfOk result (IsFresh options) }
        ensures may { OnOk result (MayStart options.span options.start) }
        ensures refused { IfErr result (IsUnbegun options.span options.start) }
    {
        let FollowOptions {
            span,
            start,
            feed,
            shown,
            complete,
            format,
        } = options;
        let lines = Lines::new(alloc, format)?;
        let replica = begun(alloc, span, start)?;
        Ok(Follower {
            alloc,
            lines,
            choice: Choice::new(feed),
            format,
            complete,
            started: false,
            replica,
            telling: Telling::new(alloc, shown),
        })
    }

    /// Takes all lines, or those before one that ends it.
    pub(crate) fn follow<S: Source, K: Sink>(
        &mut self,
        input: &mut S,
        kept: &mut Output,
        output: &mut K,
    ) -> Result<(), FollowEnd>
        ensures { (o : FollowOptions) → IsFresh o self.old → pending_of kept.old ≡ []
            → IsStopped o (S.reads input.old) (S.reads input.new) (K.writes output.old) (K.writes output.new) (pending_of kept.new) (end_of result) }
    {
        for before in 0..u64::MAX {
            match self.lines.next_line(input, kept, output) {
                Ok(Some(count)) => self.line(kept, output, before + 1, count)?,
                Ok(None) => return self.done(),
                Err(end) => return Err(unfound(end)),
            }
        }
        Err(FollowEnd::Spent)
    }

    /// How it ends where no line is left.
    fn done(&self) -> Result<(), FollowEnd>
        ensures { end_of result ≡ end_at self.now.started }
    {
        if self.started {
            Ok(())
        } else {
            Err(FollowEnd::NoMessages)
        }
    }

    /// Takes one line, and writes what is kept where that is a block or more.
    fn line<K: Sink>(
        &mut self,
        kept: &mut Output,
        output: &mut K,
        number: u64,
        count: usize,
    ) -> Result<(), FollowEnd>
        requires { IsNextLine self.old.lines (Some count) }
        ensures ok { OnOk result (TakesLine self.old self.new number (pending_of kept.old) (pending_of kept.new) (K.writes output.old) (K.writes output.new)) }
        ensures err { IfErr result (StopsAtLine self.old number (pending_of kept.old) (pending_of kept.new) (K.writes output.old) (K.writes output.new)) }
        ensures blocks { OnOk result (GoesInBlocks (K.writes output.old) (K.writes output.new) (pending_of kept.new)) }
    {
        match self.take_line(kept, count) {
            Ok(()) => {}
            Err(error) => return Err(end_by(number, error)),
        }
        match kept.write_full(output) {
            Ok(()) => Ok(()),
            Err(_) => Err(FollowEnd::Output),
        }
    }

    /// Takes one line, with its message where it is one to take, and keeps what is told of that.
    fn take_line(&mut self, kept: &mut Output, count: usize) -> Result<(), FollowError>
        requires { IsNextLine self.old.lines (Some count) }
        ensures ok { OnOk result (TakesMore self.old self.new (pending_of kept.old) (pending_of kept.new)) }
        ensures err { IfErr result (StopsWithLine self.old) }
        ensures same { OnErr result (pending_of kept.new ≡ pending_of kept.old) }
    {
        match self.read(count) {
            Ok(None) => Ok(()),
            Ok(Some(message)) => self.take(kept, message),
            Err(error) => Err(error),
        }
    }

    /// Takes one line off the front, and answers its message where it is one to take.
    fn read(&mut self, count: usize) -> Result<Option<Message>, FollowError>
        requires within { count ≤ length (waiting self.old.lines) }
        ensures ok { IfOk result (HasRead self.old self.new count) }
        ensures refused { IfErr result (IsMisreadAt self.old count) }
        ensures format { self.new.format ≡ self.old.format }
        ensures complete { self.new.complete ≡ self.old.complete }
        ensures replica { self.new.replica ≡ self.old.replica }
        ensures telling { self.new.telling ≡ self.old.telling }
        ensures started { self.new.started ≡ self.old.started }
    {
        let line = self.lines.line(count);
        let text = match text_of(line, self.format) {
            Ok(text) => text,
            Err(fault) => return Err(of_line(fault)),
        };
        if !self.choice.takes(text) {
            self.lines.advance(count);
            return Ok(None);
        }
        match read_message(self.alloc, line, self.format) {
            Ok(message) => {
                self.lines.advance(count);
                Ok(Some(message))
            }
            Err(fault) => Err(of_message(fault)),
        }
    }

    /// Takes a message, and keeps what it shows before it and behind it: all of that, or nothing.
    fn take(&mut self, kept: &mut Output, message: Message) -> Result<(), FollowError>
        ensures ok { OnOk result (TakesMessage self.old self.new message (pending_of kept.old) (pending_of kept.new)) }
        ensures err { IfErr result (StopsWithMessage self.old message) }
        ensures same { OnErr result (pending_of kept.new ≡ pending_of kept.old) }
    {
        let mut report = Vec::new(self.alloc);
        let ready = self.ready(&message);
        self.telling
            .tell(&mut report, b"complete", ready, &self.replica)?;
        self.telling.note(&message)?;
        match self.replica.apply(message) {
            Ok(()) => {}
            Err(fault) => return Err(of_replica(fault)),
        }
        self.started = true;
        let resolved = self.replica.at_resolved();
        self.telling
            .tell(&mut report, b"resolved", resolved, &self.replica)?;
        kept.keep(report.as_slice())?;
        Ok(())
    }

    /// The timestamp at which a message that is to be taken next shows the rows to be complete, where that is told.
    fn ready(&self, message: &Message) -> Option<u64>
        ensures { ShowsReady self.now message.now result }
    {
        if !self.complete {
            return None;
        }
        self.replica.ready(message)
    }
}

/// The replica that a feed's consumer begins with.
fn begun(alloc: Global, span: Span, start: Start) -> Result<Replica, FollowError>
    ensures ok { IfOk result (λ replica. Follows replica (start_of span start) []) }
    ensures may { OnOk result (MayStart span start) }
    ensures refused { IfErr result (IsUnbegun span start) }
{
    let (cursor, rows) = match start {
        Start::Initial(cursor) => return Ok(Replica::new_initial(alloc, span, cursor)),
        Start::Cursor(cursor) => (cursor, Vec::new(alloc)),
        Start::Seed { cursor, rows } => (cursor, rows),
    };
    match Replica::new(alloc, span, cursor, rows) {
        Ok(replica) => Ok(replica),
        Err(fault) => Err(of_replica(fault)),
    }
}
