//! The commands of feeds: opening, polling and cancelling.
ghost use Rattle.std.specs.Prelude.{◌<◌, ◌≡◌};
ghost use Rattle.engine.specs.Prelude.{Cancel, IsStep, Poll, feed_refusal, first_refusal, kept_opening_tests, open_cmd, opened_in};
ghost use Rattle.engine.specs.Layers.{kept_of};

use crate::layers::Layers;
use feed::PollError;
use spans::{Kind, Refusal, Reply, Span};
use timestamps::ts::MAX;

impl Layers {
    /// Opens a feed of the kind that is `initial` or not, and has the gap.
    pub(crate) fn open_feed(
        &mut self,
        seat: u8,
        initial: bool,
        gap: Option<u64>,
        span: &Span,
        cursor: u64,
    ) -> Reply
        requires { opened_in self.old.feeds < 18446744073709551615 }
        ensures { IsStep (kept_of self.old) (kept_of self.new) seat (open_cmd (record { initial = initial; gap = gap }) span.now cursor) result }
    {
        let kind = Kind { initial, gap };
        if let Some(refusal) = self.opening_refusal(kind, cursor) {
            return Reply::Refused(refusal);
        }
        match self.feeds.open(seat, kind, span, cursor) {
            Ok(feed) => Reply::Opened { feed },
            Err(_) => Reply::Refused(Refusal::NoMemory),
        }
    }

    /// Why no feed of the kind opens at the cursor, if none does.
    fn opening_refusal(&self, kind: Kind, cursor: u64) -> Option<Refusal>
        ensures { result ≡ first_refusal (kept_opening_tests kind (kept_of self.now) cursor) }
    {
        if cursor > MAX {
            return Some(Refusal::TsRange);
        }
        if kind.gap.is_some_and(|gap| gap == 0 || gap > MAX) {
            return Some(Refusal::GapRange);
        }
        let horizon = self.rules.horizon();
        if cursor < horizon {
            return Some(Refusal::BelowHorizon { horizon });
        }
        // what an initial feed tells first is read at its cursor
        let closed = self.rules.closed();
        if kind.initial && cursor > closed {
            return Some(Refusal::NotClosed { closed });
        }
        None
    }

    pub(crate) fn poll(&mut self, seat: u8, feed: u64, max: u64) -> Reply
        ensures { IsStep (kept_of self.old) (kept_of self.new) seat (Poll feed max) result }
    {
        let closed = self.rules.closed();
        let versions = self.rules.versions();
        match self.feeds.poll(versions, seat, feed, closed, max) {
            Ok(messages) => Reply::Messages(messages),
            Err(PollError::NoFeed) => Reply::Refused(self.feed_refusal(feed)),
            Err(PollError::NotOwner) => Reply::Refused(Refusal::NotOwner),
            Err(PollError::NoMemory) => Reply::Refused(Refusal::NoMemory),
        }
    }

    /// Why a feed that doesn't live is no feed.
    fn feed_refusal(&self, feed: u64) -> Refusal
        ensures { result ≡ feed_refusal (kept_of self.now) feed }
    {
        if 0 < feed && feed <= self.feeds.opened() {
            Refusal::FeedCancelled
        } else {
            Refusal::NoFeed
        }
    }

    pub(crate) fn cancel(&mut self, seat: u8, feed: u64) -> Reply
        ensures { IsStep (kept_of self.old) (kept_of self.new) seat (Cancel feed) result }
    {
        let Some(_) = self.feeds.seat(feed) else {
            return Reply::Refused(self.feed_refusal(feed));
        };
        self.feeds.cancel(feed);
        Reply::Cancelled
    }
}
