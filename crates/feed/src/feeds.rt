//! All live feeds.
ghost use Rattle.std.specs.Prelude.{true, ◌≡◌, ◌<◌, ℕ, None, Some, is_some, option_map, suc, IfErr, IfOk, OnOk, OnErr};
ghost use Rattle.std.specs.BTreeSet.{contains};
ghost use Rattle.feed.specs.Prelude.{AreLive, IsLeastFloor, place_floor};
ghost use Rattle.feed.specs.Standing.{cut_at_max, opened_at, opened_in, place_in, seat_in, IsPut, IsPolledBy, IsUnpolled, IsCountOf, IsFloorMoved, pair_cmp, Standing, AreTied};
ghost use Rattle.feed.specs.Left.{IsFeedCount};

use crate::live::LiveFeed;
use crate::live::telling::Told;
use crate::poll_error::PollError;
use crate::report::feed_reports;
use crate::room::count_left;
use indexmap::IndexMap;
use spans::{FeedReport, Kind, Messages, Span};
use std::alloc::{AllocError, Global};
use std::collections::BTreeSet;
use std::marker::Model;
use timestamps::ts::MAX;
use version_chain::Store;

/// The feeds that live, by number, and the order of their floors.
#[derive(Drop)]
pub struct Feeds {
    alloc: Global,
    opened: u64,
    live: IndexMap<u64, LiveFeed>,
    floors: BTreeSet<(u64, u64)>,
}

impl Model for Feeds {
    ghost Value = { Standing };

    ghost view = { λ s. record { opened = s.opened; live = s.live.entries } };

    ghost invariant = { λ s. AreTied s.opened s.live.entries s.floors };
}

impl Feeds {
    /// No feed.
    pub fn new(alloc: Global) -> Feeds
        ensures none { (f : ℕ) → place_in result f ≡ None }
        ensures opened { opened_in result ≡ 0 }
    {
        Feeds {
            alloc,
            opened: 0,
            live: IndexMap::new(alloc),
            floors: BTreeSet::new(alloc),
        }
    }

    /// How many feeds were opened.
    pub fn opened(&self) -> u64
        ensures { result ≡ opened_in self.now }
    {
        self.opened
    }

    /// How many feeds live.
    pub fn count(&self) -> u64
        ensures { IsCountOf self.now result }
    {
        self.live.len() as u64
    }

    /// The seat that opened a feed, if it lives.
    pub fn seat(&self, feed: u64) -> Option<u8>
        ensures { result ≡ seat_in self.now feed }
    {
        Some(self.live.get(&feed)?.seat())
    }

    /// Opens a feed and answers its number. A cursor above the greatest timestamp counts as that. An `Err` opens nothing.
    pub fn open(
        &mut self,
        seat: u8,
        kind: Kind,
        span: &Span,
        cursor: u64,
    ) -> Result<u64, AllocError>
        requires room { opened_in self.old < u64.MAX }
        ensures number { IfOk result (λ f. f ≡ suc (opened_in self.old)) }
        ensures put { IfOk result (λ f. IsPut self.old self.new f (Some (opened_at seat kind span.now (cut_at_max cursor)))) }
        ensures opened { IfOk result (λ f. opened_in self.new ≡ f) }
        ensures err { OnErr result (self.new ≡ self.old) }
    {
        let cursor = cursor.min(MAX);
        let feed = self.opened + 1;
        let live = LiveFeed::open(seat, kind, span, cursor)?;
        self.live.reserve(1)?;
        self.floors.insert((cursor, feed))?;
        let Ok(_) = self.live.insert(feed, live) else {
            unreachable!()
        };
        self.opened = feed;
        Ok(feed)
    }

    /// The next messages of a feed for the seat that opened it, at most `max`. A `closed` above the greatest timestamp counts
    /// as that. Where it is out of memory, nothing is told.
    pub fn poll(
        &mut self,
        store: &Store,
        seat: u8,
        feed: u64,
        closed: u64,
        max: u64,
    ) -> Result<Messages, PollError>
        ensures told { IfOk result (λ ms. IsPolledBy store.now self.old self.new seat feed (cut_at_max closed) max ms) }
        ensures refused { IfErr result (IsUnpolled self.old seat feed) }
        ensures opened { opened_in self.new ≡ opened_in self.old }
        ensures err { OnErr result (self.new ≡ self.old) }
    {
        let Some(live) = self.live.get_mut(&feed) else {
            return Err(PollError::NoFeed);
        };
        if live.seat() != seat {
            return Err(PollError::NotOwner);
        }
        let closed = closed.min(MAX);
        let Ok(told) = live.next_messages(self.alloc, store, closed, max) else {
            return Err(PollError::NoMemory);
        };
        let floor = live.floor_at(&told.place);
        let Ok(()) = move_floor(&mut self.floors, feed, live.floor(), floor) else {
            return Err(PollError::NoMemory);
        };
        let Told { messages, place } = told;
        live.arrive(place);
        Ok(Messages::from_vec(messages))
    }

    /// How many of the next messages of a feed, at most `max`, have at most `bytes` bytes together: `max` where all of
    /// them do, and 0 where it doesn't live. Nothing is told. A `closed` above the greatest timestamp counts as that.
    pub fn count_within(
        &self,
        store: &Store,
        feed: u64,
        closed: u64,
        max: u64,
        bytes: u64,
    ) -> Result<u64, AllocError>
        ensures count { IfOk result (IsFeedCount store.now (cut_at_max closed) max bytes (place_in self.now feed)) }
        ensures memory { OnErr result (is_some (place_in self.now feed) ≡ true) }
    {
        let Some(live) = self.live.get(&feed) else {
            return Ok(0);
        };
        count_left(self.alloc, live, store, closed.min(MAX), max, bytes)
    }

    /// Ends a feed, and answers whether it lived. It takes no memory.
    pub fn cancel(&mut self, feed: u64) -> bool
        ensures lived { result ≡ is_some (place_in self.old feed) }
        ensures put { IsPut self.old self.new feed None }
        ensures opened { opened_in self.new ≡ opened_in self.old }
    {
        let Some(live) = self.live.swap_remove(&feed) else {
            return false;
        };
        self.floors.remove(&(live.floor(), feed));
        true
    }

    /// The least floor of the feeds, where any lives.
    pub fn least_floor(&self) -> Option<u64>
        ensures { IsLeastFloor (place_in self.now) result }
    {
        Some(self.floors.first()?.0)
    }

    /// Up to where a feed has told all, if it lives: below that it needs no version.
    pub fn floor(&self, feed: u64) -> Option<u64>
        ensures { result ≡ option_map place_floor (place_in self.now feed) }
    {
        Some(self.live.get(&feed)?.floor())
    }

    /// The feeds that live, numbers rising, and how far each has come. It takes memory for them alone.
    pub fn report(&self) -> Result<Vec<FeedReport>, AllocError>
        ensures { IfOk result (λ ns. AreLive (place_in self.now) ns.items) }
    {
        feed_reports(self.alloc, &self.live)
    }
}

/// Moves a feed in the order of floors. It takes no memory where the floor stays.
fn move_floor(
    floors: &mut BTreeSet<(u64, u64)>,
    feed: u64,
    from: u64,
    to: u64,
) -> Result<(), AllocError>
    requires stands { contains pair_cmp floors.old (from, feed) ≡ true }
    ensures ok { OnOk result (IsFloorMoved floors.old floors.new feed from to) }
    ensures err { OnErr result (floors.new.keys ≡ floors.old.keys) }
{
    if from == to {
        return Ok(());
    }
    floors.insert((to, feed))?;
    floors.remove(&(from, feed));
    Ok(())
}
