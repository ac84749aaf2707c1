//! The checker's book of the feeds that live.
ghost use Rattle.std.specs.Prelude.{◌≡◌, ◌<◌, ◌==◌, [], ℕ, suc, map, min, length, None, Some, IfOk, IfErr, OnOk, OnErr};
ghost use Rattle.std.specs.List.{find, fold, position};
ghost use Rattle.std.specs.Option.{option_copied};
ghost use Rattle.plain_database.specs.Prelude.{Cancels, Opens, Polls, feed_of, feeds_opened, floor_of, least_of, live_feeds};
ghost use Rattle.plain_database.specs.declared.feeds.record.FeedRecord.{FeedRecord};
ghost use Rattle.plain_database.specs.FeedTie.{floor_in, telling_in, FeedsTied, IsRecordOf, Says, LeadsTo, refusal_of_poll, refusal_of_cancel, Book};

use crate::feeds::record::{FeedRecord, Told};
use spans::{Kind, Message, Messages, Refusal, Span};
use std::alloc::{AllocError, Global};
use std::marker::Model;

/// How many feeds were opened, and those that live, the newest first.
#[derive(Drop)]
pub struct FeedBook {
    opened: u64,
    live: Vec<FeedRecord>,
}

impl Model for FeedBook {
    ghost Value = { Book };

    ghost view = { λ b. record { opened = b.opened; live = b.live.items } };
}

impl FeedBook {
    /// A book without feeds.
    pub fn new(alloc: Global) -> FeedBook
        ensures { FeedsTied result [] }
    {
        FeedBook {
            opened: 0,
            live: Vec::new(alloc),
        }
    }

    /// How many feeds were opened.
    pub fn opened(&self) -> u64
        ensures { result ≡ self.now.opened }
    {
        self.opened
    }

    /// The feeds that live, the newest first.
    pub fn live(&self) -> &[FeedRecord]
        ensures { result.now ≡ self.now.live }
    {
        self.live.as_slice()
    }

    /// Opens a feed, and answers its number.
    pub fn open(
        &mut self,
        seat: u8,
        kind: Kind,
        span: &Span,
        cursor: u64,
    ) -> Result<u64, AllocError>
        requires room { self.old.opened < u64.MAX }
        ensures number { IfOk result (λ number. Says self.old (λ p. number ≡ suc (feeds_opened p))) }
        ensures opened { IfOk result (λ number. LeadsTo self.old (Opens number seat kind span.now cursor) self.new) }
        ensures err { OnErr result (self.new ≡ self.old) }
    {
        let number = self.opened + 1;
        let record = FeedRecord {
            number,
            seat,
            kind,
            span: span.copy()?,
            cursor,
            told: Told::new(kind, cursor),
        };
        self.live.insert(0, record)?;
        self.opened = number;
        Ok(number)
    }

    /// The record of a feed that a seat may poll, or why it may not.
    pub fn find(&self, feed: u64, seat: u8) -> Result<&FeedRecord, Refusal>
        ensures record { IfOk result (λ x. Says self.now (λ p. IsRecordOf p feed x.now)) }
        ensures ok { IfOk result (λ x. Says self.now (λ p. refusal_of_poll p seat feed (feed_of p feed) ≡ None)) }
        ensures err { IfErr result (λ r. Says self.now (λ p. refusal_of_poll p seat feed (feed_of p feed) ≡ Some r)) }
    {
        let record = self.find_live(feed)?;
        if record.seat != seat {
            return Err(Refusal::NotOwner);
        }
        Ok(record)
    }

    /// The record of a feed that lives, or why none does.
    #[tactic(auto, using(crate::proofs::FeedTies::feeds_missed))]
    pub fn find_live(&self, feed: u64) -> Result<&FeedRecord, Refusal>
        ensures record { IfOk result (λ x. Says self.now (λ p. IsRecordOf p feed x.now)) }
        ensures err { IfErr result (λ r. Says self.now (λ p. refusal_of_cancel p feed ≡ Some r)) }
    {
        match record_of(self.live.as_slice(), feed) {
            Some(record) => Ok(record),
            None if feed > 0 && feed <= self.opened => Err(Refusal::FeedCancelled),
            None => Err(Refusal::NoFeed),
        }
    }

    /// Cancels a feed. It takes no memory, and does nothing where no feed of this number lives.
    pub fn cancel(&mut self, feed: u64)
        ensures { LeadsTo self.old (Cancels feed) self.new }
    {
        self.live.retain(|record| record.number != feed);
    }

    /// Keeps that a feed was told these messages. It does nothing where no feed of this number lives.
    pub fn tell(&mut self, feed: u64, messages: &Messages) -> Result<(), AllocError>
        ensures told { OnOk result ((max : ℕ) → LeadsTo self.old (Polls feed max messages.now) self.new) }
        ensures err { OnErr result (self.new ≡ self.old) }
    {
        tell_in(&mut self.live, feed, messages.as_slice())?;
        Ok(())
    }

    /// How many feeds live.
    pub fn live_count(&self) -> u64
        ensures { Says self.now (λ p. result ≡ length (live_feeds p)) }
    {
        self.live.len() as u64
    }

    /// The least of `n` and the floors of the feeds that live.
    #[tactic(auto, using(crate::proofs::FeedTies::feeds_least))]
    pub fn least_floor(&self, n: u64) -> u64
        ensures { Says self.now (λ p. result ≡ least_of n (map (floor_of p) (live_feeds p))) }
    {
        least_floor(self.live.as_slice(), n)
    }
}

fn record_of(live: &[FeedRecord], feed: u64) -> Option<&FeedRecord>
    ensures { option_copied result ≡ find (λ (x : FeedRecord). x.number == feed) live.now }
{
    live.iter().find(|record| record.number == feed)
}

fn place_of(live: &[FeedRecord], feed: u64) -> Option<usize>
    ensures { result ≡ position (λ (x : FeedRecord). x.number == feed) live.now }
{
    live.iter().position(|record| record.number == feed)
}

#[tactic(auto, using(crate::proofs::FeedTies::telling_at))]
fn tell_in(live: &mut Vec<FeedRecord>, feed: u64, messages: &[Message]) -> Result<(), AllocError>
    ensures ok { OnOk result (live.new.items ≡ telling_in feed messages.now live.old.items) }
    ensures err { OnErr result (live.new.items ≡ live.old.items) }
{
    match place_of(live.as_slice(), feed) {
        None => Ok(()),
        Some(at) => {
            live[at].told.add(messages)?;
            Ok(())
        }
    }
}

fn least_floor(live: &[FeedRecord], n: u64) -> u64
    ensures { result ≡ fold min n (map floor_in live.now) }
{
    live.iter().fold(n, |low, record| low.min(record.floor()))
}
