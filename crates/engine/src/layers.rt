//! The layers that an engine stands on, and which of them answers a command.
ghost use Rattle.std.specs.Prelude.{◌<◌};
ghost use Rattle.kept.specs.StandsFor.{nothing_kept};
ghost use Rattle.kept.specs.Changes.{IsAlike};
ghost use Rattle.engine.specs.Prelude.{IsStep, Stats, opened_in};
ghost use Rattle.engine.specs.Layers.{kept_of};

use feed::Feeds;
use mvto_rules::Rules;
use spans::{Cmd, Reply};
use std::alloc::Global;

/// Each layer holds its part of what is kept of a history.
#[derive(Drop)]
pub(crate) struct Layers {
    /// Versions, marks of readers, transactions, and what is closed and protected.
    pub(crate) rules: Rules,
    pub(crate) feeds: Feeds,
}

impl Layers {
    /// Nothing has happened.
    pub(crate) fn new(alloc: Global) -> Layers
        ensures { IsAlike nothing_kept (kept_of result) }
    {
        Layers {
            rules: Rules::new(alloc),
            feeds: Feeds::new(alloc),
        }
    }

    /// Answers a seat's command.
    pub(crate) fn step(&mut self, seat: u8, cmd: &Cmd) -> Reply
        requires number { opened_in self.old.feeds < 18446744073709551615 }
        requires room { (kept_of self.old).protections_made < 18446744073709551615 }
        ensures { IsStep (kept_of self.old) (kept_of self.new) seat cmd.now result }
    {
        match cmd {
            Cmd::Begin { ts } => self.rules.begin(seat, *ts),
            Cmd::Get { ts, key } => self.rules.get(seat, *ts, key),
            Cmd::Scan { ts, span } => self.rules.scan(seat, *ts, span),
            Cmd::Put { ts, key, value } => self.rules.write(seat, *ts, key, Some(value)),
            Cmd::Del { ts, key } => self.rules.write(seat, *ts, key, None),
            Cmd::Commit { ts } => self.rules.commit(seat, *ts),
            Cmd::Abort { ts } => self.rules.abort(seat, *ts),
            Cmd::Close { to } => self.rules.close(*to),
            Cmd::CloseHard { to } => self.rules.close_hard(*to),
            Cmd::ReadAt { t, key } => self.rules.read_at(*t, key),
            Cmd::ScanAt { t, span } => self.rules.scan_at(*t, span),
            Cmd::Protect { t } => self.rules.protect(*t),
            Cmd::Release { id } => self.rules.release(*id),
            Cmd::Collect { to } => self.rules.collect(*to, self.feeds.least_floor()),
            Cmd::Open { span, cursor } => self.open_feed(seat, false, None, span, *cursor),
            Cmd::OpenInitial { span, cursor } => self.open_feed(seat, true, None, span, *cursor),
            Cmd::OpenEvery { span, cursor, gap } => {
                self.open_feed(seat, false, Some(*gap), span, *cursor)
            }
            Cmd::OpenInitialEvery { span, cursor, gap } => {
                self.open_feed(seat, true, Some(*gap), span, *cursor)
            }
            Cmd::Poll { feed, max } => self.poll(seat, *feed, *max),
            Cmd::Cancel { feed } => self.cancel(seat, *feed),
            Cmd::Stats => self.stats(seat),
        }
    }

    fn stats(&mut self, seat: u8) -> Reply
        ensures { IsStep (kept_of self.old) (kept_of self.new) seat Stats result }
    {
        Reply::Stats {
            versions: self.rules.version_count(),
            undecided: self.rules.undecided_count(),
            feeds: self.feeds.count(),
            closed: self.rules.closed(),
            horizon: self.rules.horizon(),
        }
    }
}
