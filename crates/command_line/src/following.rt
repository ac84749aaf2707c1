//! What `mvfeed follow` is asked for: how its rows begin, and what is told of them.
ghost use Rattle.std.specs.Prelude.{◌≡◌};
ghost use Rattle.command_line.specs.Doing.{options_from};

use crate::arguments::format_of;
use clap::ArgMatches;
use follow::{FollowOptions, Seed, Shown, Start};
use std::alloc::{AllocError, Global};
use text_format::Format;

/// A follower that begins with the seed of a transcript, whose file is still to be read.
#[derive(Drop)]
pub struct Seeded {
    pub file: String,
    pub feed: Option<u64>,
    pub shown: Shown,
    pub complete: bool,
    pub format: Format,
}

impl Seeded {
    /// The options of a follower that begins with a seed.
    pub fn options(&self, seed: Seed) -> FollowOptions
        ensures { result ≡ options_from self.now seed }
    {
        let Seed { span, cursor, rows } = seed;
        FollowOptions {
            span,
            start: Start::Seed { cursor, rows },
            feed: self.feed,
            shown: self.shown,
            complete: self.complete,
            format: self.format,
        }
    }
}

/// The rows at first, where no seed is asked for.
pub(crate) fn start_of(follow: &ArgMatches) -> Start {
    match follow.get_one("initial") {
        Some(cursor) => Start::Initial(cursor),
        None => Start::Cursor(follow.get_one("cursor").unwrap_or(0)),
    }
}

/// How much is told of the rows.
pub(crate) fn shown_of(follow: &ArgMatches) -> Shown {
    if follow.get_flag("view") {
        Shown::Rows
    } else if follow.get_flag("changes") {
        Shown::Changes
    } else {
        Shown::Count
    }
}

/// A follower that begins with the seed of a file.
pub(crate) fn seeded_of(
    alloc: Global,
    file: &str,
    follow: &ArgMatches,
) -> Result<Seeded, AllocError> {
    let file = String::from_str(alloc, file)?;
    Ok(Seeded {
        file,
        feed: follow.get_one("feed"),
        shown: shown_of(follow),
        complete: follow.get_flag("complete"),
        format: format_of(follow),
    })
}
