//! The job that the words of a command line ask for, with its numbers, files and options.

use crate::following::{Seeded, seeded_of, shown_of, start_of};
use crate::forms::command;
use clap::error::ErrorKind;
use clap::{ArgMatches, Command, Error};
use follow::{FollowOptions, span_of};
use jobs::{DEFAULTS, Detail, RaceOptions};
use sessions::Config;
use std::alloc::{AllocError, Global};
use std::convert::AsStr;
use text_format::Format;
use timestamps::Ts;
use word_lines::fault::ReadError;

/// A job that the program is asked to do.
#[derive(Drop)]
pub enum Job {
    /// To run a script of a format on a database that is opened so.
    Run(Config, Format),
    /// To have the sessions of a script race.
    Race(RaceOptions),
    /// To check a transcript, which has so many events where a number is given.
    Check(Option<u64>),
    /// To tell the state after a transcript.
    State(Detail),
    /// To write the script that rebuilds a transcript's database, which closes at a timestamp at least.
    Dump(Option<Ts>),
    /// To follow a feed.
    Follow(FollowOptions),
    /// To follow a feed from the seed of a file on.
    FollowSeed(Seeded),
}

/// The job that the words of a command line ask for.
pub fn job_in<'a, S: AsStr>(
    alloc: Global,
    command: Command<'a>,
    words: &'a [S],
) -> Result<Job, Error> {
    let matches = command.try_get_matches_from(words)?;
    job_of(alloc, &matches)
}

/// The job that a command line asks for, unless a bound in it is none.
fn job_of(alloc: Global, matches: &ArgMatches) -> Result<Job, Error> {
    let Some((name, asked)) = matches.subcommand() else {
        return Ok(Job::Check(None));
    };
    Ok(match name.as_bytes() {
        b"run" => Job::Run(config_of(asked), format_of(asked)),
        b"race" => Job::Race(race_options_of(asked)),
        b"state" if asked.get_flag("live") => Job::State(Detail::Live),
        b"state" => Job::State(Detail::Whole),
        b"dump" => Job::Dump(Ts::new(asked.get_one("at").unwrap_or(0))),
        b"follow" => return follow_of(alloc, asked),
        _ => Job::Check(asked.get_one("events")),
    })
}

/// The options of `mvfeed run`.
fn config_of(run: &ArgMatches) -> Config {
    Config {
        seats: run.get_one("seats").unwrap_or(DEFAULTS.seats),
        ring: run.get_one("ring").unwrap_or(DEFAULTS.ring),
        first: run.get_one("first").unwrap_or(DEFAULTS.first),
    }
}

/// The options of `mvfeed race`.
fn race_options_of(race: &ArgMatches) -> RaceOptions {
    RaceOptions {
        sessions: race.get_one("sessions").unwrap_or(1),
        ring: race.get_one("ring").unwrap_or(DEFAULTS.ring),
        format: format_of(race),
    }
}

/// The job of `mvfeed follow`.
fn follow_of(alloc: Global, follow: &ArgMatches) -> Result<Job, Error> {
    if let Some(file) = follow.get_str("seed") {
        return Ok(Job::FollowSeed(seeded_of(alloc, file, follow)?));
    }
    let lo = follow.get_str("lo").unwrap_or("-");
    let hi = follow.get_str("hi").unwrap_or("-");
    let format = format_of(follow);
    match span_of(alloc, lo.as_bytes(), hi.as_bytes(), format) {
        Ok(span) => Ok(Job::Follow(FollowOptions {
            span,
            start: start_of(follow),
            feed: follow.get_one("feed"),
            shown: shown_of(follow),
            complete: follow.get_flag("complete"),
            format,
        })),
        Err(ReadError::NoMemory) => Err(Error::from(AllocError)),
        Err(ReadError::Fault(_)) => Err(no_bound(alloc, format)?),
    }
}

/// The refusal of a word that is no bound of the format.
fn no_bound(alloc: Global, format: Format) -> Result<Error, AllocError> {
    command(alloc)?.error(ErrorKind::ValueValidation, bound_refusal(format))
}

/// The sentence for a word that is no bound of the format.
fn bound_refusal(format: Format) -> &'static str {
    match format {
        Format::One => "a bound is `-` or a key as in scripts, of 65 bytes at most",
        Format::Two => "a bound is `-` or a key as in scripts, of 257 bytes at most",
    }
}

/// The format of the texts.
pub(crate) fn format_of(options: &ArgMatches) -> Format {
    match options.get_one("format") {
        Some(2u8) => Format::Two,
        _ => Format::One,
    }
}
