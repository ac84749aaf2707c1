//! Each job of the program is done on its input and output: its end is told on standard error, and leaves an exit status.
ghost use Rattle.std.specs.Prelude.{◌≡◌};
ghost use Rattle.std.specs.Process.{exit_status};
ghost use Rattle.command_line.specs.Doing.{Did, HasFollowedSeed, status_of, status_of_check};

use crate::arguments::Job;
use crate::dialects::Dialect;
use crate::following::Seeded;
use crate::hints::hint_at;
use crate::input::Input;
use crate::sentences::Sentence;
use crate::status::{NO, left, told, told_of_follower, unseeded};
use follow::{follow_io, seed_of};
use jobs::{End, check_io, dump_io, race_io, run_io, state_io};
use races::Open;
use sessions::{Sink, Source};
use std::alloc::Global;
use std::process::ExitCode;
use std::sync::Wait;
use std::thread::Threads;
use text_format::Format;

/// Does a job on its input and output, and tells standard error how it ended, where there is more to say than the status.
/// `seed` is the text of the file that the job names, and no job but [`Job::FollowSeed`] looks at it.
///
/// Whether a race returns is not promised.
pub fn done<S: Source, K: Sink, R: Threads + Wait + Sync + Eprint>(
    rt: &R,
    alloc: Global,
    job: Job,
    seed: Vec<u8>,
    input: &mut Input<S>,
    output: &mut K,
) -> ExitCode
    ensures { Did job seed.items (S.reads input.old.source) (S.reads input.new.source) (K.writes output.old) (K.writes output.new) (exit_status result) }
{
    match job {
        Job::Run(options, format) => {
            let end = run_io(rt, alloc, options, format, input, output);
            told(rt, end, hint_at(end, input, Dialect::Script, format))
        }
        Job::Race(options) => {
            let end = race_io(rt, alloc, options, &Open, input, output);
            let hint = hint_at(end, input, Dialect::Script, options.format);
            told(rt, end, hint)
        }
        Job::Check(wanted) => {
            let end = check_io(alloc, input, output);
            told_of_check(rt, wanted, end, input)
        }
        Job::State(detail) => {
            let end = state_io(alloc, detail, input, output);
            told_of_transcript(rt, end, input)
        }
        Job::Dump(at) => {
            let end = dump_io(alloc, at, input, output);
            told_of_transcript(rt, end, input)
        }
        Job::Follow(options) => {
            told_of_follower(rt, follow_io(alloc, options, &mut input.source, output))
        }
        Job::FollowSeed(seeded) => {
            followed_from(rt, alloc, &seeded, seed, &mut input.source, output)
        }
    }
}

/// The exit status of a job that read a transcript.
fn told_of_transcript<S: Source>(rt: &impl Eprint, end: End, input: &Input<S>) -> ExitCode
    ensures { exit_status result ≡ status_of end }
{
    let format = Format::of_transcript(input.beginning());
    told(rt, end, hint_at(end, input, Dialect::Transcript, format))
}

/// The exit status of a check, of a transcript that is to have so many events where a number is given.
fn told_of_check<S: Source>(
    rt: &impl Eprint,
    wanted: Option<u64>,
    end: End,
    input: &Input<S>,
) -> ExitCode
    ensures { exit_status result ≡ status_of_check wanted end }
{
    match (wanted, end) {
        (Some(wanted), End::Right { events }) if events != wanted => {
            left(rt, NO, Some(Sentence::Count { events, wanted }))
        }
        _ => told_of_transcript(rt, end, input),
    }
}

/// A feed is followed from the seed of a text on, if the text has one.
fn followed_from<S: Source, K: Sink, R: Eprint>(
    rt: &R,
    alloc: Global,
    asked: &Seeded,
    seed: Vec<u8>,
    input: &mut S,
    output: &mut K,
) -> ExitCode
    ensures { HasFollowedSeed asked.now seed.items (S.reads input.old) (S.reads input.new) (K.writes output.old) (K.writes output.new) (exit_status result) }
{
    match seed_of(alloc, seed.as_slice()) {
        Ok(found) => {
            // The text isn't kept while the feed is followed.
            drop(seed);
            told_of_follower(rt, follow_io(alloc, asked.options(found), input, output))
        }
        Err(error) => unseeded(rt, error),
    }
}
