//! What the program leaves its caller: an exit status, and a sentence where there is more to say. The status stands also
//! where standard error can't be told why.
ghost use Rattle.std.specs.Prelude.{◌≡◌, ◌⊎◌};
ghost use Rattle.std.specs.Process.{exit_status};
ghost use Rattle.clap.specs.Values.{kind_of};
ghost use Rattle.command_line.specs.Doing.{IsRefusal, IsShown, status_of, status_of_follower};

use crate::sentences::{MEMORY, OUTPUT, Sentence, sentence_of, sentence_of_follower};
use clap::Error;
use follow::{FollowEnd, SeedError};
use jobs::End;
use std::process::ExitCode;

/// The exit status where the program failed.
const FAILED: u8 = 1;

/// The exit status where a line is faulty.
const FAULTY: u8 = 2;

/// The exit status where what was checked is not right.
pub(crate) const NO: u8 = 3;

/// The exit status of a job's end: 0 where all was done, 2 for a faulty line, 3 for what is not right, else 1.
pub fn status_of(end: End) -> u8
    ensures { result ≡ status_of end }
{
    match end {
        End::Done | End::Right { .. } => 0,
        End::Faulty { .. } => FAULTY,
        End::No { .. } => NO,
        End::Open(_) | End::Input | End::Output | End::Memory | End::Thread | End::Spent => FAILED,
    }
}

/// The exit status of a follower's end: 0 where all was done, 2 for a faulty line, else 1.
pub fn status_of_follower(end: FollowEnd) -> u8
    ensures { result ≡ status_of_follower end }
{
    match end {
        FollowEnd::Done | FollowEnd::NoMessages => 0,
        FollowEnd::Fault { .. } => FAULTY,
        FollowEnd::Spent | FollowEnd::Input | FollowEnd::Output | FollowEnd::Memory => FAILED,
    }
}

/// The exit status of an end, of which standard error is told where there is more to say, and then a hint.
pub fn told(rt: &impl Eprint, end: End, hint: Option<&'static str>) -> ExitCode
    ensures { exit_status result ≡ status_of end }
{
    let status = left(rt, status_of(end), sentence_of(end));
    if let Some(hint) = hint {
        tell(rt, Sentence::Words(hint));
    }
    status
}

/// The exit status of a follower's end, of which standard error is told where there is more to say.
pub fn told_of_follower(rt: &impl Eprint, end: FollowEnd) -> ExitCode
    ensures { exit_status result ≡ status_of_follower end }
{
    left(rt, status_of_follower(end), sentence_of_follower(end))
}

/// This exit status, of which standard error is told where there is a sentence.
pub(crate) fn left(rt: &impl Eprint, status: u8, sentence: Option<Sentence>) -> ExitCode
    ensures { exit_status result ≡ status }
{
    if let Some(sentence) = sentence {
        tell(rt, sentence);
    }
    ExitCode::from(status)
}

/// The exit status of a failure, of which standard error is told.
pub fn failed(rt: &impl Eprint, words: &'static str) -> ExitCode
    ensures { exit_status result ≡ 1 }
{
    left(rt, FAILED, Some(Sentence::Words(words)))
}

/// The exit status where the file that a job names has no seed, of which standard error is told.
pub(crate) fn unseeded(rt: &impl Eprint, error: SeedError) -> ExitCode
    ensures { exit_status result ≡ 1 }
{
    match error {
        SeedError::NoMemory => failed(rt, MEMORY),
        SeedError::NoScan => failed(
            rt,
            "the seed's file has no scanat that was answered with rows",
        ),
        SeedError::Fault { line, .. } => {
            let _ = eprintln!(rt; "mvfeed: line {line} of the seed's file is faulty");
            ExitCode::from(FAILED)
        }
    }
}

/// The exit status of a command line that asks for no run: for help or the version, which is printed, or for what
/// the program doesn't do. Help and the version leave 0, or 1 where they can't be printed. `hint` is what the caller
/// may have meant, and is told behind the refusal.
pub fn refused<R: Print + Eprint>(rt: &R, error: &Error, hint: Option<&str>) -> ExitCode
    ensures refusal { IsRefusal (kind_of error.now) → exit_status result ≡ 1 }
    ensures shown { IsShown (kind_of error.now) → (exit_status result ≡ 0) ⊎ (exit_status result ≡ 1) }
{
    let printed = error.print(rt);
    if error.exit_code() != 0 {
        if let Some(hint) = hint {
            let _ = eprintln!(rt; "\nThe input is standard input: {hint}");
        }
        return ExitCode::from(FAILED);
    }
    if printed.is_err() {
        return failed(rt, OUTPUT);
    }
    ExitCode::SUCCESS
}

fn tell(rt: &impl Eprint, sentence: Sentence) {
    let _ = eprintln!(rt; "mvfeed: {sentence}");
}
