//! What is said of a transcript, apart from where it comes from and where the answer goes.
ghost use Rattle.std.specs.Prelude.{◌≡◌, ◌<◌, ◌++◌, [], length, true, IfOk, OnOk, MatchResult, None, decimal, codes};
ghost use Rattle.jobs.specs.Prelude.{Fails, StandsFor, format_of, outcome, transcript_at};
ghost use Rattle.jobs.specs.Verdicts.{IsVerdict, is_right, IsJudged, HasTakenText};

use crate::ending::End;
use json_lines::numbers::put_number;
use script::events::Events;
use script::fault::TranscriptError;
use std::alloc::{AllocError, Global};
use text_format::Format;
use trace_check::checker::Checker;
use word_lines::events::write_fault;

/// How the check of a text ends, and what it writes: `yes` where the text is the transcript of a legal history, in the
/// format that its first line says, else `no P` with the position of the first event by which it isn't. A text that can't
/// be read gets its fault line, and no verdict.
/// It costs what reading and checking do, and holds one event at a time.
pub fn verdict(alloc: Global, text: &[u8]) -> Result<(End, Vec<u8>), AllocError>
    ensures { IfOk result (λ answer. IsVerdict text.now answer.0 answer.1.items) }
{
    verdict_by(alloc, text, &mut Checker::new(alloc))
}

/// The same by a checker that has taken nothing before, and then all events where the text is right.
pub(crate) fn verdict_by(
    alloc: Global,
    text: &[u8],
    checker: &mut Checker,
) -> Result<(End, Vec<u8>), AllocError>
    requires fresh { StandsFor checker.old [] }
    ensures verdict { IfOk result (λ answer. IsVerdict text.now answer.0 answer.1.items) }
    ensures taken { IfOk result (λ answer. is_right answer.0 ≡ true → HasTakenText text.now checker.new) }
{
    let mut answer = Vec::new(alloc);
    let end = match judge(alloc, text, checker) {
        Err(TranscriptError::NoMemory) => return Err(AllocError),
        Err(TranscriptError::Fault { line, fault }) => {
            write_fault(&mut answer, line, fault)?;
            End::Faulty { line, fault }
        }
        Ok(Judged::Wrong { position }) => {
            put_no(&mut answer, position)?;
            End::No { position }
        }
        Ok(Judged::Right { events }) => {
            answer.extend_from_slice(b"yes\n")?;
            End::Right { events }
        }
    };
    Ok((end, answer))
}

/// What a checker says of a transcript.
enum Judged {
    /// All events were taken: so many.
    Right { events: u64 },
    /// The event at this position is the first that isn't right.
    Wrong { position: u64 },
}

/// Has a checker that has taken nothing judge the events of a transcript, in the format that it is in. A fault
/// anywhere in it is told before a wrong event.
fn judge(alloc: Global, text: &[u8], checker: &mut Checker) -> Result<Judged, TranscriptError>
    requires fresh { StandsFor checker.old [] }
    ensures { MatchResult result (IsJudged (transcript_at (format_of text.now) text.now) checker.new) (λ e. Fails e (transcript_at (format_of text.now) text.now)) }
{
    match Events::new(text, Format::of_transcript(text)) {
        Ok(mut events) => judge_all(alloc, &mut events, checker),
        Err(e) => Err(e),
    }
}

/// Has a checker that has taken nothing take the events, as far as they are right.
fn judge_all(
    alloc: Global,
    events: &mut Events,
    checker: &mut Checker,
) -> Result<Judged, TranscriptError>
    requires few { length events.old.events < 18446744073709551615 }
    requires fresh { StandsFor checker.old [] }
    ensures { MatchResult result (IsJudged (outcome events.old) checker.new) (λ e. Fails e (outcome events.old)) }
{
    let mut taken = 0u64;
    while let Some(event) = events.next(alloc) {
        let event = event?;
        if !checker.take(&event)? {
            read_out(alloc, events)?;
            return Ok(Judged::Wrong {
                position: event.position,
            });
        }
        taken += 1;
    }
    Ok(Judged::Right { events: taken })
}

/// Reads what is left, for its fault alone.
fn read_out(alloc: Global, events: &mut Events) -> Result<(), TranscriptError>
    ensures { MatchResult result (λ _. events.old.fault ≡ None) (λ e. Fails e (outcome events.old)) }
{
    while let Some(event) = events.next(alloc) {
        let _event = event?;
    }
    Ok(())
}

/// Writes that the event at a position is the first wrong one.
fn put_no(out: &mut Vec<u8>, position: u64) -> Result<(), AllocError>
    ensures { OnOk result (out.new.items ≡ out.old.items ++ (codes "no " ++ (decimal position ++ codes "\n"))) }
{
    out.extend_from_slice(b"no ")?;
    put_number(out, position)?;
    out.push(b'\n')?;
    Ok(())
}
