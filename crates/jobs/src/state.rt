//! The state after a transcript is told.
ghost use Rattle.std.specs.Prelude.{◌≡◌, IfOk};
ghost use Rattle.jobs.specs.Ends.{IsAnswered, IsSilentAt, end_of};
ghost use Rattle.jobs.specs.Verdicts.{IsState, is_whole};

use crate::ending::End;
use crate::verdicts::verdict_by;
use report_lines::write_report;
use sessions::{ServeEnd, Sink, Source, read_whole, write_whole};
use std::alloc::{AllocError, Global};
use trace_check::checker::Checker;

/// How much is told of a state.
#[derive(Clone, Copy, Debug, PartialEq, Eq)]
pub enum Detail {
    /// All of it.
    Whole,
    /// All but the two counts that a database in use can't tell.
    Live,
}

impl Detail {
    fn is_whole(self) -> bool
        ensures { result ≡ is_whole self }
    {
        matches!(self, Detail::Whole)
    }
}

/// Reads a transcript, and writes the state after its last event: lines of JSON, whole or live. Where it is no legal
/// history it answers as `check` does: `no P`, or the fault line. Where memory runs out, nothing is written.
pub fn state_io<S: Source, K: Sink>(
    alloc: Global,
    detail: Detail,
    input: &mut S,
    output: &mut K,
) -> End
    ensures answered { IsAnswered (IsState detail) (S.reads input.old) (S.reads input.new) (K.writes output.old) (K.writes output.new) result }
    ensures memory { IsSilentAt result (K.writes output.old) (K.writes output.new) }
{
    told(alloc, detail, input, output).unwrap_or_else(End::from)
}

fn told<S: Source, K: Sink>(
    alloc: Global,
    detail: Detail,
    input: &mut S,
    output: &mut K,
) -> Result<End, ServeEnd>
    ensures answered { IsAnswered (IsState detail) (S.reads input.old) (S.reads input.new) (K.writes output.old) (K.writes output.new) (end_of result) }
    ensures memory { IsSilentAt (end_of result) (K.writes output.old) (K.writes output.new) }
{
    let text = read_whole(alloc, input)?;
    let (end, answer) = state_text(alloc, detail, text.as_slice())?;
    write_whole(output, answer.as_slice())?;
    Ok(end)
}

/// How [`state_io`] ends on a text, and what it writes. It costs what [`verdict`](crate::verdict) does, and the report.
#[tactic(auto, using(crate::proofs::States::refused_state, crate::proofs::States::reported_state))]
pub fn state_text(alloc: Global, detail: Detail, text: &[u8]) -> Result<(End, Vec<u8>), AllocError>
    ensures { IfOk result (λ answer. IsState detail text.now answer.0 answer.1.items) }
{
    let mut checker = Checker::new(alloc);
    let (end, verdict) = verdict_by(alloc, text, &mut checker)?;
    if !end.is_right() {
        return Ok((end, verdict));
    }
    let report = checker.report(detail.is_whole())?;
    let mut answer = Vec::new(alloc);
    write_report(&report, &mut answer)?;
    Ok((End::Done, answer))
}
