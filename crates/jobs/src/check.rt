//! A transcript is checked.
ghost use Rattle.jobs.specs.Ends.{IsAnswered, IsSilentAt, end_of};
ghost use Rattle.jobs.specs.Verdicts.{IsVerdict};

use crate::ending::End;
use crate::verdicts::verdict;
use sessions::{ServeEnd, Sink, Source, read_whole, write_whole};
use std::alloc::Global;

/// Reads a transcript, and writes `yes` where it is a legal history, else `no P` with the position of the first event by
/// which it isn't. A transcript that can't be read gets its fault line, and no verdict. Where memory runs out, nothing is
/// written.
pub fn check_io<S: Source, K: Sink>(alloc: Global, input: &mut S, output: &mut K) -> End
    ensures answered { IsAnswered IsVerdict (S.reads input.old) (S.reads input.new) (K.writes output.old) (K.writes output.new) result }
    ensures memory { IsSilentAt result (K.writes output.old) (K.writes output.new) }
{
    checked(alloc, input, output).unwrap_or_else(End::from)
}

fn checked<S: Source, K: Sink>(
    alloc: Global,
    input: &mut S,
    output: &mut K,
) -> Result<End, ServeEnd>
    ensures answered { IsAnswered IsVerdict (S.reads input.old) (S.reads input.new) (K.writes output.old) (K.writes output.new) (end_of result) }
    ensures memory { IsSilentAt (end_of result) (K.writes output.old) (K.writes output.new) }
{
    let text = read_whole(alloc, input)?;
    let (end, answer) = verdict(alloc, text.as_slice())?;
    write_whole(output, answer.as_slice())?;
    Ok(end)
}
