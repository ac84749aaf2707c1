//! The dump of a transcript's database: a script that rebuilds it.
ghost use Rattle.std.specs.Prelude.{◌≡◌, ◌++◌, ◌≤◌, IfOk, OnOk, None, unwrap_or};
ghost use Rattle.timestamps.specs.declared.ts.TheConstants.{MAX};
ghost use Rattle.jobs.specs.Prelude.{lines_of, row_commands};
ghost use Rattle.jobs.specs.Ends.{IsAnswered, IsSilentAt, end_of};
ghost use Rattle.jobs.specs.Verdicts.{IsDumped};

use crate::ending::End;
use crate::verdicts::verdict_by;
use dump_lines::{write_close, write_end, write_row};
use plain_database::dump::Dump;
use sessions::{ServeEnd, Sink, Source, read_whole, write_whole};
use std::alloc::{AllocError, Global};
use timestamps::{Row, Ts};
use trace_check::checker::Checker;

/// Reads a transcript, and writes the script of session 0 that rebuilds its database. The script closes at `at`, or at the
/// greatest of closed and all that began where that is above or none is given, and ends in a collection. Where the transcript
/// is no legal history it answers as `check` does: `no P`, or the fault line. Where memory runs out, nothing is written.
pub fn dump_io<S: Source, K: Sink>(
    alloc: Global,
    at: Option<Ts>,
    input: &mut S,
    output: &mut K,
) -> End
    ensures answered { IsAnswered (IsDumped (unwrap_or at 0)) (S.reads input.old) (S.reads input.new) (K.writes output.old) (K.writes output.new) result }
    ensures memory { IsSilentAt result (K.writes output.old) (K.writes output.new) }
{
    dumped(alloc, at, input, output).unwrap_or_else(End::from)
}

fn dumped<S: Source, K: Sink>(
    alloc: Global,
    at: Option<Ts>,
    input: &mut S,
    output: &mut K,
) -> Result<End, ServeEnd>
    ensures answered { IsAnswered (IsDumped (unwrap_or at 0)) (S.reads input.old) (S.reads input.new) (K.writes output.old) (K.writes output.new) (end_of result) }
    ensures memory { IsSilentAt (end_of result) (K.writes output.old) (K.writes output.new) }
{
    let text = read_whole(alloc, input)?;
    let (end, answer) = dump_of_text(alloc, at, text.as_slice())?;
    write_whole(output, answer.as_slice())?;
    Ok(end)
}

/// How [`dump_io`] ends on a text, and what it writes. It costs what [`verdict`](crate::verdict) does, and a look at each
/// committed version.
#[tactic(auto, using(crate::proofs::Dumps::refused_dump))]
pub fn dump_of_text(
    alloc: Global,
    at: Option<Ts>,
    text: &[u8],
) -> Result<(End, Vec<u8>), AllocError>
    ensures { IfOk result (λ answer. IsDumped (unwrap_or at 0) text.now answer.0 answer.1.items) }
{
    let mut checker = Checker::new(alloc);
    let (end, verdict) = verdict_by(alloc, text, &mut checker)?;
    if !end.is_right() {
        return Ok((end, verdict));
    }
    let Dump { rows, to, horizon } = checker.dump(number_of(at))?;
    let mut answer = Vec::new(alloc);
    put_rows(&mut answer, rows)?;
    write_close(&mut answer, to, horizon)?;
    Ok((End::Done, answer))
}

/// The timestamp's number, or 0 where there is none.
fn number_of(at: Option<Ts>) -> u64
    ensures number { result ≡ unwrap_or at 0 }
    ensures in_range { result ≤ MAX }
{
    at.map_or(0, |ts| ts.get())
}

/// Writes the transactions of the rows.
fn put_rows(out: &mut Vec<u8>, rows: Vec<Row>) -> Result<(), AllocError>
    ensures { OnOk result (out.new.items ≡ out.old.items ++ lines_of (row_commands None rows.items)) }
{
    let mut latest = None;
    for row in rows {
        let ts = row.ts.get();
        write_row(out, latest, row)?;
        latest = Some(ts);
    }
    write_end(out, latest)
}
