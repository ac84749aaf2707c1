//! A feed is followed, from the first byte read to the last one written.
ghost use Rattle.std.specs.Prelude.{◌≡◌, ◌++◌, OnOk, OnErr};
ghost use Rattle.follow.specs.Ends.{CouldBegin, IsFollowed, HasLine, last_line};
ghost use Rattle.follow.specs.Steps.{EndsWritten, FollowsAs};
ghost use Rattle.follow.specs.Prelude.{FollowOptions, Reads, pending_of};

use crate::ending::{FollowEnd, end_by};
use crate::follower::Follower;
use crate::options::FollowOptions;
use crate::texts::put_fault;
use sessions::{Output, Sink, Source};
use std::alloc::{AllocError, Global};
use word_lines::events::write_spent;

/// Reads a feed's messages as lines of JSON, applies them to a replica of its span, and writes a line
/// `resolved T N` at each resolved message: the timestamp and how many rows there are. Where the rows are
/// asked for they follow, a line `row KEY VALUE` each, keys rising. Where the changes are asked for, only keys follow
/// that rows named since: `row KEY VALUE`, or `gone KEY`. Where completeness is asked for, a line `complete T N` comes
/// before the row that shows that the rows are complete at T, in the same form.
///
/// Rows to begin with whose keys don't rise, or lie outside the span, are a fault of line 0.
///
/// A line that doesn't begin with `{` is passed over. A faulty line, and a message that the replica refuses,
/// ends the output with its fault; what was told before it stands. The output is written in large blocks, at the
/// end, and before each read, since a read may wait.
///
/// It ends out of memory only before it reads, for a line that is one to take or at fault, or where no further line can
/// be counted. Then all that is told of the messages before stands, and nothing of that line.
///
/// `IsFollowed` in `specs/Ends.antt` says how each end comes, and `CouldBegin` there that rows which a replica can't
/// begin with are a fault.
pub fn follow_io<S: Source, K: Sink>(
    alloc: Global,
    options: FollowOptions,
    input: &mut S,
    output: &mut K,
) -> FollowEnd
    ensures followed { IsFollowed options (S.reads input.old) (S.reads input.new) (K.writes output.old) (K.writes output.new) result }
    ensures begun { CouldBegin options (S.reads input.old) (S.reads input.new) result }
{
    let mut kept = match Output::new(alloc) {
        Ok(kept) => kept,
        Err(_) => return FollowEnd::Memory,
    };
    match Follower::begin(alloc, options) {
        Ok(mut follower) => {
            let end = match follower.follow(input, &mut kept, output) {
                Ok(()) => FollowEnd::Done,
                Err(end) => end,
            };
            finish(alloc, kept, end, output)
        }
        Err(error) => finish(alloc, kept, end_by(0, error), output),
    }
}

/// Writes what is left, and behind it the line of an end that has one. Where a write has failed, that is not tried
/// again.
fn finish<K: Sink>(alloc: Global, mut kept: Output, end: FollowEnd, output: &mut K) -> FollowEnd
    ensures followed { FollowsAs (pending_of kept) end (K.writes output.old) (K.writes output.new) result }
    ensures begun { (o : FollowOptions) (r : Reads) → CouldBegin o r r end → CouldBegin o r r result }
{
    if let FollowEnd::Output = end {
        return FollowEnd::Output;
    }
    match keep_last(alloc, &mut kept, end) {
        Ok(()) => written(kept, end, output),
        Err(_) => written(kept, FollowEnd::Memory, output),
    }
}

/// Keeps the line of an end that has one, or none of it where it is out of memory.
fn keep_last(alloc: Global, kept: &mut Output, end: FollowEnd) -> Result<(), AllocError>
    ensures ok { OnOk result (pending_of kept.new ≡ pending_of kept.old ++ last_line end) }
    ensures err { OnErr result (pending_of kept.new ≡ pending_of kept.old) }
    ensures line { OnErr result (HasLine end) }
{
    let mut line = Vec::new(alloc);
    match end {
        FollowEnd::Fault {
            line: number,
            fault,
        } => put_fault(&mut line, number, fault)?,
        FollowEnd::Spent => write_spent(&mut line, u64::MAX)?,
        _ => return Ok(()),
    }
    kept.keep(line.as_slice())
}

/// Writes all that waits. The end stays, unless a write fails.
fn written<K: Sink>(mut kept: Output, end: FollowEnd, output: &mut K) -> FollowEnd
    ensures { EndsWritten (pending_of kept) end (K.writes output.old) (K.writes output.new) result }
{
    match kept.write_out(output) {
        Ok(()) => end,
        Err(_) => FollowEnd::Output,
    }
}
