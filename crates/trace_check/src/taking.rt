//! How the database is asked about one event, compares the answer, and takes it in.
ghost use Rattle.std.specs.Prelude.{◌≡◌, ◌↔◌, true, false, IfOk, OnErr};
ghost use Rattle.spans.specs.declared.calls.replies.Reply.TheVariants.{Refused};
ghost use Rattle.spans.specs.declared.calls.replies.Refusal.TheVariants.{NoMemory};
ghost use Rattle.spans.specs.Legal.{is_accepted, may_lack_memory};
ghost use Rattle.trace_check.specs.Traces.{Judges, MayLack, TakesIn};

use plain_database::database::PlainDatabase;
use spans::{Cmd, Event, Messages, Refusal, Reply, Rows};
use std::alloc::AllocError;

/// Whether an event is right after those that the database took in. Where it is, it is taken in too.
pub(crate) fn take_in(database: &mut PlainDatabase, event: &Event) -> Result<bool, AllocError>
    ensures right { IfOk result (Judges database.old event.now) }
    ensures taken { IfOk result (TakesIn database.old database.new event.now) }
    ensures refused { IfOk result (λ right. right ≡ false → database.new ≡ database.old) }
    ensures memory { OnErr result (database.new ≡ database.old) }
    ensures wanting { OnErr result (MayLack database.old event.now) }
{
    let answer = database.answer(event.seat, &event.cmd)?;
    if same_reply(&event.reply, &answer) {
        database.record(event.seat, &event.cmd, &event.reply)?;
        return Ok(true);
    }
    // running out of memory leaves the database as it is
    Ok(is_want_of_memory(event, &answer))
}

/// Whether the reply is out of memory, where the answer is no refusal and the command may want it.
fn is_want_of_memory(event: &Event, answer: &Reply) -> bool
    ensures { (result ≡ true) ↔ ((event.now.reply ≡ Refused NoMemory) × (is_accepted answer.now ≡ true) × (may_lack_memory event.now.cmd ≡ true)) }
{
    matches!(&event.reply, Reply::Refused(Refusal::NoMemory))
        && !matches!(answer, Reply::Refused(_))
        && may_want_memory(&event.cmd)
}

/// Whether the command may want memory, and find none.
fn may_want_memory(cmd: &Cmd) -> bool
    ensures { result ≡ may_lack_memory cmd.now }
{
    match cmd {
        Cmd::Commit { .. } | Cmd::Abort { .. } | Cmd::Close { .. } | Cmd::CloseHard { .. } => false,
        Cmd::Release { .. } | Cmd::Cancel { .. } | Cmd::Stats => false,
        _ => true,
    }
}

/// Whether two replies are the same, row by row and message by message.
fn same_reply(a: &Reply, b: &Reply) -> bool
    ensures { (result ≡ true) ↔ (a.now ≡ b.now) }
{
    match a {
        Reply::Started => matches!(b, Reply::Started),
        Reply::Found(value) => matches!(b, Reply::Found(other) if other == value),
        Reply::Rows(rows) => matches!(b, Reply::Rows(other) if same_rows(other, rows)),
        Reply::Written => matches!(b, Reply::Written),
        Reply::Committed { keys } => matches!(b, Reply::Committed { keys: other } if other == keys),
        Reply::Aborted => matches!(b, Reply::Aborted),
        Reply::Closed { at, aborted } => {
            matches!(b, Reply::Closed { at: stands, aborted: count } if stands == at && count == aborted)
        }
        Reply::Protected { id } => matches!(b, Reply::Protected { id: other } if other == id),
        Reply::Released => matches!(b, Reply::Released),
        Reply::Collected { horizon, removed } => {
            matches!(b, Reply::Collected { horizon: stands, removed: count } if stands == horizon && count == removed)
        }
        Reply::Opened { feed } => matches!(b, Reply::Opened { feed: other } if other == feed),
        Reply::Messages(list) => matches!(b, Reply::Messages(other) if same_messages(other, list)),
        Reply::Cancelled => matches!(b, Reply::Cancelled),
        Reply::Stats {
            versions,
            undecided,
            feeds,
            closed,
            horizon,
        } => {
            matches!(b, Reply::Stats { versions: all, undecided: open, feeds: live, closed: stands, horizon: reached }
                if all == versions && open == undecided && live == feeds && stands == closed && reached == horizon)
        }
        Reply::Refused(refusal) => matches!(b, Reply::Refused(other) if other == refusal),
    }
}

/// Whether two lists of rows are the same.
fn same_rows(a: &Rows, b: &Rows) -> bool
    ensures { (result ≡ true) ↔ (a.now ≡ b.now) }
{
    a.as_slice() == b.as_slice()
}

/// Whether two lists of messages are the same.
fn same_messages(a: &Messages, b: &Messages) -> bool
    ensures { (result ≡ true) ↔ (a.now ≡ b.now) }
{
    a.as_slice() == b.as_slice()
}
