//! Sessions that race while a growth may be refused: one of the database's, of its oracle, of a thread, or of an event.
use super::playing::sum;
use races::{Open, race_calls};
use script::scripts::read_script;
use spans::{Cmd, Event, Refusal, Reply};
use std::alloc::Global;
use std::sync::Wait;
use std::thread::Threads;
use text_format::Format;
use trace_check::{Verdict, check};

/// The calls of two sessions.
const SCRIPT: &[u8] = b"0 begin 10
1 begin 20
0 put 10 a 1
1 put 20 b 2
0 scan 10 - b
1 get 20 b
0 commit 10
1 commit 20
0 protect 30
1 stats
";

/// Has the sessions race, and again where memory was wanting for the race. How often it was, unless a history isn't right,
/// or an undisturbed race has no history.
pub(super) fn race_twice<R: Threads + Wait + Sync>(rt: &R, alloc: Global) -> Option<u64> {
    sum(wanting(rt, alloc), wanting(rt, alloc))
}

fn wanting<R: Threads + Wait + Sync>(rt: &R, alloc: Global) -> Option<u64> {
    wanting_in(alloc, &raced(rt, alloc))
}

/// How often memory was wanting in a race with this history, unless it isn't right.
fn wanting_in(alloc: Global, history: &Option<Vec<Event>>) -> Option<u64> {
    match history {
        Some(events) if events.len() == 10 && is_right(alloc, events) => Some(refused_in(events)),
        Some(_) => None,
        None => Some(1),
    }
}

/// The history of a race, if it has one.
fn raced<R: Threads + Wait + Sync>(rt: &R, alloc: Global) -> Option<Vec<Event>> {
    let calls: Vec<(u8, Cmd)> = read_script(alloc, SCRIPT, 2, Format::One).ok()?;
    race_calls(rt, alloc, 2, 4, calls, &Open).ok()
}

/// How many calls were answered that memory was wanting.
fn refused_in(events: &[Event]) -> u64 {
    let refused = events.iter().filter(|event| matches!(
        &event.reply,
        Reply::Refused(Refusal::NoMemory)
    ));
    refused.count() as u64
}

/// Whether the database could have answered so. A growth that is refused to the checker is no answer, so it is asked
/// again.
fn is_right(alloc: Global, events: &[Event]) -> bool {
    match check(alloc, events) {
        Ok(verdict) => verdict == Verdict::Yes,
        Err(_) => check(alloc, events).is_ok_and(|verdict| verdict == Verdict::Yes),
    }
}
