//! A transcript, played while a growth may be refused.
use engine::Engine;
use script::transcripts::read_transcript;
use spans::{Cmd, Event, Refusal, Reply};
use std::alloc::Global;
use text_format::Format;
use word_lines::replies::write_reply;

/// Makes the calls of a transcript, which stands behind a line, on an engine, and then on another. How often memory was
/// wanting, unless another reply came.
pub(super) fn play_twice(alloc: Global, case: &str) -> Option<u64> {
    let (_, transcript) = case.split_once('\n')?;
    match events_of(alloc, transcript.as_bytes()) {
        Some(events) => {
            let first = play(alloc, &mut Engine::new(alloc), &events);
            sum(first, play(alloc, &mut Engine::new(alloc), &events))
        }
        None => None,
    }
}

/// The sum of two counts, if there are both.
pub(super) fn sum(one: Option<u64>, other: Option<u64>) -> Option<u64> {
    Some(one?.saturating_add(other?))
}

/// The events of a transcript. Where the growth that is refused is one of reading it, it is read again.
fn events_of(alloc: Global, transcript: &[u8]) -> Option<Vec<Event>> {
    match read_transcript(alloc, transcript, Format::One) {
        Ok(events) => Some(events),
        Err(_) => read_transcript(alloc, transcript, Format::One).ok(),
    }
}

/// Makes the calls. How often memory was wanting.
fn play(alloc: Global, engine: &mut Engine, events: &[Event]) -> Option<u64> {
    let mut wanting = 0u64;
    for event in events {
        wanting = wanting.saturating_add(make(alloc, engine, event)?);
    }
    Some(wanting)
}

/// Makes a call, and makes it again where it is out of memory. How often it was.
pub(super) fn make(alloc: Global, engine: &mut Engine, event: &Event) -> Option<u64> {
    match asked(alloc, engine, event) {
        Some(true) => match asked(alloc, engine, event) {
            Some(false) => Some(1),
            _ => None,
        },
        Some(false) => Some(0),
        None => None,
    }
}

fn asked(alloc: Global, engine: &mut Engine, event: &Event) -> Option<bool> {
    refusal_in(alloc, event, &step(engine, event))
}

/// Whether a reply says that memory was wanting, unless it is any other than the event's.
pub(super) fn refusal_in(alloc: Global, event: &Event, reply: &Option<Reply>) -> Option<bool> {
    match reply {
        Some(reply) if is_same(alloc, reply, &event.reply) => Some(false),
        Some(reply) if is_wanting(event, reply) => Some(true),
        _ => None,
    }
}

fn is_same(alloc: Global, reply: &Reply, other: &Reply) -> bool {
    text_of(alloc, reply).as_slice() == text_of(alloc, other).as_slice()
}

/// Makes the call of an event.
pub(super) fn step(engine: &mut Engine, event: &Event) -> Option<Reply> {
    made(engine, event.seat, &event.cmd)
}

/// Makes a call.
pub(super) fn made(engine: &mut Engine, seat: u8, cmd: &Cmd) -> Option<Reply> {
    if engine.steps() == u64::MAX {
        return None;
    }
    Some(engine.step(seat, cmd))
}

/// A reply as it is written. Where the growth that is refused is one of writing it, it is written again.
fn text_of(alloc: Global, reply: &Reply) -> Vec<u8> {
    let mut out = Vec::new(alloc);
    if write_reply(&mut out, reply).is_err() {
        let _ = write_reply(&mut out, reply);
    }
    out
}

/// Whether the reply says that it is out of memory, where that may be.
fn is_wanting(event: &Event, reply: &Reply) -> bool {
    matches!(reply, Reply::Refused(Refusal::NoMemory)) && may_lack_memory(event)
}

/// Whether the command may lack memory, and would have been accepted.
fn may_lack_memory(event: &Event) -> bool {
    let takes_none = matches!(
        &event.cmd,
        Cmd::Commit { .. }
            | Cmd::Abort { .. }
            | Cmd::Close { .. }
            | Cmd::CloseHard { .. }
            | Cmd::Release { .. }
            | Cmd::Collect { .. }
            | Cmd::Cancel { .. }
            | Cmd::Stats
    );
    !takes_none && !matches!(&event.reply, Reply::Refused(_))
}
