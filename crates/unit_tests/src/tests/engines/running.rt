//! An engine that answers the calls of a script or a transcript, one after the other.
use engine::Engine;
use script::scripts::read_script;
use script::transcripts::read_transcript;
use spans::{Cmd, Event};
use std::alloc::{AllocError, Global};
use text_format::Format;
use word_lines::events::write_event;

/// A writer, and a reader of what was committed.
pub(super) const READER: &str = "0 0 begin 10 => started
1 0 put 10 a 1 => written
2 0 commit 10 => committed 1
3 1 begin 20 => started
4 1 get 20 a => value 1
";

/// The first example.
pub(super) const FIRST: &str = "0 0 begin 10 => started
1 0 put 10 apple 3 => written
2 0 put 10 pear 5 => written
3 0 commit 10 => committed 2
4 1 begin 20 => started
5 1 get 20 apple => value 3
6 1 get 20 plum => none
7 0 begin 15 => started
8 0 put 15 apple 4 => toolate
9 1 commit 20 => committed 0
";

/// Lets an engine answer each line of a script.
pub(super) fn play(alloc: Global, engine: &mut Engine, script: &str) -> Option<()> {
    match read_script(alloc, script.as_bytes(), 3, Format::One) {
        Ok(calls) => play_each(engine, &calls),
        Err(_) => None,
    }
}

fn play_each(engine: &mut Engine, calls: &[(u8, Cmd)]) -> Option<()> {
    for (seat, cmd) in calls {
        if engine.steps() == u64::MAX {
            return None;
        }
        engine.step(*seat, cmd);
    }
    Some(())
}

/// How many steps the engine has made that ran a transcript's calls, if exactly the transcript came of them.
pub(super) fn steps(alloc: Global, transcript: &str) -> Option<u64> {
    let wanted = read_transcript(alloc, transcript.as_bytes(), Format::One).ok()?;
    match Engine::run(alloc, calls(alloc, wanted).ok()?) {
        Ok((engine, events)) => steps_of(alloc, &engine, &events, transcript),
        Err(_) => None,
    }
}

fn steps_of(alloc: Global, engine: &Engine, events: &[Event], transcript: &str) -> Option<u64> {
    if is_text(alloc, events, transcript) {
        Some(engine.steps())
    } else {
        None
    }
}

fn is_text(alloc: Global, events: &[Event], transcript: &str) -> bool {
    match text(alloc, events) {
        Ok(text) => text.as_slice() == transcript.as_bytes(),
        Err(_) => false,
    }
}

/// The seats and commands of events.
fn calls(alloc: Global, events: Vec<Event>) -> Result<Vec<(u8, Cmd)>, AllocError> {
    let mut calls = Vec::new(alloc);
    for event in events {
        let seat = event.seat;
        let (cmd, _) = event.into_parts();
        calls.push((seat, cmd))?;
    }
    Ok(calls)
}

/// The text of events.
fn text(alloc: Global, events: &[Event]) -> Result<Vec<u8>, AllocError> {
    let mut text = Vec::new(alloc);
    for event in events {
        write_event(&mut text, event)?;
    }
    Ok(text)
}
