//! Inputs and outputs of many blocks, and devices that fail in one of them.
use super::devices::{Sink, Source};
use super::followed::CACHE;
use super::playing::{check, follow, is_yes, ran, run};
use super::random::{Shape, script};
use follow::{FollowEnd, FollowOptions, Shown, Start};
use jobs::{DEFAULTS, End};
use spans::Span;
use std::alloc::{AllocError, Global};
use std::sync::Wait;
use text_format::Format;

/// A transcript of more than one block, whose last event alone is wrong: a check that leaves out its end says
/// something else.
pub(super) fn long_transcript(alloc: Global) -> Result<Vec<u8>, AllocError> {
    let mut transcript = Vec::new(alloc);
    for position in 0..4000 {
        let line = format!(in alloc; "{position} 0 get 7 a => notxn\n")?;
        transcript.extend_from_slice(line.as_bytes())?;
    }
    transcript.extend_from_slice(b"4000 0 stats => started\n")?;
    Ok(transcript)
}

/// Whether a check that reads in such pieces, and fails behind so many bytes, ends and tells so.
pub(super) fn is_checked(
    alloc: Global,
    transcript: &[u8],
    piece: usize,
    length: Option<usize>,
    end: End,
    told: &[u8],
) -> bool {
    let mut sink = Sink::new(alloc);
    let source = Source::new(transcript)
        .failing_after(length)
        .in_pieces_of(piece);
    check(alloc, source, &mut sink) == end && sink.taken.as_slice() == told
}

/// Messages of so many rows whose keys rise, and so many that resolve them.
pub(super) fn messages(alloc: Global, rows: u64, resolved: u64) -> Result<Vec<u8>, AllocError> {
    let mut text = Vec::new(alloc);
    for row in 0..rows {
        let letters = row.saturating_add(1000);
        let line = format!(in alloc;
            "{{\"after\":\"MTIzNDU2Nzg5\",\"key\":\"{letters}\",\"updated\":\"10\"}}\n"
        )?;
        text.extend_from_slice(line.as_bytes())?;
    }
    for at in 0..resolved {
        let line = format!(in alloc; "{{\"resolved\":\"{}\"}}\n", at.saturating_add(10))?;
        text.extend_from_slice(line.as_bytes())?;
    }
    Ok(text)
}

/// How following all keys of messages from 9 on ends, where the output has so much room, and what is written.
pub(super) fn followed(
    alloc: Global,
    messages: &[u8],
    room: Option<usize>,
) -> (FollowEnd, Vec<u8>) {
    let mut sink = Sink::new(alloc).with_room(room, false);
    let options = FollowOptions {
        span: Span { lo: None, hi: None },
        start: Start::Cursor(9),
        feed: None,
        shown: Shown::Rows,
        complete: false,
        format: Format::One,
    };
    let end = follow(alloc, options, Source::new(messages), &mut sink);
    (end, sink.taken)
}

/// Scripts of a shape, run with rings of 1 to 8 rows. Whether every reply is right, and none is out of memory.
pub(super) fn are_right<R: Wait>(rt: &R, alloc: Global, first: u64, stride: u64) -> Option<bool> {
    for turn in 0u64..25 {
        let shape = Shape {
            seed: turn.saturating_add(88172645463325252),
            first,
            stride,
        };
        let script = script(alloc, shape, 500).ok()?;
        let output = ran(rt, alloc, (turn % 8) as u32 + 1, &script)?;
        let text = std::str::from_utf8(&output).ok()?;
        if !is_yes(alloc, &output) || text.contains(" => nomemory") {
            return Some(false);
        }
    }
    Some(true)
}

/// Verdicts on the transcript of the first cache, and on it where a message was altered on the way.
pub(super) fn altered<R: Wait>(rt: &R, alloc: Global) -> Option<Vec<u8>> {
    let output = ran(rt, alloc, 1024, CACHE.as_bytes())?;
    let text = std::str::from_utf8(&output).ok()?;
    let altered = text.replace(alloc, "\"NA==\"", "\"NQ==\"").ok()?;
    let mut sink = Sink::new(alloc);
    check(alloc, Source::new(&output), &mut sink);
    check(alloc, Source::new(altered.as_bytes()), &mut sink);
    Some(sink.taken)
}

/// Whether a run whose reads fail behind so many bytes of a script writes what so many lines are answered.
fn is_read_in_part<R: Wait>(
    rt: &R,
    alloc: Global,
    script: &[u8],
    length: usize,
    transcript: &str,
    lines: u64,
) -> Option<bool> {
    let mut sink = Sink::new(alloc);
    let source = Source::new(script).failing_after(Some(length));
    let end = run(rt, alloc, DEFAULTS, Format::One, source, &mut sink);
    let next = format!(in alloc; "{lines} 0 ").ok()?;
    let (wanted, _) = transcript
        .split_once(next.as_str())
        .unwrap_or((transcript, ""));
    Some(end == End::Input && sink.taken.as_slice() == wanted.as_bytes())
}

/// Whether a run whose reads fail behind any byte of a script writes what the lines before it are answered.
pub(super) fn reads_may_fail<R: Wait>(
    rt: &R,
    alloc: Global,
    script: &[u8],
    transcript: &str,
) -> Option<bool> {
    let mut lines = 0u64;
    for (length, byte) in script.iter().enumerate() {
        if !is_read_in_part(rt, alloc, script, length, transcript, lines)? {
            return Some(false);
        }
        if *byte == b'\n' {
            lines = lines.saturating_add(1);
        }
    }
    is_read_in_part(rt, alloc, script, script.len(), transcript, lines)
}

/// Whether a run whose writes fail behind any byte of its transcript has written what is before it.
pub(super) fn writes_may_fail<R: Wait>(
    rt: &R,
    alloc: Global,
    script: &[u8],
    transcript: &[u8],
) -> bool {
    for room in 0..transcript.len() {
        for stuck in [false, true] {
            let mut sink = Sink::new(alloc).with_room(Some(room), stuck);
            let end = run(
                rt,
                alloc,
                DEFAULTS,
                Format::One,
                Source::new(script),
                &mut sink,
            );
            if end != End::Output || sink.taken.as_slice() != &transcript[..room] {
                return false;
            }
        }
    }
    true
}
