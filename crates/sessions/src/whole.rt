//! Whole inputs and whole outputs, for a program that answers once it has read everything.
ghost use Rattle.std.specs.Prelude.{[]};
ghost use Rattle.sessions.specs.Prelude.{transcript_text};
ghost use Rattle.sessions.specs.Devices.{HasWritten, IsReadWhole, IsWrittenWhole};

use crate::devices::{Sink, Source, WriteFailed};
use crate::ending::ServeEnd;
use crate::output::{BLOCK, Output};
use spans::Event;
use std::alloc::Global;
use text_format::Format;

/// Reads a source to its end.
pub fn read_whole<S: Source>(alloc: Global, source: &mut S) -> Result<Vec<u8>, ServeEnd>
    ensures { IsReadWhole (S.reads source.old) (S.reads source.new) result }
{
    let mut block = vec![in alloc; 0u8; BLOCK]?;
    let mut whole = Vec::new(alloc);
    for _turn in 0..u64::MAX {
        let count = source.read(&mut block)?;
        if count == 0 {
            return Ok(whole);
        }
        whole.extend_from_slice(&block[..count])?;
    }
    // each turn has read a byte, and no list is so long
    unreachable!()
}

/// Writes the bytes, in as many pieces as the device takes. Where it fails, those before are written.
pub fn write_whole<K: Sink>(sink: &mut K, bytes: &[u8]) -> Result<(), WriteFailed>
    ensures { HasWritten (K.writes sink.old) (K.writes sink.new) bytes.now [] result }
{
    let mut rest = bytes;
    while !rest.is_empty() {
        let count = sink.write(rest)?;
        rest = &rest[count..];
    }
    Ok(())
}

/// Writes the transcript of events in a format: its header, and their texts, in large blocks.
pub fn write_transcript<K: Sink>(
    alloc: Global,
    sink: &mut K,
    format: Format,
    events: &[Event],
) -> Result<(), ServeEnd>
    ensures { IsWrittenWhole (transcript_text format events.now) (K.writes sink.old) (K.writes sink.new) result }
{
    let mut output = Output::new(alloc)?;
    output.keep(format.header())?;
    for event in events {
        output.put_event(sink, event)?;
    }
    output.write_out(sink)?;
    Ok(())
}
