//! The output, handed to its device in large blocks.
//!
//! ```text
//! let mut output = Output::new(alloc)?;    waits: nothing
//! output.keep_echo(line, &event)?          waits: 0 0 begin 10 => started\n
//! output.keep(b"resolved 5\n")?            waits: 0 0 begin 10 => started\nresolved 5\n
//! output.write_full(sink)?                 as before: it is less than 65536 bytes
//! output.write_out(sink)?                  waits: nothing
//! output.write_last(sink, b"spent 2\n")?   waits: nothing, and the line is written
//! ```
ghost use Rattle.std.specs.Prelude.{◌≡◌, ◌++◌, [], IfOk, OnOk, OnErr};
ghost use Rattle.sessions.specs.Prelude.{command_line, event_text};
ghost use Rattle.sessions.specs.Devices.{pending_of, GoesInBlocks, HasWritten, IsWrittenTo};

use crate::devices::{Sink, WriteFailed};
use crate::ending::ServeEnd;
use crate::whole::write_whole;
use spans::Event;
use std::alloc::{AllocError, Global};
use word_lines::events::{write_echo, write_event};

/// How many bytes are asked for at once at least, and how many are kept before they are written.
pub(crate) const BLOCK: usize = 65536;

/// The bytes that wait to be written.
#[derive(Drop)]
pub struct Output {
    pending: Vec<u8>,
}

impl Output {
    /// Nothing waits.
    pub fn new(alloc: Global) -> Result<Output, AllocError>
        ensures { IfOk result (λ output. pending_of output ≡ []) }
    {
        let pending = Vec::with_capacity(alloc, BLOCK)?;
        Ok(Output { pending })
    }

    /// Keeps these bytes, or none of them where it is out of memory.
    pub fn keep(&mut self, bytes: &[u8]) -> Result<(), AllocError>
        ensures ok { OnOk result (pending_of self.new ≡ pending_of self.old ++ bytes.now) }
        ensures err { OnErr result (pending_of self.new ≡ pending_of self.old) }
    {
        self.pending.extend_from_slice(bytes)
    }

    /// Keeps the text of an event, or none of it where it is out of memory, and writes what waits where that is a block
    /// or more.
    pub fn put_event<K: Sink>(&mut self, sink: &mut K, event: &Event) -> Result<(), ServeEnd>
        ensures put { IsWrittenTo (pending_of self.old ++ event_text event.now) (pending_of self.new) (K.writes sink.old) (K.writes sink.new) result }
        ensures blocks { OnOk result (GoesInBlocks (K.writes sink.old) (K.writes sink.new) (pending_of self.new)) }
    {
        write_event(&mut self.pending, event)?;
        self.write_full(sink)?;
        Ok(())
    }

    /// Keeps the text of an event whose command was read from a line, as it stands there; none of it where it
    /// is out of memory.
    pub fn keep_echo(&mut self, line: &[u8], event: &Event) -> Result<(), AllocError>
        requires { line.now ≡ command_line event.now.seat event.now.cmd }
        ensures ok { OnOk result (pending_of self.new ≡ pending_of self.old ++ event_text event.now) }
        ensures err { OnErr result (pending_of self.new ≡ pending_of self.old) }
    {
        write_echo(&mut self.pending, line, event)
    }

    /// Writes what waits where that is a block or more, as `write_out` does.
    pub fn write_full<K: Sink>(&mut self, sink: &mut K) -> Result<(), WriteFailed>
        ensures written { HasWritten (K.writes sink.old) (K.writes sink.new) (pending_of self.old) (pending_of self.new) result }
        ensures blocks { OnOk result (GoesInBlocks (K.writes sink.old) (K.writes sink.new) (pending_of self.new)) }
    {
        if self.pending.len() < BLOCK {
            return Ok(());
        }
        self.write_out(sink)
    }

    /// Writes all that waits. Where it fails a part of it is written, and nothing more is to be.
    pub fn write_out<K: Sink>(&mut self, sink: &mut K) -> Result<(), WriteFailed>
        ensures written { HasWritten (K.writes sink.old) (K.writes sink.new) (pending_of self.old) (pending_of self.new) result }
        ensures all { OnOk result (pending_of self.new ≡ []) }
    {
        write_whole(sink, self.pending.as_slice())?;
        self.pending.clear();
        Ok(())
    }

    /// Writes all that waits, and behind it these bytes, which take no room here. Where it fails a part is written, and
    /// nothing more is to be.
    pub(crate) fn write_last<K: Sink>(
        &mut self,
        sink: &mut K,
        last: &[u8],
    ) -> Result<(), WriteFailed>
        ensures written { HasWritten (K.writes sink.old) (K.writes sink.new) (pending_of self.old ++ last.now) [] result }
        ensures all { OnOk result (pending_of self.new ≡ []) }
    {
        self.write_out(sink)?;
        write_whole(sink, last)
    }
}
