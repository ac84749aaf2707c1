//! Serving a script: its calls are made in their order, and what happened is written.
ghost use Rattle.std.specs.Prelude.{◌≡◌, ◌<◌, ◌≤◌, Some, vec_len, length, take, IfOk, IfErr, OnOk};
ghost use Rattle.sessions.specs.Prelude.{command_line};
ghost use Rattle.word_lines.specs.Limits.{IsCommand};
ghost use Rattle.sessions.specs.Devices.{pending_of, GoesInBlocks};
ghost use Rattle.sessions.specs.Runs.{IsServed};
ghost use Rattle.sessions.specs.Waiting.{IsNextLine, waiting};
ghost use Rattle.sessions.specs.Going.{IsStopped, IsFresh, IsRefused, MakesCall, StopsBefore, CallsLine, StopsAtLine, ServesAs, end_of};

use crate::callers::Callers;
use crate::devices::{Sink, Source};
use crate::ending::ServeEnd;
use crate::last_line::LastLine;
use crate::lines::Lines;
use crate::output::Output;
use shared_db::Config;
use spans::{Cmd, Event, Reply};
use std::alloc::Global;
use std::sync::Wait;
use text_format::Format;
use word_lines::commands::read_command;
use word_lines::fault::ReadError;

/// Opens a database, makes the calls of a script of a format in their order, and writes the transcript. Once the
/// database is open the output begins with the format's header.
///
/// A line is the call of the seat that it names. A faulty line ends the transcript with its fault, and so does one for
/// which no position is left; what was answered before it stands. The output is written in large blocks, at the end,
/// and before each read, since a read may wait.
pub fn serve<S: Source, K: Sink, T: Wait>(
    rt: &T,
    alloc: Global,
    config: Config,
    format: Format,
    input: &mut S,
    output: &mut K,
) -> ServeEnd
    ensures { IsServed format config (S.reads input.old) (S.reads input.new) (K.writes output.old) (K.writes output.new) result }
{
    match Run::begin(alloc, Terms { config, format }) {
        Ok(mut run) => {
            let end = match run.calls(rt, input, output) {
                Ok(()) => ServeEnd::Done,
                Err(end) => end,
            };
            run.finish(end, output)
        }
        Err(end) => end,
    }
}

/// The terms of a run: the database that it opens, and the format of its texts.
#[derive(Clone, Copy)]
struct Terms {
    config: Config,
    format: Format,
}

/// A run with what it has read, answered and not yet written.
#[derive(Drop)]
struct Run {
    alloc: Global,
    terms: Terms,
    lines: Lines,
    output: Output,
    last: LastLine,
    callers: Callers,
}

impl Run {
    fn begin(alloc: Global, terms: Terms) -> Result<Run, ServeEnd>
        ensures ok { IfOk result (λ run. IsFresh run × (run.terms ≡ terms)) }
        ensures err { IfErr result (IsRefused terms.config) }
    {
        // A wrong count of seats, or a wrong ring, is told before memory is wanted for buffers.
        let callers = Callers::open(alloc, terms.config)?;
        let lines = Lines::new(alloc, terms.format)?;
        let mut output = Output::new(alloc)?;
        output.keep(terms.format.header())?;
        let last = LastLine::new(alloc)?;
        Ok(Run {
            alloc,
            terms,
            lines,
            output,
            last,
            callers,
        })
    }

    /// Makes the calls of all lines, or of those before one that ends the run.
    fn calls<S: Source, K: Sink, T: Wait>(
        &mut self,
        rt: &T,
        input: &mut S,
        output: &mut K,
    ) -> Result<(), ServeEnd>
        requires fresh { IsFresh self.old }
        ensures terms { self.new.terms ≡ self.old.terms }
        ensures stopped { IsStopped (S.reads input.old) (S.reads input.new) (K.writes output.old) (K.writes output.new) self.new (end_of result) }
    {
        // One event serves all lines, since to move one costs nearly two hundred instructions.
        let mut event = Event {
            position: 0,
            seat: 0,
            cmd: Cmd::Stats,
            reply: Reply::Started,
        };
        for before in 0..u64::MAX {
            let Some(count) = self.lines.next_line(input, &mut self.output, output)? else {
                return Ok(());
            };
            self.line(rt, output, before + 1, count, &mut event)?;
        }
        // No run has so many turns.
        for _ in rt.forever() {}
        unreachable!()
    }

    /// Reads the command of one line into an event, makes its call, and keeps the event to be written.
    fn line<K: Sink, T: Wait>(
        &mut self,
        rt: &T,
        output: &mut K,
        number: u64,
        count: usize,
        event: &mut Event,
    ) -> Result<(), ServeEnd>
        requires { IsNextLine self.old.lines (Some count) }
        ensures terms { self.new.terms ≡ self.old.terms }
        ensures ok { OnOk result (CallsLine self.old self.new number (K.writes output.old) (K.writes output.new)) }
        ensures err { IfErr result (StopsAtLine self.old self.new number (K.writes output.old) (K.writes output.new)) }
        ensures blocks { OnOk result (GoesInBlocks (K.writes output.old) (K.writes output.new) (pending_of self.new.output)) }
    {
        let seat = self.read(number, count, &mut event.cmd)?;
        self.call(rt, number, count, seat, event)?;
        // a large reply doesn't wait with the next read
        event.reply = Reply::Started;
        self.output.write_full(output)?;
        Ok(())
    }

    /// Reads the call of a line, which stays: it tells the seat, and writes the command over another.
    #[inline(always)]
    fn read(&self, line: u64, count: usize, cmd: &mut Cmd) -> Result<u8, ServeEnd>
        requires { IsNextLine self.now.lines (Some count) }
        ensures there { IfOk result (λ seat. seat < vec_len self.now.callers.seats) }
        ensures lawful { IfOk result (λ seat. IsCommand self.now.terms.format cmd.new) }
        ensures spelled { IfOk result (λ seat. take count (waiting self.now.lines) ≡ command_line seat cmd.new) }
        ensures err { IfErr result (StopsBefore self.now self.now line) }
    {
        let text = self.lines.line(count);
        match read_command(self.alloc, text, self.callers.count(), self.terms.format) {
            Ok((seat, read)) => {
                *cmd = read;
                Ok(seat)
            }
            Err(ReadError::NoMemory) => Err(ServeEnd::Memory),
            Err(ReadError::Fault(fault)) => Err(ServeEnd::Fault { line, fault }),
        }
    }

    /// Makes the call of a line, whose command the event has, and keeps the event to be written, the line as it stands.
    #[inline(always)]
    fn call<T: Wait>(
        &mut self,
        rt: &T,
        number: u64,
        count: usize,
        seat: u8,
        event: &mut Event,
    ) -> Result<(), ServeEnd>
        requires within { count ≤ length (waiting self.old.lines) }
        requires there { seat < vec_len self.old.callers.seats }
        requires lawful { IsCommand self.old.terms.format event.old.cmd }
        requires spelled { take count (waiting self.old.lines) ≡ command_line seat event.old.cmd }
        ensures terms { self.new.terms ≡ self.old.terms }
        ensures ok { OnOk result (MakesCall self.old self.new) }
        ensures err { IfErr result (StopsBefore self.old self.new number) }
    {
        match self.callers.call(rt, seat, event) {
            Ok(()) => {
                self.output.keep_echo(self.lines.line(count), event)?;
                self.lines.advance(count);
                Ok(())
            }
            Err(_) => Err(ServeEnd::Spent { line: number }),
        }
    }

    /// Ends the database, and writes what is left, with the line of an end that has one. Where a write has failed before,
    /// that is not tried again.
    fn finish<K: Sink>(self, end: ServeEnd, output: &mut K) -> ServeEnd
        ensures { ServesAs self end (K.writes output.old) (K.writes output.new) result }
    {
        let Run {
            callers,
            output: mut kept,
            last,
            ..
        } = self;
        callers.finish();
        if let ServeEnd::Output = end {
            return ServeEnd::Output;
        }
        let last = last.of(end);
        match kept.write_last(output, &last) {
            Ok(()) => end,
            Err(failed) => ServeEnd::from(failed),
        }
    }
}
