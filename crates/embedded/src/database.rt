//! The database, with the last event that was made.
ghost use Rattle.std.specs.Prelude.{◌≡◌, ◌<◌, ◌≤◌, List, [], Ok, Some, IfErr, IfOk, OnOk, OnErr};
ghost use Rattle.embedded.specs.Prelude.{Copied, Event, Two, WantsMemory, byte_words_at, command_at, command_line, table};
ghost use Rattle.embedded.specs.declared.database.CallError.TheVariants.{NoMemory};
ghost use Rattle.embedded.specs.Embedded.{StandsFor, HasLast, IsLastLine, IsNoReadError, IsReadError, IsWritten, IsUnwritten, Called, last_of, kept_text};

use engine::Engine;
use json_lines::buffer::copy_front;
use spans::limits::MAX_SEATS;
use spans::{Cmd, Event};
use std::alloc::{AllocError, Global};
use text_format::Format;
use word_lines::commands::read_command;
use word_lines::events::{write_echo, write_event};
use word_lines::fault::{LineFault, ReadError};

/// A database with the last event that it made.
pub struct Database {
    pub(crate) alloc: Global,
    pub(crate) engine: Engine,
    pub(crate) last: Option<Event>,
    /// The last event's text, empty until it is written.
    pub(crate) text: Vec<u8>,
}

// for the proof, which has no case for each part of it where a database is dropped
impl Drop for Database {
    fn drop(self) {
        let Database {
            alloc: _,
            engine: _,
            last: _,
            text: _,
        } = self;
    }
}

/// Why a call has no text to show.
#[derive(Clone, Copy, Debug)]
pub enum CallError {
    /// The line is faulty, and no call was made.
    Fault(LineFault),
    /// The line ran out of memory, and no call was made.
    NoMemory,
    /// No position is left: the next one would be 18446744073709551615. No call was made.
    Spent,
    /// The call was made, and its text ran out of memory: `Database::write` tries again.
    Unwritten,
}

impl Database {
    /// A database with no event. The length of rings, 1 to 65536, has no effect: feeds have none.
    pub fn new(alloc: Global, ring: u32) -> Database
        requires { (1 ≤ ring) × (ring ≤ 65536) }
        ensures { StandsFor result [] }
    {
        let _ = ring;
        Database {
            alloc,
            engine: Engine::new(alloc),
            last: None,
            text: Vec::new(alloc),
        }
    }

    /// Makes the call of a line, with its newline, by one of 64 seats: a line of format two. After `Fault`, `NoMemory` and
    /// `Spent` all is as it was, the last text too.
    pub fn call(&mut self, line: &[u8]) -> Result<(), CallError>
        ensures called { (h : List Event) → StandsFor self.old h → Called h line.now self.old result self.new }
        // Memory is wanted only for a key, a value or a bound that is a word of more than 24 bytes.
        ensures memory { IfErr result (λ e. e ≡ NoMemory → WantsMemory (byte_words_at Two table 64 line.now)) }
    {
        let (seat, cmd) = self.read(line)?;
        self.call_command(line, seat, cmd)
    }

    /// The seat and the command of a line.
    pub(crate) fn read(&self, line: &[u8]) -> Result<(u8, Cmd), CallError>
        ensures read { IfOk result (λ x. command_at Two table 64 line.now ≡ Ok (x.0, x.1)) }
        ensures spelled { IfOk result (λ x. (line.now ≡ command_line x.0 x.1) × (x.0 < 64)) }
        ensures fault { IfErr result (IsReadError line.now) }
    {
        match read_command(self.alloc, line, MAX_SEATS, Format::Two) {
            Ok(read) => Ok(read),
            Err(ReadError::Fault(fault)) => Err(CallError::Fault(fault)),
            Err(ReadError::NoMemory) => Err(CallError::NoMemory),
        }
    }

    /// Makes the call of a line whose seat and command these are.
    pub(crate) fn call_command(&mut self, line: &[u8], seat: u8, cmd: Cmd) -> Result<(), CallError>
        requires seat { seat < 64 }
        requires read { command_at Two table 64 line.now ≡ Ok (seat, cmd) }
        requires spelled { line.now ≡ command_line seat cmd }
        ensures called { (h : List Event) → StandsFor self.old h → Called h line.now self.old result self.new }
        ensures made { IfErr result IsNoReadError }
    {
        let Ok(()) = self.make(seat, cmd) else {
            return Err(CallError::Spent);
        };
        match self.echo(line) {
            Ok(()) => Ok(()),
            Err(_) => Err(CallError::Unwritten),
        }
    }

    /// Writes the text of the last event, whose command was read from a line, as it stands there.
    fn echo(&mut self, line: &[u8]) -> Result<(), AllocError>
        requires line { IsLastLine self.old line.now }
        requires text { IsUnwritten self.old }
        ensures same { (h : List Event) → StandsFor self.old h → StandsFor self.new h }
        ensures ok { OnOk result (IsWritten self.new) }
        ensures err { OnErr result (IsUnwritten self.new) }
    {
        match &self.last {
            None => Ok(()),
            Some(event) => write_echo(&mut self.text, line, event),
        }
    }

    /// Writes the text of the last event, unless it is written.
    pub fn write(&mut self) -> Result<(), AllocError>
        ensures same { (h : List Event) → StandsFor self.old h → StandsFor self.new h }
        ensures last { last_of self.new ≡ last_of self.old }
        ensures ok { (h : List Event) → StandsFor self.old h → OnOk result (IsWritten self.new) }
        // What is written stays so, and is never refused.
        ensures err { OnErr result (IsUnwritten self.old × IsUnwritten self.new) }
        ensures some { OnErr result (HasLast self.old) }
    {
        if !self.text.is_empty() {
            return Ok(());
        }
        match &self.last {
            None => Ok(()),
            Some(event) => write_event(&mut self.text, event),
        }
    }

    /// Copies the text of the last event as far as there is room, and tells its whole length: 0 where it isn't written,
    /// or no event was made.
    pub fn copy_text(&self, out: &mut [u8]) -> usize
        ensures { Copied (kept_text self.now) out.old out.new result }
    {
        copy_front(self.text.as_slice(), out)
    }
}
