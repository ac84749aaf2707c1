//! The calls of several lines, one after another, with one text behind another: as many calls as lines, and one crossing
//! from the program's language.
//!
//! ```text
//! lines                         notes                  out
//! 0 begin 10\n                  0, 24 bytes            0 0 begin 10 => started\n
//! 0 put 10 a\n                  1 wordcount, 0 bytes   (the line is faulty, and the next one is taken)
//! 0 put 10 a 1\n                0, 26 bytes            1 0 put 10 a 1 => written\n
//! 0 scan 10 - -\n               25, 0 bytes            (more than 18 bytes of rows, where 18 are let through)
//! ```
ghost use Rattle.std.specs.Prelude.{◌≡◌, ◌<◌, ◌≤◌, ◌⊎◌, List, Ok, false, length, IfOk, OnErr};
ghost use Rattle.embedded.specs.Prelude.{Event, Two, command_at, command_line, effects_of, table};
ghost use Rattle.embedded.specs.Embedded.{StandsFor, kept_text};
ghost use Rattle.embedded.specs.Several.{HaveBeenCalled, IsLookedAt, IsTaken, IsShown, first_line, is_too_long};

use crate::database::{CallError, Database};
use memchr::memchr;
use spans::Cmd;
use std::alloc::AllocError;

const UNSHOWN: u8 = 14;

const TOO_LONG: u8 = 25;

/// The outcome of one line of several.
#[repr(C)]
#[derive(Clone, Copy, Debug)]
pub struct Done {
    /// How many bytes its event's text has, 0 where no call was made or the text ran out of memory.
    pub length: usize,
    /// 0 where its call was made and its text shown; 1 to 9 its fault by its code; 14 where its call was made and its
    /// text not shown; 25 where its answer would be too long, and no call was made.
    pub status: u8,
}

/// How far several lines were taken.
#[repr(C)]
#[derive(Clone, Copy, Debug)]
pub struct Taken {
    /// How many lines.
    pub lines: usize,
    /// How many bytes they have.
    pub bytes: usize,
    /// How many bytes of texts were shown.
    pub length: usize,
}

impl Database {
    /// Makes the calls of lines, one after another, shows their texts one behind another, and notes each line.
    ///
    /// A faulty line is noted, and the next one taken; so is a scan or a poll whose answer would have more than `most`
    /// bytes of rows or messages, where `most` is not the greatest number. One that would be refused is called, and one
    /// that is blocked behind so many bytes of rows is not. No further line is taken where none is left,
    /// where there is no room for a note, behind a call whose text found no room or no memory (`Unwritten`:
    /// [`Database::write`] and [`Database::copy_text`] show it), and before a line that runs out of memory or of
    /// positions.
    pub fn call_lines(
        &mut self,
        lines: &[u8],
        out: &mut [u8],
        notes: &mut [Done],
        most: u64,
    ) -> (Taken, Result<(), CallError>)
        ensures { (h : List Event) → StandsFor self.old h → HaveBeenCalled most h lines.now self.old out.old out.new notes.old notes.new result.0 result.1 self.new }
    {
        let mut taken = Taken {
            lines: 0,
            bytes: 0,
            length: 0,
        };
        while taken.lines < notes.len() && taken.bytes < lines.len() {
            let line = first_line(&lines[taken.bytes..]);
            let done = match self.take_line(line, &mut out[taken.length..], most) {
                Ok(done) => done,
                Err(error) => return (taken, Err(error)),
            };
            notes[taken.lines] = done;
            taken.lines += 1;
            taken.bytes += line.len();
            if done.status == UNSHOWN {
                return (taken, Err(CallError::Unwritten));
            }
            taken.length += done.length;
        }
        (taken, Ok(()))
    }

    /// Makes the call of one line, shows its text, and tells what is noted of it. A line that runs out of memory or of
    /// positions isn't taken, and all is as it was.
    fn take_line(&mut self, line: &[u8], out: &mut [u8], most: u64) -> Result<Done, CallError>
        ensures taken { (h : List Event) → StandsFor self.old h → IsTaken most h line.now self.old out.old out.new result self.new }
        ensures room { IfOk result (λ done. (done.status ≡ 14) ⊎ (done.length ≤ length out.old)) }
    {
        match self.read(line) {
            Ok((seat, cmd)) => self.take_command(line, seat, cmd, out, most),
            Err(CallError::Fault(fault)) => Ok(Done {
                length: 0,
                status: fault.code(),
            }),
            Err(error) => Err(error),
        }
    }

    /// The same of a line whose command was read.
    fn take_command(
        &mut self,
        line: &[u8],
        seat: u8,
        cmd: Cmd,
        out: &mut [u8],
        most: u64,
    ) -> Result<Done, CallError>
        requires seat { seat < 64 }
        requires read { command_at Two table 64 line.now ≡ Ok (seat, cmd) }
        requires spelled { line.now ≡ command_line seat cmd }
        ensures taken { (h : List Event) → StandsFor self.old h → IsTaken most h line.now self.old out.old out.new result self.new }
        ensures room { IfOk result (λ done. (done.status ≡ 14) ⊎ (done.length ≤ length out.old)) }
    {
        // want of a position is told before all else
        if self.is_spent() {
            return Err(CallError::Spent);
        }
        match self.is_too_long(seat, &cmd, most) {
            Err(_) => Err(CallError::NoMemory),
            Ok(true) => Ok(Done {
                length: 0,
                status: TOO_LONG,
            }),
            Ok(false) => match self.call_command(line, seat, cmd) {
                Ok(()) => Ok(self.show(out)),
                Err(CallError::Unwritten) => Ok(Done {
                    length: 0,
                    status: UNSHOWN,
                }),
                Err(error) => Err(error),
            },
        }
    }

    /// Whether the answer to a seat's command would have more than `most` bytes of rows or messages, unless that is the
    /// greatest number. Only a look at messages of the seat's own feed takes memory.
    fn is_too_long(&self, seat: u8, cmd: &Cmd, most: u64) -> Result<bool, AllocError>
        ensures long { (h : List Event) → StandsFor self.now h → IfOk result (λ long. is_too_long (effects_of h) seat most cmd.now ≡ long) }
        ensures memory { (h : List Event) → StandsFor self.now h → OnErr result (IsLookedAt most h seat cmd.now) }
    {
        if most == u64::MAX {
            return Ok(false);
        }
        self.engine.is_long(seat, cmd, most)
    }

    /// Shows the last event's text where there is room for all of it, and tells what is noted of its line.
    fn show(&self, out: &mut [u8]) -> Done
        ensures { IsShown (kept_text self.now) out.old out.new result }
    {
        let length = self.text.len();
        if length > out.len() {
            return Done {
                length,
                status: UNSHOWN,
            };
        }
        Done {
            length: self.copy_text(out),
            status: 0,
        }
    }
}

/// The first line of bytes, with its newline; all of them where there is none.
fn first_line(bytes: &[u8]) -> &[u8]
    ensures line { result.now ≡ first_line bytes.now }
    ensures within { length result.now ≤ length bytes.now }
{
    match memchr(b'\n', bytes) {
        None => bytes,
        Some(at) => &bytes[..=at],
    }
}
