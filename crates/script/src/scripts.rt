//! Scripts: the lines of commands, one after the other.
//!
//! ```text
//! 1  0 begin 10
//! 2  1 get 10 a
//! 3  4 get 10 a                  session at line 3, where there are 4 seats
//! ```
//!
//! A script is read whole, up to its first faulty line, and room is made call by call: none before a call was read,
//! unless the first line has a key, a value or a bound of more than 24 bytes.
ghost use Rattle.std.specs.Prelude.{◌≡◌, IfOk, IfErr};
ghost use Rattle.std.specs.List.{All};
ghost use Rattle.script.specs.Prelude.{WantsMemory, byte_words_at, command_at, table};
ghost use Rattle.script.specs.Scripts.{IsCall, ScriptWants, TellsScript, script_text, script_at};
ghost use Rattle.script.specs.Transcripts.{Tells, at_line};
ghost use Rattle.script.specs.declared.fault.TranscriptError.TheVariants.{NoMemory};

use crate::fault::{Taken, TranscriptError};
use crate::lines::Lines;
use spans::Cmd;
use std::alloc::Global;
use text_format::Format;
use word_lines::commands::read_command;

/// Reads a script of a format, which has no header: the session, below `seats`, and the command of each line, or the
/// first line that is faulty. Lines are counted from 1, and the last one has to end in a newline too. Memory is wanted
/// only where there is a call to keep, or where the first line has a key, a value or a bound of more than 24 bytes.
pub fn read_script(
    alloc: Global,
    text: &[u8],
    seats: u8,
    format: Format,
) -> Result<Vec<(u8, Cmd)>, TranscriptError>
    // What is read is the text of these commands, byte for byte.
    ensures found { IfOk result (λ calls. (text.now ≡ script_text calls.items) × All (IsCall format seats) calls.items) }
    // Which fault it is, and in which line: the first from the top and from the left.
    ensures exact { TellsScript (λ calls. calls.items) result (script_at format seats text.now) }
    // Memory is wanted only where there is a call to keep, or for a long key, value or bound of the first line.
    ensures memory { IfErr result (λ e. e ≡ NoMemory → ScriptWants format seats text.now) }
{
    let mut lines = Lines::below(text, 0);
    let mut calls = Vec::new(alloc);
    loop {
        let number = lines.number();
        let Some(line) = lines.take_line() else {
            return Ok(calls);
        };
        let call = read_call(alloc, number, line, seats, format)?;
        calls.push(call)?;
    }
}

/// Reads the line of this number.
fn read_call(alloc: Global, number: u64, line: &[u8], seats: u8, format: Format) -> Taken<(u8, Cmd)>
    ensures exact { Tells (λ x. x) result (at_line number (command_at format table seats line.now)) }
    ensures memory { IfErr result (λ e. e ≡ NoMemory → WantsMemory (byte_words_at format table seats line.now)) }
{
    read_command(alloc, line, seats, format).map_err(|e| TranscriptError::at_line(number, e))
}
