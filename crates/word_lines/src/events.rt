//! Events as text, and the lines that can end the output of a run.
ghost use Rattle.std.specs.Prelude.{◌≡◌, ◌+◌, ◌++◌, ◌<◌, vec_len, vec_capacity, OnOk, OnErr};
ghost use Rattle.word_lines.specs.Messages.{Keeps};
ghost use Rattle.word_lines.specs.Events.{command_line, event_text, fault_line, spent_line};

use crate::buffer::or_undo;
use crate::commands::{Written, put_words};
use crate::fault::LineFault;
use crate::numbers::put_number;
use crate::replies::put_reply;
use spans::Event;
use std::alloc::AllocError;

/// With room for so many bytes the line of a fault, and that of spent positions, want no memory.
pub const LAST_LINE: usize = 64;

/// Writes an event at the end: its position, its session and its command, `=>` and its reply, and
/// the lines that follow the reply.
/// After an error it is as it was.
#[tactic(auto, using(crate::proofs::Writing::undone))]
pub fn write_event(out: &mut Vec<u8>, event: &Event) -> Result<(), AllocError>
    ensures ok { OnOk result (out.new.items ≡ out.old.items ++ event_text event.now) }
    ensures err { OnErr result (out.new.items ≡ out.old.items) }
{
    let length_before = out.len();
    let written = put_event(out, event);
    or_undo(out, length_before, written)
}

#[tactic(auto, using(crate::proofs::Writing::keeping))]
fn put_event(out: &mut Vec<u8>, event: &Event) -> Written
    ensures ok { OnOk result (out.new.items ≡ out.old.items ++ event_text event.now) }
    ensures err { OnErr result (Keeps out.old.items out.new.items) }
{
    put_number(out, event.position)?;
    out.push(b' ')?;
    put_number(out, u64::from(event.seat))?;
    put_words(out, &event.cmd)?;
    out.extend_from_slice(b" => ")?;
    put_reply(out, &event.reply)?;
    Ok(())
}

/// Writes an event whose command was read from a line: the line is written as it stands, and not spelled anew.
/// After an error it is as it was.
#[tactic(auto, using(crate::proofs::Writing::undone))]
pub fn write_echo(out: &mut Vec<u8>, line: &[u8], event: &Event) -> Result<(), AllocError>
    requires { line.now ≡ command_line event.now.seat event.now.cmd }
    ensures ok { OnOk result (out.new.items ≡ out.old.items ++ event_text event.now) }
    ensures err { OnErr result (out.new.items ≡ out.old.items) }
{
    let length_before = out.len();
    let written = put_echo(out, line, event);
    or_undo(out, length_before, written)
}

#[tactic(auto, using(crate::proofs::Writing::keeping))]
fn put_echo(out: &mut Vec<u8>, line: &[u8], event: &Event) -> Written
    requires { line.now ≡ command_line event.now.seat event.now.cmd }
    ensures ok { OnOk result (out.new.items ≡ out.old.items ++ event_text event.now) }
    ensures err { OnErr result (Keeps out.old.items out.new.items) }
{
    let text = &line[..line.len() - 1];
    put_number(out, event.position)?;
    out.push(b' ')?;
    out.extend_from_slice(text)?;
    out.extend_from_slice(b" => ")?;
    put_reply(out, &event.reply)?;
    Ok(())
}

/// Writes the line that names a fault and the line where it stands, counted from 1.
/// After an error it is as it was, and then there was no room for [`LAST_LINE`] bytes.
#[tactic(auto, using(crate::proofs::Writing::undone))]
pub fn write_fault(out: &mut Vec<u8>, line: u64, fault: LineFault) -> Result<(), AllocError>
    ensures ok { OnOk result (out.new.items ≡ out.old.items ++ fault_line line fault) }
    ensures err { OnErr result (out.new.items ≡ out.old.items) }
    ensures room { OnErr result (vec_capacity out.old < vec_len out.old + 64) }
{
    let length_before = out.len();
    let written = put_fault(out, line, fault);
    or_undo(out, length_before, written)
}

#[tactic(auto, using(crate::proofs::Writing::keeping))]
fn put_fault(out: &mut Vec<u8>, line: u64, fault: LineFault) -> Written
    ensures ok { OnOk result (out.new.items ≡ out.old.items ++ fault_line line fault) }
    ensures err { OnErr result (Keeps out.old.items out.new.items) }
    ensures room { OnErr result (vec_capacity out.old < vec_len out.old + 64) }
{
    out.extend_from_slice(b"fault ")?;
    put_number(out, line)?;
    out.push(b' ')?;
    put_number(out, u64::from(fault.code()))?;
    out.push(b' ')?;
    out.extend_from_slice(fault.name().as_bytes())?;
    Ok(out.push(b'\n')?)
}

/// Writes the line that says that no position was left for a line's command.
/// After an error it is as it was, and then there was no room for [`LAST_LINE`] bytes.
#[tactic(auto, using(crate::proofs::Writing::undone))]
pub fn write_spent(out: &mut Vec<u8>, line: u64) -> Result<(), AllocError>
    ensures ok { OnOk result (out.new.items ≡ out.old.items ++ spent_line line) }
    ensures err { OnErr result (out.new.items ≡ out.old.items) }
    ensures room { OnErr result (vec_capacity out.old < vec_len out.old + 64) }
{
    let length_before = out.len();
    let written = put_spent(out, line);
    or_undo(out, length_before, written)
}

#[tactic(auto, using(crate::proofs::Writing::keeping))]
fn put_spent(out: &mut Vec<u8>, line: u64) -> Written
    ensures ok { OnOk result (out.new.items ≡ out.old.items ++ spent_line line) }
    ensures err { OnErr result (Keeps out.old.items out.new.items) }
    ensures room { OnErr result (vec_capacity out.old < vec_len out.old + 64) }
{
    out.extend_from_slice(b"spent ")?;
    put_number(out, line)?;
    Ok(out.push(b'\n')?)
}
