//! The sessions of a script race.
ghost use Rattle.std.specs.Prelude.{◌≡◌, ◌++◌, IfOk};
ghost use Rattle.jobs.specs.Prelude.{fault_line, header};
ghost use Rattle.jobs.specs.Ends.{IsAnswered, end_of};
ghost use Rattle.jobs.specs.Races.{IsRace};

use crate::ending::End;
use races::{FreshError, Gate, race_calls};
use script::fault::TranscriptError;
use script::scripts::read_script;
use sessions::{ServeEnd, Sink, Source, read_whole, write_transcript, write_whole};
use std::alloc::{AllocError, Global};
use std::sync::Wait;
use std::thread::Threads;
use text_format::Format;
use word_lines::events::write_fault;
use word_lines::fault::LineFault;

/// Who races, and how.
#[derive(Clone, Copy, Debug, PartialEq, Eq)]
pub struct RaceOptions {
    /// How many sessions there are, 1 to 64. The script names them from 0 on.
    pub sessions: u8,
    /// 1 to 65536, without effect.
    pub ring: u32,
    /// In which format the script is read and the transcript written.
    pub format: Format,
}

/// Reads a script whole, has its sessions race on one database, a thread for each, and writes the one
/// transcript of all their calls. Where a line is faulty nothing is called, and its fault is written behind the header.
///
/// Whether it returns is not promised.
pub fn race_io<S: Source, K: Sink, R: Threads + Wait + Sync, G: Gate + Sync>(
    rt: &R,
    alloc: Global,
    options: RaceOptions,
    gate: &G,
    input: &mut S,
    output: &mut K,
) -> End
    ensures { IsAnswered (IsRace options) (S.reads input.old) (S.reads input.new) (K.writes output.old) (K.writes output.new) result }
{
    raced(rt, alloc, options, gate, input, output).unwrap_or_else(End::from)
}

fn raced<S: Source, K: Sink, R: Threads + Wait + Sync, G: Gate + Sync>(
    rt: &R,
    alloc: Global,
    options: RaceOptions,
    gate: &G,
    input: &mut S,
    output: &mut K,
) -> Result<End, ServeEnd>
    ensures { IsAnswered (IsRace options) (S.reads input.old) (S.reads input.new) (K.writes output.old) (K.writes output.new) (end_of result) }
{
    let text = read_whole(alloc, input)?;
    match read_script(alloc, text.as_slice(), options.sessions, options.format) {
        Ok(calls) => match race_calls(rt, alloc, options.sessions, options.ring, calls, gate) {
            Ok(events) => {
                write_transcript(alloc, output, options.format, events.as_slice())?;
                Ok(End::Done)
            }
            Err(FreshError::Open(reason)) => Ok(End::Open(reason)),
            Err(FreshError::NoMemory) => Ok(End::Memory),
            Err(FreshError::Thread) => Ok(End::Thread),
        },
        Err(TranscriptError::NoMemory) => Ok(End::Memory),
        Err(TranscriptError::Fault { line, fault }) => {
            let text = fault_text(alloc, options.format, line, fault)?;
            write_whole(output, text.as_slice())?;
            Ok(End::Faulty { line, fault })
        }
    }
}

/// The output of a race whose script has a faulty line.
fn fault_text(
    alloc: Global,
    format: Format,
    line: u64,
    fault: LineFault,
) -> Result<Vec<u8>, AllocError>
    ensures { IfOk result (λ text. text.items ≡ header format ++ fault_line line fault) }
{
    let mut text = Vec::new(alloc);
    text.extend_from_slice(format.header())?;
    write_fault(&mut text, line, fault)?;
    Ok(text)
}
