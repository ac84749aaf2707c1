//! A script is run.
ghost use Rattle.jobs.specs.Ends.{IsRun};

use crate::ending::End;
use sessions::{Config, Sink, Source, serve};
use spans::limits::MAX_SEATS;
use std::alloc::Global;
use std::sync::Wait;
use text_format::Format;

/// The options of a database where the command line names none.
pub const DEFAULTS: Config = Config {
    seats: MAX_SEATS as u32,
    ring: 1024,
    first: 0,
};

/// Reads a script of a format, makes its calls in order on one database, and writes the transcript. A faulty line
/// ends it with its fault; what was answered before stands.
pub fn run_io<S: Source, K: Sink, T: Wait>(
    rt: &T,
    alloc: Global,
    options: Config,
    format: Format,
    input: &mut S,
    output: &mut K,
) -> End
    ensures { IsRun format options (S.reads input.old) (S.reads input.new) (K.writes output.old) (K.writes output.new) result }
{
    End::from(serve(rt, alloc, options, format, input, output))
}
