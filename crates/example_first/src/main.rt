//! A program of thirty lines that serves a script: it reads commands from standard input, makes the calls on a
//! database, and writes the transcript, by `sessions` alone. Its status is 0, or 2 where a line is faulty, or 1. No
//! crate depends on this one; the script `try` runs it, because it is compiled in half the time of `mvfeed`.
//!
//! The gate runs it on the text of `examples/first.script`, and it has to write the text of
//! `examples/first.transcript`. (`examples/check` compares the files.) Two transactions share a key there, and a third
//! comes too late:
//!
//! ```text
//! read                  written
//! 0 begin 10            0 0 begin 10 => started
//! 0 put 10 apple 3      1 0 put 10 apple 3 => written
//! ..
//! 1 begin 20            4 1 begin 20 => started
//! 1 get 20 apple        5 1 get 20 apple => value 3           20 has read version 10
//! ..
//! 0 begin 15            7 0 begin 15 => started
//! 0 put 15 apple 4      8 0 put 15 apple 4 => toolate         20 read below 15
//! ```
//!
//! Tests: the gate's run, and the check `try`, outside the gate.
#![tactic(auto)]

use sessions::{Config, Reading, ServeEnd, Writing, serve};
use std::io;
use std::process::ExitCode;
use text_format::Format;

fn main(rt: HostRuntime) -> ExitCode {
    let config = Config {
        seats: 64,
        ring: 1024,
        first: 0,
    };
    let mut source = Reading::new(rt.reader());
    let mut sink = Writing::new(io::writer(&rt));
    match serve(&rt, rt.alloc(), config, Format::One, &mut source, &mut sink) {
        ServeEnd::Done => ExitCode::SUCCESS,
        // The output's last line says which, and why.
        ServeEnd::Fault { .. } => ExitCode::from(2),
        _ => ExitCode::FAILURE,
    }
}
