//! A replica that is seeded and followed: this program runs a script that makes a snapshot at a closed timestamp, and
//! opens a feed from there. Nothing depends on this crate.
//!
//! The gate runs it on the text of `examples/replica.script`, and it has to write the text of
//! `examples/replica.transcript`. (`examples/check` compares the files.) A protection keeps the snapshot until the feed
//! is open, and the feed tells all later rows:
//!
//! ```text
//! read                  written                                        a consumer's rows
//! 1 scanat 10 - -       5 1 scanat 10 - - => rows 1                    a 1, at 10
//!                       row a 1
//! 1 open - - 10         6 1 open - - 10 => opened 1
//! ..
//! 1 poll 1 100          13 1 poll 1 100 => messages 3
//!                       {"after":null,"key":"YQ==","updated":"20"}     none
//!                       {"after":"Mg==","key":"Yg==","updated":"20"}   b 2
//!                       {"resolved":"25"}                              b 2, at 25
//! ```
//!
//! Tests: the gate's run.
#![tactic(auto)]

use sessions::{Config, Reading, ServeEnd, Writing, serve};
use std::io;
use std::process::ExitCode;
use text_format::Format;

fn main(rt: HostRuntime) -> ExitCode {
    let config = Config {
        seats: 64,
        ring: 1024,
        first: 0,
    };
    let mut source = Reading::new(rt.reader());
    let mut sink = Writing::new(io::writer(&rt));
    match serve(&rt, rt.alloc(), config, Format::One, &mut source, &mut sink) {
        ServeEnd::Done => ExitCode::SUCCESS,
        _ => ExitCode::FAILURE,
    }
}
