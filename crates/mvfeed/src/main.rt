//! `mvfeed`: the database as a program. Text in, transcripts out.
//!
//! ```text
//! $ printf '0 begin 10\n0 put 10 a 1\n0 commit 10\n' | mvfeed run
//! 0 0 begin 10 => started
//! 1 0 put 10 a 1 => written
//! 2 0 commit 10 => committed 1
//! $ printf '0 begin 10\n1 begin 20\n' | mvfeed race 2
//! 0 1 begin 20 => started
//! 1 0 begin 10 => started
//! $ printf '0 0 begin 10 => tsused\n' | mvfeed check
//! no 0
//! $ printf '0 0 begin 10 => started\n' | mvfeed state
//! {"kind":"database","closed":"0","horizon":"0","limit":"0","holder":"closed",..}
//! {"kind":"transaction","timestamp":"10","seat":"0","keys":"0"}
//! $ printf '0 0 begin 10 => started\n' | mvfeed dump
//! 0 close 10
//! 0 collect 0
//! $ printf '{"resolved":"5"}\n' | mvfeed follow --cursor 0
//! resolved 5 0
//! ```
//!
//! What each command does is said by the crate `command_line`, over its options, a source and a sink, with the status and
//! the sentence that it leaves. Here it meets standard input and output, and the file that a command names.
//!
//! Tests: `examples/check`, outside the gate.
#![tactic(auto)]

use command_line::sentences::{MEMORY, NO_SEED_FILE, NO_TEXT};
use command_line::{Input, Job, command, done, hint_of, job_in, status};
use sessions::{Reading, Writing};
use std::env::Env;
use std::fs::Files;
use std::process::ExitCode;
use std::{fs, io};

fn main(rt: HostRuntime) -> ExitCode {
    let words = match words(&rt) {
        Ok(words) => words,
        Err(word) => return status::failed(&rt, word),
    };
    let Ok(command) = command(rt.alloc()) else {
        return status::failed(&rt, MEMORY);
    };
    match job_in(rt.alloc(), command, words.as_slice()) {
        Ok(job) => {
            let Ok(seed) = seed_text(&rt, &job) else {
                return status::failed(&rt, NO_SEED_FILE);
            };
            let mut input = Input::new(rt.alloc(), Reading::new(rt.reader()));
            let mut output = Writing::new(io::writer(&rt));
            done(&rt, rt.alloc(), job, seed, &mut input, &mut output)
        }
        Err(refused) => {
            let hint = hint_of(rt.alloc(), &refused, words.as_slice());
            status::refused(&rt, &refused, hint)
        }
    }
}

/// The text of the file that a job names, or none.
fn seed_text<R: Files + AllocGlobal>(rt: &R, job: &Job) -> io::Result<Vec<u8>> {
    match job {
        Job::FollowSeed(seeded) => fs::read(rt, seeded.file.as_str()),
        _ => Ok(Vec::new(rt.alloc())),
    }
}

/// The words of the command line, or what to say where they can't be had.
fn words<R: Env + AllocGlobal>(rt: &R) -> Result<Vec<String>, &'static str> {
    let words = std::env::args(rt).map_err(|error| match error.kind() {
        io::ErrorKind::InvalidData => NO_TEXT,
        _ => MEMORY,
    })?;
    words.collect(rt.alloc()).map_err(|_| MEMORY)
}
