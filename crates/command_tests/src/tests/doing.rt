//! What the jobs of command lines write, and which exit status each leaves.

use super::command_lines::{asked_in, job_of_words, words_in};
use clap::Error;
use command_line::{Input, Job, done, hint_of};
use sessions::{Reading, Writing};
use std::alloc::Global;
use std::process::ExitCode;
use std::sync::Wait;
use std::thread::Threads;

/// Command lines, whose words commas part, each with its input, the text of the file that it names, its output and its
/// exit status.
const JOBS: [(&str, &str, &str, &str, u8); 14] = [
    (
        "mvfeed,run,--first,7",
        "0 begin 10\n",
        "",
        "7 0 begin 10 => started\n",
        0,
    ),
    (
        "mvfeed,run,--format,2",
        "0 jump\n",
        "",
        "mvfeed 2\nfault 1 2 unknowncommand\n",
        2,
    ),
    (
        "mvfeed,run,--first,18446744073709551615",
        "0 stats\n",
        "",
        "spent 1\n",
        1,
    ),
    (
        "mvfeed,race,1",
        "0 begin 10\n",
        "",
        "0 0 begin 10 => started\n",
        0,
    ),
    (
        "mvfeed,race,1",
        "1 begin 10\n",
        "",
        "fault 1 6 session\n",
        2,
    ),
    ("mvfeed,check", "0 0 begin 10 => started\n", "", "yes\n", 0),
    ("mvfeed,check", "0 0 stats => started\n", "", "no 0\n", 3),
    (
        "mvfeed,state,--live",
        "0 0 stats => started\n",
        "",
        "no 0\n",
        3,
    ),
    (
        "mvfeed,dump,--at,9",
        "0 0 close 5 => closed 5 0\n",
        "",
        "0 close 9\n0 collect 0\n",
        0,
    ),
    (
        "mvfeed,follow,--cursor,4",
        "{\"resolved\":\"5\"}\n",
        SEED,
        "resolved 5 0\n",
        0,
    ),
    ("mvfeed,follow,--cursor,4", "", "", "", 0),
    (
        "mvfeed,follow,--seed,FILE,--view,--complete,--feed,1",
        "6 0 poll 2 1 => messages 1\n{\"resolved\":\"30\"}\n7 0 poll 1 1 => messages 1\n{\"resolved\":\"11\"}\n",
        SEED,
        "resolved 11 1\nrow a 1\n",
        0,
    ),
    (
        "mvfeed,follow,--seed,FILE",
        "{\"resolved\":\"11\"}\n",
        "0 0 stats => stats 0 0 0 0 0\n",
        "",
        1,
    ),
    (
        "mvfeed,follow,--seed,FILE",
        "{\"resolved\":\"11\"}\n",
        "0 0 stats\n",
        "",
        1,
    ),
];

/// A transcript whose last scan at a timestamp found a row.
const SEED: &str = "4 0 protect 10 => protected 1\n5 0 scanat 10 - - => rows 1\nrow a 1\n";

#[test]
fn jobs_are_done(rt: HostRuntime) {
    for (words, input, seed, output, status) in JOBS {
        assert!(rt;
            is_done(&rt, rt.alloc(), words, input, seed, output, status) == Some(true),
            "{words}"
        );
    }
}

/// Whether the job that words ask for writes this output, and leaves this status.
fn is_done<R: Threads + Wait + Sync + Eprint>(
    rt: &R,
    alloc: Global,
    words: &str,
    input: &str,
    seed: &str,
    output: &str,
    status: u8,
) -> Option<bool> {
    let job = job_of_words(alloc, words)?;
    let mut text = Vec::new(alloc);
    text.extend_from_slice(seed.as_bytes()).ok()?;
    let mut sink: Vec<u8> = Vec::new(alloc);
    let mut source = Input::new(alloc, Reading::new(input.as_bytes()));
    let left = done(
        rt,
        alloc,
        job,
        text,
        &mut source,
        &mut Writing::new(&mut sink),
    );
    Some(left == ExitCode::from(status) && sink.as_slice() == output.as_bytes())
}

/// Refused command lines, each with its hint, which is none where it is empty.
const HINTS: [(&str, &str); 15] = [
    ("mvfeed,run,first.script", "mvfeed run < FILE"),
    ("mvfeed,run,--seats,2,it", "mvfeed run < FILE"),
    ("mvfeed,run,-", "mvfeed run < FILE"),
    ("mvfeed,race,2,it", "mvfeed race N < FILE"),
    ("mvfeed,race,first.script", "mvfeed race N < FILE"),
    ("mvfeed,race,65", ""),
    ("mvfeed,race,0", ""),
    ("mvfeed,race,-", "mvfeed race N < FILE"),
    ("mvfeed,check,it", "mvfeed check < FILE"),
    ("mvfeed,state,--live,it", "mvfeed state < FILE"),
    ("mvfeed,dump,it", "mvfeed dump < FILE"),
    (
        "mvfeed,follow,--cursor,1,it",
        "mvfeed follow --cursor T < FILE",
    ),
    ("mvfeed,run,--depth,1", ""),
    ("mvfeed,run,--seats,65", ""),
    ("mvfeed,first.script", ""),
];

#[test]
fn files_given_as_words(rt: HostRuntime) {
    for (words, hint) in HINTS {
        assert!(rt; is_hinted(rt.alloc(), words, hint) == Some(true), "{words}");
    }
}

/// Whether words are refused with this hint.
fn is_hinted(alloc: Global, words: &str, hint: &str) -> Option<bool> {
    let words = words_in(alloc, words)?;
    is_hint(alloc, &asked_in(alloc, &words), &words, hint)
}

fn is_hint(
    alloc: Global,
    asked: &Option<Result<Job, Error>>,
    words: &[&str],
    hint: &str,
) -> Option<bool> {
    match asked {
        Some(Err(refused)) => Some(hint_of(alloc, refused, words).unwrap_or("") == hint),
        _ => Some(false),
    }
}

/// The usage line of each command.
const USAGES: [(&str, &str); 6] = [
    ("run", "\nUsage: mvfeed run [OPTIONS] < SCRIPT\n"),
    ("race", "\nUsage: mvfeed race [OPTIONS] <N> < SCRIPT\n"),
    ("check", "\nUsage: mvfeed check [OPTIONS] < TRANSCRIPT\n"),
    ("state", "\nUsage: mvfeed state [OPTIONS] < TRANSCRIPT\n"),
    ("dump", "\nUsage: mvfeed dump [OPTIONS] < TRANSCRIPT\n"),
    (
        "follow",
        "\nUsage: mvfeed follow [OPTIONS] <--cursor <T>|--initial <T>|--seed <FILE>> < MESSAGES\n",
    ),
];

#[test]
fn helps_say_where_input_comes_from(rt: HostRuntime) {
    for (name, usage) in USAGES {
        assert!(rt; is_used(rt.alloc(), name, usage) == Some(true), "{name}");
    }
}

/// Whether the help of a command has this usage line, and names both devices.
fn is_used(alloc: Global, name: &str, usage: &str) -> Option<bool> {
    let words = ["mvfeed", name, "--help"];
    has_usage(alloc, &asked_in(alloc, words.as_slice()), usage)
}

fn has_usage(alloc: Global, asked: &Option<Result<Job, Error>>, usage: &str) -> Option<bool> {
    let Some(Err(help)) = asked else {
        return Some(false);
    };
    let text = format!(in alloc; "{help}").ok()?;
    Some(
        text.contains(usage)
            && text.contains(" from standard input, and writes ")
            && text.contains(" to standard output.\n"),
    )
}
