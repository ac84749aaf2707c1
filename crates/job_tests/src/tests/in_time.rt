//! Answers leave before a read that may wait: each read looks whether all that was asked so far is answered.
use follow::{FollowEnd, FollowOptions, Shown, Start, follow_io};
use jobs::{DEFAULTS, End, run_io};
use sessions::{Reading, Writing};
use spans::Span;
use std::alloc::Global;
use std::io::{Read, Result, Write};
use std::sync::atomic::Ordering::SeqCst;
use std::sync::atomic::{AtomicBool, AtomicU64};
use std::test::Fail;
use text_format::Format;

/// The bytes of one read, and what has to be written before the next read. A line may come in two pieces.
type Turn = (&'static str, &'static str);

const RUN: &[Turn] = &[
    ("0 begin 10\n", "0 0 begin 10 => started\n"),
    ("0 put 10 a", ""),
    (" 1\n", "1 0 put 10 a 1 => written\n"),
    (
        "0 commit 10\n0 close 10\n1 be",
        "2 0 commit 10 => committed 1\n3 0 close 10 => closed 10 0\n",
    ),
    ("gin 20\n", "4 1 begin 20 => started\n"),
    ("1 scan 20 - -\n", "5 1 scan 20 - - => rows 1\nrow a 1\n"),
];

const FOLLOW: &[Turn] = &[
    ("{\"resolved\":\"5\"}\n", "resolved 5 0\n"),
    (
        "{\"after\":\"MQ==\",\"key\":\"YQ==\",\"updated\":\"6\"}\n",
        "",
    ),
    ("{\"resolved\":", ""),
    ("\"6\"}\n", "resolved 6 1\nrow a 1\n"),
    ("passed over\n", ""),
    (
        "{\"resolved\":\"7\"}\n{\"resolved\":\"8\"}\n{",
        "resolved 7 1\nrow a 1\nresolved 8 1\nrow a 1\n",
    ),
    ("\"resolved\":\"9\"}\n", "resolved 9 1\nrow a 1\n"),
];

/// How many bytes were written, and whether each read found as many as were owed.
#[derive(Drop)]
struct Progress {
    written: AtomicU64,
    is_late: AtomicBool,
}

/// Gives the turns, one a read.
#[derive(Drop)]
struct Asking<'a> {
    turns: &'a [Turn],
    next: usize,
    owed: u64,
    progress: &'a Progress,
}

impl Read for Asking<'_> {
    fn read(&mut self, buf: &mut [u8]) -> Result<usize> {
        if self.progress.written.load(SeqCst) != self.owed {
            self.progress.is_late.store(true, SeqCst);
        }
        let turns = self.turns;
        let Some((asked, answer)) = turns.get(self.next) else {
            return Ok(0);
        };
        self.next = self.next.saturating_add(1);
        self.owed = self.owed.saturating_add(answer.len() as u64);
        let count = asked.len().min(buf.len());
        buf[..count].copy_from_slice(&asked.as_bytes()[..count]);
        Ok(count)
    }
}

/// Takes all bytes.
#[derive(Drop)]
struct Answers<'a> {
    taken: Vec<u8>,
    progress: &'a Progress,
}

impl Write for Answers<'_> {
    fn write(&mut self, buf: &[u8]) -> Result<usize> {
        self.taken.extend_from_slice(buf)?;
        self.progress.written.fetch_add(buf.len() as u64, SeqCst);
        Ok(buf.len())
    }

    fn flush(&mut self) -> Result<()> {
        Ok(())
    }
}

/// A reader of turns and a writer of their answers, behind an opening that no turn asks for.
fn devices<'a>(
    alloc: Global,
    turns: &'a [Turn],
    opening: &str,
    progress: &'a Progress,
) -> (Reading<Asking<'a>>, Writing<Answers<'a>>) {
    let asking = Asking {
        turns,
        next: 0,
        owed: opening.len() as u64,
        progress,
    };
    let answers = Answers {
        taken: Vec::new(alloc),
        progress,
    };
    (Reading::new(asking), Writing::new(answers))
}

/// Whether the answers are the opening and those of the turns, none of them late.
fn are_in_time(answers: &Answers<'_>, turns: &[Turn], opening: &str) -> bool {
    let Some(mut rest) = answers.taken.as_slice().strip_prefix(opening.as_bytes()) else {
        return false;
    };
    for (_, answer) in turns {
        match rest.strip_prefix(answer.as_bytes()) {
            Some(behind) => rest = behind,
            None => return false,
        }
    }
    rest.is_empty() && !answers.progress.is_late.load(SeqCst)
}

impl Progress {
    fn new() -> Progress {
        Progress {
            written: AtomicU64::new(0),
            is_late: AtomicBool::new(false),
        }
    }
}

#[test]
fn a_run_answers_before_it_reads(rt: HostRuntime) {
    for (format, opening) in [(Format::One, ""), (Format::Two, "mvfeed 2\n")] {
        let progress = Progress::new();
        let (mut input, mut output) = devices(rt.alloc(), RUN, opening, &progress);
        let end = run_io(&rt, rt.alloc(), DEFAULTS, format, &mut input, &mut output);
        assert!(rt; end == End::Done);
        assert!(rt; are_in_time(&output.writer, RUN, opening), "{opening}");
    }
}

#[test]
fn a_follower_tells_before_it_reads(rt: HostRuntime) {
    let progress = Progress::new();
    let (mut input, mut output) = devices(rt.alloc(), FOLLOW, "", &progress);
    let options = FollowOptions {
        span: Span { lo: None, hi: None },
        start: Start::Cursor(0),
        feed: None,
        shown: Shown::Rows,
        complete: false,
        format: Format::One,
    };
    let end = follow_io(rt.alloc(), options, &mut input, &mut output);
    assert!(rt; end == FollowEnd::Done);
    assert!(rt; are_in_time(&output.writer, FOLLOW, ""));
}
