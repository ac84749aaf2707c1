//! What the program's command lines ask for, and what it leaves its caller.

use clap::Error;
use command_line::sentences::{Sentence, sentence_of, sentence_of_follower};
use command_line::status::{status_of, status_of_follower};
use command_line::{Job, Seeded, command, job_in};
use follow::{FollowEnd, FollowFault, FollowOptions, span_of};
use jobs::End;
use sessions::OpenError;
use std::alloc::{AllocError, Global};
use timestamps::Ts;
use word_lines::fault::LineFault;

/// Command lines, whose words commas part, with what each asks for: `run` with its seats, its ring, its first position and
/// its format, `race` with its sessions, its ring and its format, `check`, `state` with how much is told, `dump` with where it closes at least, or `follow` with its
/// bounds, its start, its feed, what is told of the rows and whether completeness is, and its format. Others are refused.
const LINES: &str = "mvfeed,run => run 64 1024 0 One
mvfeed,run,--seats,1 => run 1 1024 0 One
mvfeed,run,--ring,65536 => run 64 65536 0 One
mvfeed,run,--first,18446744073709551615 => run 64 1024 18446744073709551615 One
mvfeed,run,--first=7,--ring=1,--seats=64 => run 64 1 7 One
mvfeed,run,--format,1 => run 64 1024 0 One
mvfeed,run,--seats,2,--format=2 => run 2 1024 0 Two
mvfeed,race,2,--format,2 => race 2 1024 Two
mvfeed,follow,--cursor,0,--format,2 => follow - - Cursor(0) None Count false Two
mvfeed,run,--format,0 => refused
mvfeed,run,--format,3 => refused
mvfeed,run,--format => refused
mvfeed,check,--format,2 => refused
mvfeed => refused
mvfeed,walk => refused
mvfeed,run,it => refused
mvfeed,run,--seats => refused
mvfeed,run,--seats,0 => refused
mvfeed,run,--seats,65 => refused
mvfeed,run,--ring,0 => refused
mvfeed,run,--ring,65537 => refused
mvfeed,run,--first,-1 => refused
mvfeed,run,--first,18446744073709551616 => refused
mvfeed,run,--first,ten => refused
mvfeed,run,--seats,1,--seats,2 => refused
mvfeed,race,2 => race 2 1024 One
mvfeed,race,64,--ring,1 => race 64 1 One
mvfeed,race,0 => refused
mvfeed,race,65 => refused
mvfeed,race,two => refused
mvfeed,race,-1 => refused
mvfeed,race,--ring,1 => refused
mvfeed,race => refused
mvfeed,race,2,3 => refused
mvfeed,race,2,--ring,0 => refused
mvfeed,race,2,--first,1 => refused
mvfeed,check => check None
mvfeed,check,--events,12 => check Some(12)
mvfeed,check,--events,18446744073709551615 => check Some(18446744073709551615)
mvfeed,check,--events => refused
mvfeed,check,--events,-1 => refused
mvfeed,check,--ring,1 => refused
mvfeed,state => state Whole
mvfeed,state,--live => state Live
mvfeed,state,--live,--live => refused
mvfeed,state,--live=yes => refused
mvfeed,state,--format,2 => refused
mvfeed,state,it => refused
mvfeed,--live => refused
mvfeed,dump => dump None
mvfeed,dump,--at,0 => dump None
mvfeed,dump,--at,9223372036854775807 => dump Some(9223372036854775807)
mvfeed,dump,--at,9223372036854775808 => refused
mvfeed,dump,--at => refused
mvfeed,dump,it => refused
mvfeed,follow,--cursor,0 => follow - - Cursor(0) None Count false One
mvfeed,follow,--lo=-a,--hi,%25,--initial,9223372036854775807,--feed,18446744073709551615,--view => follow -a %25 Initial(9223372036854775807) Some(18446744073709551615) Rows false One
mvfeed,follow,--lo,-,--cursor,7 => follow - - Cursor(7) None Count false One
mvfeed,follow => refused
mvfeed,follow,--view => refused
mvfeed,follow,--cursor,1,--initial,1 => refused
mvfeed,follow,--cursor => refused
mvfeed,follow,--cursor,9223372036854775808 => refused
mvfeed,follow,--initial,-1 => refused
mvfeed,follow,--initial,1,--initial,1 => refused
mvfeed,follow,--cursor,1,--feed,one => refused
mvfeed,follow,--cursor,1,--lo, => refused
mvfeed,follow,--cursor,1,--hi,%41 => refused
mvfeed,follow,--cursor,1,--hi,a b => refused
mvfeed,follow,--cursor,0,--changes => follow - - Cursor(0) None Changes false One
mvfeed,follow,--cursor,0,--view,--complete => follow - - Cursor(0) None Rows true One
mvfeed,follow,--initial,3,--complete,--changes,--format,2 => follow - - Initial(3) None Changes true Two
mvfeed,follow,--cursor,0,--view,--changes => refused
mvfeed,follow,--cursor,0,--complete,--complete => refused
mvfeed,follow,--cursor,0,--changes=1 => refused
mvfeed,follow,--seed,s.transcript => seed s.transcript None Count false One
mvfeed,follow,--seed,-,--feed,2,--changes,--complete,--format,2 => seed - Some(2) Changes true Two
mvfeed,follow,--seed => refused
mvfeed,follow,--seed,s,--cursor,1 => refused
mvfeed,follow,--seed,s,--initial,1 => refused
mvfeed,follow,--seed,s,--lo,a => refused
mvfeed,follow,--seed,s,--hi,a => refused
mvfeed,follow,--cursor,1,it => refused";

#[test]
fn command_lines(rt: HostRuntime) {
    for line in LINES.lines() {
        assert!(rt; is_asked(rt.alloc(), line) == Some(true), "{line}");
    }
}

/// Whether a command line asks for what is said of it.
fn is_asked(alloc: Global, line: &str) -> Option<bool> {
    let (words, wanted) = line.split_once(" => ")?;
    is_job(alloc, &job_of_words(alloc, words), wanted)
}

fn is_job(alloc: Global, job: &Option<Job>, wanted: &str) -> Option<bool> {
    match job {
        None => Some(wanted == "refused"),
        Some(Job::Follow(options)) => is_followed(alloc, options, wanted),
        Some(job) => is_text(wanted, text_of(alloc, job)),
    }
}

/// The text of a job, without its bounds.
fn text_of(alloc: Global, job: &Job) -> Result<String, AllocError> {
    match job {
        Job::Run(asked, format) => {
            let (seats, ring, first) = (asked.seats, asked.ring, asked.first);
            format!(in alloc; "run {seats} {ring} {first} {format:?}")
        }
        Job::Race(asked) => {
            let (sessions, ring, format) = (asked.sessions, asked.ring, asked.format);
            format!(in alloc; "race {sessions} {ring} {format:?}")
        }
        Job::Check(events) => format!(in alloc; "check {events:?}"),
        Job::State(detail) => format!(in alloc; "state {detail:?}"),
        Job::Dump(at) => text_of_dump(alloc, at),
        Job::Follow(asked) => text_of_follower(alloc, asked),
        Job::FollowSeed(asked) => text_of_seeded(alloc, asked),
    }
}

fn text_of_dump(alloc: Global, at: &Option<Ts>) -> Result<String, AllocError> {
    match at {
        None => format!(in alloc; "dump None"),
        Some(at) => format!(in alloc; "dump Some({})", at.get()),
    }
}

fn text_of_follower(alloc: Global, asked: &FollowOptions) -> Result<String, AllocError> {
    let (start, feed, shown) = (&asked.start, asked.feed, asked.shown);
    let (complete, format) = (asked.complete, asked.format);
    format!(in alloc; "{start:?} {feed:?} {shown:?} {complete} {format:?}")
}

fn text_of_seeded(alloc: Global, asked: &Seeded) -> Result<String, AllocError> {
    let (file, feed, shown) = (&asked.file, asked.feed, asked.shown);
    let (complete, format) = (asked.complete, asked.format);
    format!(in alloc; "seed {file} {feed:?} {shown:?} {complete} {format:?}")
}

fn is_text(wanted: &str, told: Result<String, AllocError>) -> Option<bool> {
    Some(told.ok()?.as_str() == wanted)
}

pub(super) fn job_of_words(alloc: Global, words: &str) -> Option<Job> {
    asked_in(alloc, &words_in(alloc, words)?)?.ok()
}

/// The answer to words, unless memory is wanted.
pub(super) fn asked_in(alloc: Global, words: &[&str]) -> Option<Result<Job, Error>> {
    match command(alloc) {
        Ok(command) => Some(job_in(alloc, command, words)),
        Err(_) => None,
    }
}

pub(super) fn words_in<'a>(alloc: Global, words: &'a str) -> Option<Vec<&'a str>> {
    let mut list = Vec::new(alloc);
    for word in words.split(',') {
        list.push(word).ok()?;
    }
    Some(list)
}

fn is_followed(alloc: Global, options: &FollowOptions, wanted: &str) -> Option<bool> {
    let (_, bounds) = wanted.split_once(' ')?;
    let (lo, rest) = bounds.split_once(' ')?;
    let (hi, rest) = rest.split_once(' ')?;
    let is_same = is_text(rest, text_of_follower(alloc, options))?;
    Some(is_same && is_between(alloc, options, lo, hi))
}

/// Whether a follower's span has these bounds.
fn is_between(alloc: Global, options: &FollowOptions, lo: &str, hi: &str) -> bool {
    match span_of(alloc, lo.as_bytes(), hi.as_bytes(), options.format) {
        Ok(span) => options.span == span,
        Err(_) => false,
    }
}

/// Each end of a job but those of faulty lines, with its status and its sentence.
const ENDS: [(End, u8, &str); 11] = [
    (End::Done, 0, ""),
    (End::Right { events: 7 }, 0, "events checked: 7"),
    (
        End::No { position: 7 },
        3,
        "the event at position 7 can't be right",
    ),
    (End::Open(OpenError::SeatCount), 1, "seats"),
    (End::Open(OpenError::RingSize), 1, "ring"),
    (End::Open(OpenError::NoMemory), 1, "memory"),
    (End::Input, 1, "input"),
    (End::Output, 1, "output"),
    (End::Memory, 1, "memory"),
    (End::Thread, 1, "thread"),
    (End::Spent, 1, "spent"),
];

/// Each end of a follower but those of faulty lines, with its status and its sentence.
const FOLLOW_ENDS: [(FollowEnd, u8, &str); 6] = [
    (FollowEnd::Done, 0, ""),
    (
        FollowEnd::NoMessages,
        0,
        "the input has no message to follow",
    ),
    (FollowEnd::Input, 1, "input"),
    (FollowEnd::Output, 1, "output"),
    (FollowEnd::Memory, 1, "memory"),
    (FollowEnd::Spent, 1, "spent"),
];

/// Each fault of a script or of a transcript, with its sentence at line 2.
const LINE_FAULTS: [(LineFault, &str); 11] = [
    (
        LineFault::WordCount,
        "line 2 has too few words, too many, or an empty one",
    ),
    (
        LineFault::UnknownCommand,
        "line 2 has a command that there isn't",
    ),
    (LineFault::Number, "line 2 has no number where one belongs"),
    (
        LineFault::KeyLength,
        "line 2 has a key of no bytes, or a key or a bound that is too long",
    ),
    (
        LineFault::ValueLength,
        "line 2 has a value that is too long",
    ),
    (
        LineFault::Session,
        "line 2 has a session that isn't a number below the number of sessions",
    ),
    (LineFault::NoNewline, "line 2 has no newline at its end"),
    (
        LineFault::LineTooLong,
        "line 2 is longer than the format lets it be",
    ),
    (
        LineFault::BadByte,
        "line 2 has a byte outside printable ASCII, or a word that spells no bytes",
    ),
    (LineFault::Reply, "line 2 has no answer behind its `=>`"),
    (
        LineFault::Follow,
        "line 2 isn't what has to follow the answer above it",
    ),
];

/// Each fault of a feed that is followed, with its sentence at the last line that there can be.
const FOLLOW_FAULTS: [(FollowFault, &str); 10] = [
    (FollowFault::NotJson, "line 18446744073709551615 is no JSON"),
    (
        FollowFault::Shape,
        "line 18446744073709551615 isn't written as a message is",
    ),
    (
        FollowFault::Number,
        "line 18446744073709551615 has a timestamp that is no number, or out of range",
    ),
    (
        FollowFault::Base64,
        "line 18446744073709551615 has a key or a value that isn't base64",
    ),
    (
        FollowFault::Length,
        "line 18446744073709551615 has a key of no bytes, or a key or a value that is too long",
    ),
    (
        FollowFault::NoNewline,
        "line 18446744073709551615 has no newline at its end",
    ),
    (
        FollowFault::LineTooLong,
        "line 18446744073709551615 is longer than the format lets it be",
    ),
    (
        FollowFault::NotAfter,
        "line 18446744073709551615 has a row that doesn't come after the messages above it",
    ),
    (
        FollowFault::OutsideSpan,
        "line 18446744073709551615 has a key outside the span",
    ),
    (
        FollowFault::ResolvedBack,
        "line 18446744073709551615 resolves what the messages above it have passed",
    ),
];

#[test]
fn ends(rt: HostRuntime) {
    for (end, status, sentence) in ENDS {
        assert!(rt;
            is_left(rt.alloc(), end, status, sentence) == Some(true),
            "{sentence}"
        );
    }
    for (fault, sentence) in LINE_FAULTS {
        let end = End::Faulty { line: 2, fault };
        assert!(rt;
            is_left(rt.alloc(), end, 2, sentence) == Some(true),
            "{sentence}"
        );
    }
}

#[test]
fn ends_of_followers(rt: HostRuntime) {
    for (end, status, sentence) in FOLLOW_ENDS {
        assert!(rt;
            is_left_by_follower(rt.alloc(), end, status, sentence) == Some(true),
            "{sentence}"
        );
    }
    for (fault, sentence) in FOLLOW_FAULTS {
        let end = FollowEnd::Fault {
            line: u64::MAX,
            fault,
        };
        assert!(rt;
            is_left_by_follower(rt.alloc(), end, 2, sentence) == Some(true),
            "{sentence}"
        );
    }
}

/// Whether an end leaves a status and a sentence, which is none where it is empty.
fn is_left(alloc: Global, end: End, status: u8, wanted: &str) -> Option<bool> {
    Some(status_of(end) == status && is_sentence(alloc, sentence_of(end), wanted)?)
}

fn is_left_by_follower(alloc: Global, end: FollowEnd, status: u8, wanted: &str) -> Option<bool> {
    let sentence = sentence_of_follower(end);
    Some(status_of_follower(end) == status && is_sentence(alloc, sentence, wanted)?)
}

fn is_sentence(alloc: Global, sentence: Option<Sentence>, wanted: &str) -> Option<bool> {
    match sentence {
        None => Some(wanted.is_empty()),
        Some(sentence) => is_text(wanted, format!(in alloc; "{sentence}")),
    }
}

/// Words that ask for help or for the version, with how the text begins, and how it ends.
const TEXTS: [(&str, &str, &str); 9] = [
    (
        "mvfeed,--version",
        "mvfeed 0.1.0\nproved with Rattle of logic ",
        "\n",
    ),
    (
        "mvfeed,-V",
        "mvfeed 0.1.0\nproved with Rattle of logic ",
        "\n",
    ),
    ("mvfeed,help", "A multiversion timestamp database", GUIDE),
    ("mvfeed,--help", "A multiversion timestamp database", GUIDE),
    (
        "mvfeed,run,--help",
        "Make the calls of a script,",
        "\n  2 0 commit 10 => committed 1\n",
    ),
    (
        "mvfeed,race,-h",
        "Make the calls of a script's",
        " | mvfeed check\n  yes\n",
    ),
    (
        "mvfeed,help,check",
        "Say whether a transcript",
        " | mvfeed check\n  no 1\n",
    ),
    (
        "mvfeed,state,--help",
        "Write the state after",
        ",\"seat\":\"3\",\"keys\":\"1\"}\n",
    ),
    (
        "mvfeed,help,follow",
        "Apply a feed's messages",
        "\n  resolved 12 1\n  row a 1\n",
    ),
];

/// How the program's help ends.
const GUIDE: &str = "The guide is docs/GUIDE.md. The help of each command ends with an example.\n";

#[test]
fn help_and_version(rt: HostRuntime) {
    for (words, begin, end) in TEXTS {
        assert!(rt;
            is_printed(rt.alloc(), words, begin, end) == Some(true),
            "{words}"
        );
    }
}

/// Whether words ask for a text that begins so, and ends so.
fn is_printed(alloc: Global, words: &str, begin: &str, end: &str) -> Option<bool> {
    let words = words_in(alloc, words)?;
    is_text_of(alloc, &asked_in(alloc, &words), begin, end)
}

fn is_text_of(
    alloc: Global,
    asked: &Option<Result<Job, Error>>,
    begin: &str,
    end: &str,
) -> Option<bool> {
    let Some(Err(error)) = asked else {
        return Some(false);
    };
    let text = format!(in alloc; "{error}").ok()?;
    Some(error.exit_code() == 0 && text.starts_with(begin) && text.ends_with(end))
}
