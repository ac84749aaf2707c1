//! What standard error is told of lines that should have been others, behind what is wrong with them.

use command_line::{Dialect, Input, hint_at};
use jobs::{DEFAULTS, check_io, run_io};
use sessions::{Reading, Writing};
use std::alloc::Global;
use std::sync::Wait;
use text_format::Format;

/// Scripts, each with the hint for its first faulty line, or for an end without one; an empty text is no hint.
const SCRIPTS: [(&str, &str); 33] = [
    ("", "the input is empty"),
    ("0 begin 10\n", ""),
    ("0 begin 10", ""),
    ("0 begin\n", "begin takes 1 word: TS"),
    ("0 begin 10\n0 get 10\n", "get takes 2 words: TS KEY"),
    (
        "0 put 10 a 10 EUR\n",
        "put takes 3 words: TS KEY VALUE, with %20 for a space",
    ),
    ("0 stats 5\n", "stats takes no word"),
    ("0 scan ten a b\n", "scan takes 3 words: TS LO HI"),
    ("0 begin 010\n", "a number doesn't begin with a zero"),
    ("0 poll 1 007\n", "a number doesn't begin with a zero"),
    ("\n", "no line can be empty"),
    ("# seeds\n0 begin 10\n", "no line can be a comment"),
    ("# né\n", "no line can be a comment"),
    (
        "0 begin  10\n",
        "one space stands between two words, and none at the line's ends",
    ),
    (
        "0 begin 10 \n",
        "one space stands between two words, and none at the line's ends",
    ),
    (
        "0 begin 10\r\n",
        "a line ends in a newline, without a carriage return",
    ),
    (
        "0 begin\t10\n",
        "a byte that isn't printable ASCII is written as % and two digits, as %09 for a tab",
    ),
    (
        "0 get 10 %41\n",
        "a word has %25 for %, %20 for a space, %2D for - alone, and other printable bytes as they are",
    ),
    (
        "0 get 10 -\n",
        "a key has 1 to 64 bytes, a value 1024 at most; with --format 2 a key has 1 to 256, a value 65536 at most",
    ),
    (
        "0 0 begin 10 => started\n",
        "a transcript's line isn't a script's: leave out its position, and `=>` with what follows it",
    ),
    (
        "70 0 begin 10\n",
        "a transcript's line isn't a script's: leave out its position, and `=>` with what follows it",
    ),
    (
        "begin 10\n",
        "a line begins with its session's number, as in `0 begin 10`",
    ),
    (
        "begin\n",
        "a line begins with its session's number, as in `0 begin 10`",
    ),
    (
        "put . a 1\n",
        "only a server's line has no session, and `.` for its timestamp: write both, as in `0 put 10 a 1`",
    ),
    (
        "0 put . a 1\n",
        "only a server's line has `.` for its timestamp: write the number",
    ),
    ("0 get 10 .\n", ""),
    (
        "mvfeed 2\n0 begin 10\n",
        "a script of format two has no first line of its own: leave it out, and ask for --format 2",
    ),
    (
        "64 begin 10\n",
        "a session is a number below how many sessions there are, 64 at most",
    ),
    (
        "x y\n",
        "a session is a number below how many sessions there are, 64 at most",
    ),
    (
        "0\n",
        "a command stands behind the session, as in `0 begin 10`",
    ),
    (
        "0 jump\n",
        "the commands are begin, get, scan, put, del, commit, abort, close, closehard, readat, scanat, protect, release, collect, open, openinitial, openevery, openinitialevery, poll, cancel and stats",
    ),
    (
        "0 BEGIN 10\n",
        "the commands are begin, get, scan, put, del, commit, abort, close, closehard, readat, scanat, protect, release, collect, open, openinitial, openevery, openinitialevery, poll, cancel and stats",
    ),
    (
        "0 openinitialevery - - 1\n",
        "openinitialevery takes 4 words: LO HI CURSOR GAP",
    ),
];

#[test]
fn faulty_scripts_are_told_what_should_stand_there(rt: HostRuntime) {
    for (script, hint) in SCRIPTS {
        assert!(rt;
            is_hinted_in_script(&rt, rt.alloc(), script, hint) == Some(true),
            "{script}"
        );
    }
}

fn is_hinted_in_script<R: Wait>(rt: &R, alloc: Global, script: &str, hint: &str) -> Option<bool> {
    let mut sink: Vec<u8> = Vec::new(alloc);
    let mut output = Writing::new(&mut sink);
    let mut input = Input::new(alloc, Reading::new(script.as_bytes()));
    let end = run_io(rt, alloc, DEFAULTS, Format::One, &mut input, &mut output);
    let told = hint_at(end, &input, Dialect::Script, Format::One);
    Some(told.unwrap_or("") == hint)
}

/// Transcripts, likewise.
const TRANSCRIPTS: [(&str, &str); 14] = [
    ("", ""),
    ("0 0 begin 10 => started\n", ""),
    ("0 0 begin 10 => toolate\n", ""),
    (
        "0 0 begin 10 => started\n1 0 begin\n",
        "a transcript's line goes on with `=>` and the answer, as in `0 0 begin 10 => started`",
    ),
    ("0 0 begin => started\n", "begin takes 1 word: TS"),
    ("0 0 begin ten => started\n", "begin takes 1 word: TS"),
    (
        "0 begin 10\n",
        "a script's line isn't a transcript's: `mvfeed run` makes the transcript of a script",
    ),
    (
        "0 stats\n",
        "a script's line isn't a transcript's: `mvfeed run` makes the transcript of a script",
    ),
    (
        "begin 10 => started\n",
        "a script's line isn't a transcript's: `mvfeed run` makes the transcript of a script",
    ),
    (
        "fault 1 1 wordcount\n",
        "a run ended here, at a line of its script: what stands above is the transcript of those before",
    ),
    (
        "0 0 stats => stats 0 0 0 0 0\nspent 2\n",
        "a run ended here, at a line of its script: what stands above is the transcript of those before",
    ),
    ("# 1\n", "no line can be a comment"),
    (
        "0 0 get 10 - => none\n",
        "a key has 1 to 64 bytes, a value 1024 at most, unless the first line is `mvfeed 2`",
    ),
    (
        "mvfeed 2\n0 0 get 10 - => none\n",
        "a key has 1 to 256 bytes, a value 65536 at most",
    ),
];

#[test]
fn faulty_transcripts_are_told_what_should_stand_there(rt: HostRuntime) {
    for (transcript, hint) in TRANSCRIPTS {
        assert!(rt;
            is_hinted_in_transcript(rt.alloc(), transcript, hint) == Some(true),
            "{transcript}"
        );
    }
}

fn is_hinted_in_transcript(alloc: Global, transcript: &str, hint: &str) -> Option<bool> {
    let mut sink: Vec<u8> = Vec::new(alloc);
    let mut output = Writing::new(&mut sink);
    let mut input = Input::new(alloc, Reading::new(transcript.as_bytes()));
    let end = check_io(alloc, &mut input, &mut output);
    let format = Format::of_transcript(input.beginning());
    let told = hint_at(end, &input, Dialect::Transcript, format);
    Some(told.unwrap_or("") == hint)
}

/// A script whose faulty line stands behind what is kept of an input has no hint.
#[test]
fn lines_far_behind_have_no_hint(rt: HostRuntime) {
    assert!(rt; is_hinted_behind(&rt, rt.alloc(), 1_000, "begin takes 1 word: TS") == Some(true));
    assert!(rt; is_hinted_behind(&rt, rt.alloc(), 1_100, "") == Some(true));
}

/// Whether a short line behind this many lines of a kilobyte has this hint.
fn is_hinted_behind<R: Wait>(rt: &R, alloc: Global, calls: usize, hint: &str) -> Option<bool> {
    let mut script = String::new(alloc);
    for _ in 0..calls {
        script.push_str("0 put 1 a ").ok()?;
        for _ in 0..100 {
            script.push_str("0123456789").ok()?;
        }
        script.push_str("\n").ok()?;
    }
    script.push_str("0 begin\n").ok()?;
    is_hinted_in_script(rt, alloc, script.as_str(), hint)
}
