//! What a case asks for, done over readers and writers in memory.
use super::devices::{Sink, Source};
use super::unfolding::{Words, unfolded};
use follow::{FollowEnd, FollowOptions, Shown, Start, follow_io, span_of};
use jobs::{DEFAULTS, Detail, End, RaceOptions, check_io, dump_io, race_io, run_io, state_io};
use races::Open;
use sessions::{Config, OpenError, Reading, Writing};
use std::alloc::{AllocError, Global};
use std::sync::Wait;
use std::thread::Threads;
use text_format::Format;
use timestamps::Ts;

/// How what a case asks for ended.
#[derive(Clone, Copy)]
enum Ended {
    Job(End),
    Follower(FollowEnd),
}

/// How many bytes are read and written at once.
const PIECES: [usize; 4] = [1, 7, 4096, usize::MAX];

/// Whether a case ends as it says, and writes what it says.
pub(super) fn is_right<R: Threads + Wait + Sync>(
    rt: &R,
    alloc: Global,
    case: &str,
) -> Option<bool> {
    let (header, rest) = case.split_once('\n')?;
    let (input, rest) = rest.split_once("= ")?;
    let (end, output) = rest.split_once('\n')?;
    let input = unfolded(alloc, input).ok()?;
    let output = unfolded(alloc, output).ok()?;
    for piece in PIECES {
        // what waits of a line is looked through again after each read
        if input.len() > 100_000 && piece < 4096 {
            continue;
        }
        for stuck in [false, true] {
            let source = Source::new(&input)
                .failing_after(behind(header, " fails "))
                .in_pieces_of(piece);
            let mut sink = Sink::new(alloc)
                .with_room(behind(header, " room "), stuck)
                .in_pieces_of(piece);
            let ended = done(rt, alloc, header, source, &mut sink)?;
            if word_of(ended) != end || sink.taken.as_slice() != output.as_slice() {
                return Some(false);
            }
            if !is_told(alloc, ended, &output)? {
                return Some(false);
            }
        }
    }
    Some(true)
}

/// Whether the live state of a case of a whole one is the same, without the counts.
pub(super) fn is_live_right(alloc: Global, case: &str) -> Option<bool> {
    let (_, rest) = case.split_once('\n')?;
    let (input, rest) = rest.split_once("= ")?;
    let (_, whole) = rest.split_once('\n')?;
    let input = unfolded(alloc, input).ok()?;
    let wanted = unfolded(alloc, without_counts(alloc, whole).ok()?.as_str()).ok()?;
    let mut sink = Sink::new(alloc);
    let end = state(alloc, Detail::Live, Source::new(&input), &mut sink);
    Some(end == End::Done && sink.taken.as_slice() == wanted.as_slice())
}

/// The lines of a state, as a case writes it, each without a count at its end.
fn without_counts(alloc: Global, whole: &str) -> Result<String, AllocError> {
    let mut live = String::new(alloc);
    for line in whole.lines() {
        let (members, _) = line
            .split_once(",'removable'")
            .or(line.split_once(",'untold'"))
            .unwrap_or((line.strip_suffix('}').unwrap_or(line), ""));
        live.push_str(members)?;
        live.push_str("}\n")?;
    }
    Ok(live)
}

/// The number behind a word, if there is one.
fn behind(header: &str, word: &str) -> Option<usize> {
    let (_, rest) = header.split_once(word)?;
    Words::new(rest).word().parse::<usize>().ok()
}

/// The word that a case has for an end.
fn word_of(ended: Ended) -> &'static str {
    match ended {
        Ended::Job(end) => word_of_job(end),
        Ended::Follower(FollowEnd::Done) => "done",
        Ended::Follower(FollowEnd::Fault { .. }) => "faulty",
        Ended::Follower(FollowEnd::NoMessages) => "nothing",
        Ended::Follower(FollowEnd::Input) => "input",
        Ended::Follower(FollowEnd::Output) => "output",
        Ended::Follower(_) => "other",
    }
}

fn word_of_job(end: End) -> &'static str {
    match end {
        End::Done | End::Right { .. } => "done",
        End::Faulty { .. } => "faulty",
        End::No { .. } => "no",
        End::Input => "input",
        End::Output => "output",
        End::Open(OpenError::SeatCount) => "seats",
        End::Open(OpenError::RingSize) => "ring",
        End::Spent => "spent",
        _ => "other",
    }
}

/// Whether an output ends with the line that tells what its end tells.
fn is_told(alloc: Global, ended: Ended, output: &[u8]) -> Option<bool> {
    let line = match ended {
        Ended::Job(End::Faulty { line, fault }) => {
            fault_line(alloc, line, fault.code(), fault.name())
        }
        Ended::Follower(FollowEnd::Fault { line, fault }) => {
            fault_line(alloc, line, fault.code(), fault.name())
        }
        Ended::Job(End::No { position }) => format!(in alloc; "no {position}\n"),
        _ => return Some(true),
    };
    Some(output.ends_with(line.ok()?.as_bytes()))
}

fn fault_line(alloc: Global, line: u64, code: u8, name: &str) -> Result<String, AllocError> {
    format!(in alloc; "fault {line} {code} {name}\n")
}

/// How what a header asks for ends.
fn done<R: Threads + Wait + Sync>(
    rt: &R,
    alloc: Global,
    header: &str,
    source: Source<'_>,
    sink: &mut Sink,
) -> Option<Ended> {
    let mut words = Words::new(header);
    let end = match words.word().as_bytes() {
        b"run" => {
            let config = config_of(&mut words)?;
            run(rt, alloc, config, format_of(header), source, sink)
        }
        b"check" => check(alloc, source, sink),
        b"state" => state(alloc, detail_of(&mut words), source, sink),
        b"dump" => dump(alloc, Ts::new(words.number()?), source, sink),
        b"race" => {
            let mut options = race_options_of(&mut words)?;
            options.format = format_of(header);
            race(rt, alloc, options, source, sink)
        }
        b"follow" => {
            let mut options = follow_options_of(alloc, &mut words)?;
            options.format = format_of(header);
            return Some(Ended::Follower(follow(alloc, options, source, sink)));
        }
        _ => {
            let mut played = Sink::new(alloc);
            run(rt, alloc, DEFAULTS, Format::One, source, &mut played);
            let source = Source::new(&played.taken);
            let options = follow_options_of(alloc, &mut words)?;
            return Some(Ended::Follower(follow(alloc, options, source, sink)));
        }
    };
    Some(Ended::Job(end))
}

/// How much of a state a header asks for.
fn detail_of(words: &mut Words<'_>) -> Detail {
    if words.word() == "live" {
        Detail::Live
    } else {
        Detail::Whole
    }
}

/// The format that a header asks for.
fn format_of(header: &str) -> Format {
    match behind(header, " format ") {
        Some(2) => Format::Two,
        _ => Format::One,
    }
}

fn config_of(words: &mut Words<'_>) -> Option<Config> {
    Some(Config {
        seats: u32::try_from(words.number()?).ok()?,
        ring: u32::try_from(words.number()?).ok()?,
        first: words.number()?,
    })
}

fn race_options_of(words: &mut Words<'_>) -> Option<RaceOptions> {
    Some(RaceOptions {
        sessions: u8::try_from(words.number()?).ok()?,
        ring: u32::try_from(words.number()?).ok()?,
        format: Format::One,
    })
}

fn follow_options_of(alloc: Global, words: &mut Words<'_>) -> Option<FollowOptions> {
    let lo = words.word();
    let hi = words.word();
    let is_initial = words.word() == "initial";
    let cursor = words.number()?;
    Some(FollowOptions {
        span: span_of(alloc, lo.as_bytes(), hi.as_bytes(), Format::Two).ok()?,
        start: if is_initial {
            Start::Initial(cursor)
        } else {
            Start::Cursor(cursor)
        },
        feed: words.number(),
        shown: shown_of(words.word()),
        complete: words.word() == "complete",
        format: Format::One,
    })
}

/// How much is told of the rows, by a word.
pub(super) fn shown_of(word: &str) -> Shown {
    match word.as_bytes() {
        b"yes" => Shown::Rows,
        b"changes" => Shown::Changes,
        _ => Shown::Count,
    }
}

/// How a run ends that reads from the one and writes to the other.
pub(super) fn run<R: Wait>(
    rt: &R,
    alloc: Global,
    config: Config,
    format: Format,
    source: Source<'_>,
    sink: &mut Sink,
) -> End {
    let mut input = Reading::new(source);
    let mut output = Writing::new(sink);
    run_io(rt, alloc, config, format, &mut input, &mut output)
}

/// How a check ends that does.
pub(super) fn check(alloc: Global, source: Source<'_>, sink: &mut Sink) -> End {
    let mut input = Reading::new(source);
    let mut output = Writing::new(sink);
    check_io(alloc, &mut input, &mut output)
}

/// How the telling of a state ends that does.
pub(super) fn state(alloc: Global, detail: Detail, source: Source<'_>, sink: &mut Sink) -> End {
    let mut input = Reading::new(source);
    let mut output = Writing::new(sink);
    state_io(alloc, detail, &mut input, &mut output)
}

/// How a dump ends that does.
pub(super) fn dump(alloc: Global, at: Option<Ts>, source: Source<'_>, sink: &mut Sink) -> End {
    let mut input = Reading::new(source);
    let mut output = Writing::new(sink);
    dump_io(alloc, at, &mut input, &mut output)
}

/// How a race ends that does.
pub(super) fn race<R: Threads + Wait + Sync>(
    rt: &R,
    alloc: Global,
    options: RaceOptions,
    source: Source<'_>,
    sink: &mut Sink,
) -> End {
    let mut input = Reading::new(source);
    let mut output = Writing::new(sink);
    race_io(rt, alloc, options, &Open, &mut input, &mut output)
}

/// How a follower ends that does.
pub(super) fn follow(
    alloc: Global,
    options: FollowOptions,
    source: Source<'_>,
    sink: &mut Sink,
) -> FollowEnd {
    let mut input = Reading::new(source);
    let mut output = Writing::new(sink);
    follow_io(alloc, options, &mut input, &mut output)
}

/// The output of a run that reads its whole script.
pub(super) fn ran<R: Wait>(rt: &R, alloc: Global, ring: u32, script: &[u8]) -> Option<Vec<u8>> {
    let mut sink = Sink::new(alloc);
    let config = Config { ring, ..DEFAULTS };
    let end = run(
        rt,
        alloc,
        config,
        Format::One,
        Source::new(script),
        &mut sink,
    );
    if end == End::Done {
        Some(sink.taken)
    } else {
        None
    }
}

/// Whether a check finds a transcript right.
pub(super) fn is_yes(alloc: Global, transcript: &[u8]) -> bool {
    let mut sink = Sink::new(alloc);
    let end = check(alloc, Source::new(transcript), &mut sink);
    matches!(end, End::Right { .. }) && sink.taken.as_slice() == b"yes\n".as_slice()
}

/// Whether a transcript, behind its first line, is what its calls get, whatever `--ring` says, and right.
pub(super) fn is_played<R: Wait>(rt: &R, alloc: Global, text: &str) -> Option<bool> {
    let (_, transcript) = text.split_once('\n')?;
    let script = script_of(alloc, transcript).ok()?;
    let transcript = unfolded(alloc, transcript).ok()?;
    for ring in [1, 65536] {
        if ran(rt, alloc, ring, &script)?.as_slice() != transcript.as_slice() {
            return Some(false);
        }
    }
    Some(is_yes(alloc, &transcript))
}

/// The script whose transcript this is: each line without its position and its answer, but those that
/// follow an answer.
pub(super) fn script_of(alloc: Global, transcript: &str) -> Result<Vec<u8>, AllocError> {
    let mut script = Vec::new(alloc);
    for line in transcript.lines() {
        if let Some((call, _)) = line.split_once(" => ") {
            let (_, call) = call.split_once(' ').unwrap_or(("", call));
            script.extend_from_slice(call.as_bytes())?;
            script.push(b'\n')?;
        }
    }
    Ok(script)
}
