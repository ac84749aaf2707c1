//! Drawn histories: at each resolved message the rows that are told are those that a scan of the database finds.

use super::devices::{Sink, Source};
use super::playing::{follow, ran};
use super::random::{Dice, put_form};
use follow::{FollowOptions, Shown, Start, span_of};
use std::alloc::{AllocError, Global};
use std::sync::Wait;
use text_format::Format;

/// The forms of lines: a seat at A and a timestamp at B, one that is about closed at C and one just before it at D, a
/// feed at E, a small number at F, a cursor at G, a gap at H; a key at V, another at W and a value at X, and bounds at
/// Y and Z.
const FORMS: &str =
    "A begin B\nA del B V\nA put B W X\nA commit B,A begin B\nA del B V\nA put B W X\nA commit B,A begin B\nA put B V X\nA put B W X,A begin B\nA put B V X\nA put B W X,A begin B\nA put B V X\nA put B W 2\nA commit B,A begin B\nA put B V X\nA put B W 2\nA commit B,A commit B,A commit B,A commit B,A abort B,1 close C,1 close C,2 closehard C,0 poll E F,0 poll E F,0 poll E F,0 poll E F,opening,opening,rarer";

/// The forms of openings. What a feed tells first is all that its span holds: there is nothing at or below 9.
const OPENINGS: &str =
    "0 openinitial Y Z D,0 openinitial Y Z D,0 open Y Z G,0 openevery Y Z G H,0 openinitialevery Y Z D H";

/// The forms of what is rarer.
const RARER: &str = "1 cancel E,1 poll E 5,0 scanat 9 - -,A scan B - -";

/// A script of feeds of all kinds, whose last lines close and poll. No transaction is at or below 9.
pub(super) fn history(alloc: Global, dice: &mut Dice) -> Result<Vec<u8>, AllocError> {
    let mut script = Vec::new(alloc);
    for turn in 0..60 {
        put_lines(alloc, &mut script, dice, turn)?;
    }
    script.extend_from_slice(
        b"0 closehard 60\n0 poll 1 50\n0 poll 2 50\n0 poll 3 50\n0 poll 4 50\n0 poll 5 50\n0 poll 6 50\n",
    )?;
    Ok(script)
}

/// Puts some lines. Timestamps rise slowly with the turn, and closings stay just below.
fn put_lines(
    alloc: Global,
    script: &mut Vec<u8>,
    dice: &mut Dice,
    turn: u64,
) -> Result<(), AllocError> {
    let ts = (turn / 3).saturating_add(10).saturating_add(dice.below(4));
    let closed = (turn / 3).saturating_add(6).saturating_add(dice.below(5));
    let feed = dice.below(4).saturating_add(1);
    let numbers = [
        ts % 3,
        ts,
        closed,
        closed.saturating_sub(2),
        feed,
        dice.below(5),
        dice.below(10),
        dice.below(4),
    ];
    let words = [
        dice.one_of("a,b,c,%25"),
        dice.one_of("a,ab,%2D"),
        dice.one_of("1,-,%00%FF,%2D"),
        dice.one_of("-,-,a,b,%25"),
        dice.one_of("-,-,c,ac,b"),
    ];
    let mut form = dice.one_of(FORMS);
    if form == "opening" {
        form = dice.one_of(OPENINGS);
    }
    if form == "rarer" {
        form = dice.one_of(RARER);
    }
    put_form(alloc, script, form, &numbers, &words)
}

/// A feed that was opened, in words of its opening.
#[derive(Clone, Copy)]
pub(super) struct Opened<'a> {
    number: &'a str,
    low: &'a str,
    high: &'a str,
    is_initial: bool,
    cursor: u64,
}

impl Opened<'_> {
    /// How its replica starts.
    fn start(&self) -> Start {
        if self.is_initial {
            Start::Initial(self.cursor)
        } else {
            Start::Cursor(self.cursor)
        }
    }
}

/// The feed that a transcript's line opens.
pub(super) fn opened_in(line: &str) -> Option<Opened<'_>> {
    let (call, number) = line.split_once(" => opened ")?;
    let mut words = call.split(' ').skip(2);
    let name = words.next()?;
    let low = words.next()?;
    let high = words.next()?;
    let cursor = words.next()?.parse::<u64>().ok()?;
    Some(Opened {
        number,
        low,
        high,
        is_initial: name.starts_with("openinitial"),
        cursor,
    })
}

/// Adds a scan of the feed's span at each timestamp that its polls resolved, as lines of a script.
fn put_scans(
    alloc: Global,
    script: &mut Vec<u8>,
    transcript: &str,
    feed: Opened<'_>,
) -> Result<(), AllocError> {
    let poll = format!(in alloc; " poll {} ", feed.number)?;
    let mut is_polled = false;
    for line in transcript.lines() {
        if !line.starts_with("{") {
            is_polled = line.contains(poll.as_str());
        }
        if let Some(rest) = line.strip_prefix("{\"resolved\":\"") {
            if is_polled {
                let at = rest.split_once('"').map_or(rest, |parts| parts.0);
                let scan = format!(in alloc; "0 scanat {at} {} {}\n", feed.low, feed.high)?;
                script.extend_from_slice(scan.as_bytes())?;
            }
        }
    }
    Ok(())
}

/// The answers of scans, as they are to be told of a feed.
fn told_by(alloc: Global, answers: &str) -> Result<Vec<u8>, AllocError> {
    let mut told = Vec::new(alloc);
    for line in answers.lines() {
        match line.split_once(" => rows ") {
            Some((call, count)) => {
                let at = call.split(' ').nth(3).unwrap_or("none");
                let line = format!(in alloc; "resolved {at} {count}\n")?;
                told.extend_from_slice(line.as_bytes())?;
            }
            None => {
                told.extend_from_slice(line.as_bytes())?;
                told.push(b'\n')?;
            }
        }
    }
    Ok(told)
}

/// Follows a feed that a transcript opens, and adds what is told.
pub(super) fn put_told(
    sink: &mut Sink,
    alloc: Global,
    transcript: &str,
    feed: Opened<'_>,
    shown: Shown,
    complete: bool,
) -> Option<()> {
    let options = FollowOptions {
        span: span_of(
            alloc,
            feed.low.as_bytes(),
            feed.high.as_bytes(),
            Format::One,
        )
        .ok()?,
        start: feed.start(),
        feed: feed.number.parse::<u64>().ok(),
        shown,
        complete,
        format: Format::One,
    };
    follow(alloc, options, Source::new(transcript.as_bytes()), sink);
    Some(())
}

/// How much is told of the feeds of a script, if it is the rows of the database at each timestamp that a feed resolved,
/// one feed after the other.
pub(super) fn told_right<R: Wait>(rt: &R, alloc: Global, script: &[u8]) -> Option<u64> {
    let output = ran(rt, alloc, 1024, script)?;
    let transcript = std::str::from_utf8(&output).ok()?;
    let mut sink = Sink::new(alloc);
    let mut longer = Vec::from_slice(alloc, script).ok()?;
    for feed in transcript.lines().filter_map(opened_in) {
        put_told(&mut sink, alloc, transcript, feed, Shown::Rows, false)?;
        put_scans(alloc, &mut longer, transcript, feed).ok()?;
    }
    let whole = ran(rt, alloc, 1024, &longer)?;
    let answers = std::str::from_utf8(&whole).ok()?.strip_prefix(transcript)?;
    let wanted = told_by(alloc, answers).ok()?;
    if sink.taken.as_slice() == wanted.as_slice() {
        Some(wanted.len() as u64)
    } else {
        None
    }
}
