//! How far scans and polls of an engine find room, and which answers are too long.
use super::running::play;
use engine::Engine;
use script::scripts::read_script;
use spans::Cmd;
use std::alloc::Global;
use text_format::Format;

/// The rows of a transaction have 23, 28 and 19 bytes; b was deleted, so it has none.
pub(super) const OPEN: &str = "2 open - - 0
0 begin 10
0 put 10 a 12345
0 del 10 b
0 put 10 c 1234567890
0 put 10 d 1
1 begin 20
1 put 20 0 x
";

/// Scans, and behind each how many rows and bytes there is room for, and where it ends.
pub(super) const SCANS: (&str, &str) = (
    "0 scan 10 - -
0 scan 10 - -
0 scan 10 - -
0 scan 10 - -
0 scan 10 - -
0 scan 10 b d
0 scan 10 b c
1 scan 20 - -
1 scan 20 - -
1 scan 20 - a
",
    "9 70 -
9 69 d
2 70 d
0 70 a
9 22 a
0 99 c
0 0 -
1 99 -
0 99 0
9 99 -
",
);

/// Its calls once it is closed: the messages have 23, 18, 28, 19 and 17 bytes.
pub(super) const CLOSED: &str = "2 open - - 0
0 begin 10
0 put 10 a 12345
0 del 10 b
0 put 10 c 1234567890
0 put 10 d 1
0 commit 10
0 close 30
";

/// Polls, and behind each the bytes that there is room for, and how many messages find room. A feed that doesn't live
/// tells none. Of scans at a timestamp as above.
pub(super) const POLLS: (&str, &str) = (
    "2 poll 1 9
2 poll 1 9
2 poll 1 9
2 poll 1 9
2 poll 1 3
2 poll 1 0
2 poll 2 9
0 scanat 10 - -
0 scanat 9 - -
",
    "0 105 9
0 104 4
0 22 0
0 41 2
0 105 3
0 0 0
0 105 0
1 99 c
0 0 -
",
);

/// A closed transaction of three rows with 70 bytes, feeds of seats 2 and 1, one that is undecided, and one that ended.
pub(super) const SEATS: &str = "2 open - - 0
1 open - - 0
0 begin 10
0 put 10 a 12345
0 put 10 c 1234567890
0 put 10 d 1
0 commit 10
0 close 15
1 begin 20
1 put 20 b 12
0 begin 30
0 begin 40
0 abort 40
2 cancel 2
";

/// Commands, and behind each how many bytes are let through, and whether its answer would have more. What is refused is
/// never too long: another seat's transaction or feed, one that ended or never began, what isn't closed. A scan is blocked
/// behind 23 bytes.
pub(super) const LONG: (&str, &str) = (
    "1 scan 20 - -
1 scan 20 - -
0 scan 20 - -
0 scan 30 - -
0 scan 30 - -
0 scan 30 c -
0 scan 10 - -
0 scan 40 - -
0 scan 35 - -
0 scanat 15 - -
0 scanat 15 - -
0 scanat 16 - -
2 poll 1 9
2 poll 1 9
1 poll 1 9
1 poll 2 9
0 poll 3 9
2 get 20 a
",
    "90 no
89 yes
89 no
22 yes
23 no
46 yes
0 no
0 no
0 no
70 no
69 yes
0 no
87 no
86 yes
0 no
0 no
0 no
0 no
",
);

/// A question about a command.
#[derive(Clone, Copy)]
pub(super) enum Asked {
    /// How far it finds room.
    Room,
    /// Whether its answer is too long.
    Long,
}

/// Whether each of these commands is as it says, after a script.
pub(super) fn are_as_told(
    alloc: Global,
    script: &str,
    asked: Asked,
    told: (&str, &str),
) -> Option<bool> {
    let mut engine = Engine::new(alloc);
    match play(alloc, &mut engine, script) {
        Some(()) => are_told_by(alloc, &engine, asked, told),
        None => None,
    }
}

fn are_told_by(alloc: Global, engine: &Engine, asked: Asked, told: (&str, &str)) -> Option<bool> {
    match read_script(alloc, told.0.as_bytes(), 3, Format::One) {
        Ok(calls) => are_rows(engine, asked, &calls, told.1),
        Err(_) => None,
    }
}

fn are_rows(engine: &Engine, asked: Asked, calls: &[(u8, Cmd)], rows: &str) -> Option<bool> {
    let mut count = 0usize;
    for ((seat, cmd), row) in calls.iter().zip(rows.lines()) {
        let is_so = match asked {
            Asked::Room => finds_room(engine, cmd, row)?,
            Asked::Long => is_long_as_told(engine, *seat, cmd, row)?,
        };
        if !is_so {
            return Some(false);
        }
        count = count.saturating_add(1);
    }
    Some(count == calls.len())
}

/// Whether a scan of so many rows is too long, where their bytes are let through.
pub(super) fn is_long_of_rows(alloc: Global, rows: u64) -> Option<bool> {
    is_long_on(alloc, &mut Engine::new(alloc), rows)
}

fn is_long_on(alloc: Global, engine: &mut Engine, rows: u64) -> Option<bool> {
    play(alloc, engine, "0 begin 10\n")?;
    for row in 0..rows {
        put_row(alloc, engine, row)?;
    }
    match read_script(alloc, b"0 scan 10 - -\n".as_slice(), 1, Format::One) {
        Ok(scans) => is_long(engine, scans.first()?),
        Err(_) => None,
    }
}

fn put_row(alloc: Global, engine: &mut Engine, row: u64) -> Option<()> {
    let put = format!(in alloc; "0 put 10 k{row} -\n").ok()?;
    play(alloc, engine, put.as_str())
}

fn is_long(engine: &Engine, call: &(u8, Cmd)) -> Option<bool> {
    engine.is_long(call.0, &call.1, u64::MAX - 1).ok()
}

fn is_long_as_told(engine: &Engine, seat: u8, cmd: &Cmd, row: &str) -> Option<bool> {
    let (most, wanted) = row.split_once(' ')?;
    let long = engine.is_long(seat, cmd, most.parse::<u64>().ok()?).ok()?;
    Some(long == (wanted == "yes"))
}

fn finds_room(engine: &Engine, cmd: &Cmd, row: &str) -> Option<bool> {
    let (rows, rest) = row.split_once(' ')?;
    let (bytes, wanted) = rest.split_once(' ')?;
    let rows = rows.parse::<u64>().ok()?;
    let bytes = bytes.parse::<u64>().ok()?;
    match cmd {
        Cmd::Scan { ts: t, span } | Cmd::ScanAt { t, span } => {
            match engine.scan_end(*t, span, rows, bytes) {
                None => Some(wanted == "-"),
                Some(key) => Some(key.bytes() == wanted.as_bytes()),
            }
        }
        Cmd::Poll { feed, max } => {
            let count = engine.poll_count(*feed, *max, bytes).ok()?;
            Some(wanted.parse::<u64>() == Ok(count))
        }
        _ => None,
    }
}
