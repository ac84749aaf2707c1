//! Which row a dump of an engine has still to write.
use super::running::play;
use engine::Engine;
use std::alloc::Global;
use timestamps::{Key, Row};

/// Histories. Behind each `@` stands what happens next, and behind `told` rows of a place, a timestamp through which
/// rows are wanted, and the first row that is then left: its timestamp, its key and its value. `-` is no key, no value
/// and no row.
pub(super) const HISTORIES: [&str; 2] = [COLLECTED, PASSED];

/// Versions die by a collection, and a delete above its horizon doesn't.
const COLLECTED: &str = "@ nothing
told
0 - 99 -
@ 10 writes a and b, 20 writes a and deletes b, 30 deletes a and writes c
0 begin 10
0 put 10 a 1
0 put 10 b 2
0 commit 10
0 begin 20
0 put 20 a 3
0 del 20 b
0 commit 20
0 begin 30
0 put 30 c 4
0 del 30 a
0 commit 30
told
0 - 99 10 a 1
10 a 99 10 b 2
10 b 99 20 a 3
10 - 99 20 a 3
20 a 99 20 b -
20 b 99 30 a -
30 a 99 30 c 4
30 c 99 -
@ the horizon is 20: of what is at or below it only 20 a has no newer version, and a value
0 close 40
0 collect 20
told
0 - 99 20 a 3
0 a 99 20 a 3
10 a 99 20 a 3
10 - 99 20 a 3
19 c 99 20 a 3
20 A 99 20 a 3
20 a 99 30 a -
20 b 99 30 a -
20 - 99 30 a -
29 c 99 30 a -
30 a 99 30 c 4
30 b 99 30 c 4
30 c 99 -
30 - 99 -
99 - 99 -
0 - 0 -
0 - 19 -
0 - 20 20 a 3
20 a 20 -
20 a 29 -
20 a 30 30 a -
30 a 30 30 c 4
30 a 29 -
31 - 30 -
0 - 18446744073709551615 20 a 3
30 - 18446744073709551615 -
18446744073709551615 - 18446744073709551615 -
18446744073709551615 a 0 -
";

/// Versions are undecided, aborted, and above closed.
const PASSED: &str =
    "@ 10, 20 and 40 are committed, 12 is aborted, 15 and 35 are undecided, and closed is 14
0 begin 10
0 put 10 b 1
0 commit 10
1 begin 15
1 put 15 a 2
1 put 15 b 3
2 begin 12
2 put 12 a 4
2 abort 12
0 begin 20
0 put 20 c 5
0 commit 20
0 close 50
2 begin 35
2 put 35 a 6
0 begin 40
0 put 40 b 8
0 put 40 a 7
0 commit 40
told
0 - 99 10 b 1
10 b 99 20 c 5
10 - 99 20 c 5
12 a 99 20 c 5
15 a 99 20 c 5
15 - 99 20 c 5
20 c 99 40 a 7
35 - 99 40 a 7
40 a 99 40 b 8
40 b 99 -
0 - 9 -
0 - 14 10 b 1
10 b 14 -
10 b 19 -
10 b 20 20 c 5
20 c 39 -
20 c 40 40 a 7
40 a 40 40 b 8
@ 15 commits, and 35 is aborted
1 commit 15
2 abort 35
told
10 b 99 15 a 2
15 a 99 15 b 3
15 b 99 20 c 5
10 b 14 -
10 b 15 15 a 2
15 - 99 20 c 5
20 c 99 40 a 7
@ closed is 50 and the horizon 20: of b the version of 10 is dead
0 close 50
0 collect 20
told
0 - 99 15 a 2
15 a 99 15 b 3
15 b 50 20 c 5
20 c 50 40 a 7
40 - 99 -
";

/// Whether each row of a history is told as it says.
pub(super) fn tells(alloc: Global, history: &str) -> Option<bool> {
    tells_on(alloc, &mut Engine::new(alloc), history)
}

fn tells_on(alloc: Global, engine: &mut Engine, history: &str) -> Option<bool> {
    for part in history.split('@').skip(1) {
        let (script, rows) = part.split_once("told\n")?;
        let (_, script) = script.split_once('\n')?;
        play(alloc, engine, script)?;
        for row in rows.lines() {
            if !is_told(alloc, engine, row)? {
                return Some(false);
            }
        }
    }
    Some(true)
}

fn is_told(alloc: Global, engine: &Engine, row: &str) -> Option<bool> {
    let (ts, rest) = row.split_once(' ')?;
    let (key, rest) = rest.split_once(' ')?;
    let (through, wanted) = rest.split_once(' ')?;
    let ts = ts.parse::<u64>().ok()?;
    let through = through.parse::<u64>().ok()?;
    if key == "-" {
        return is_left(alloc, engine, ts, None, through, wanted);
    }
    match Key::new(alloc, key.as_bytes()) {
        Ok(key) => is_left(alloc, engine, ts, Some(&key), through, wanted),
        Err(_) => None,
    }
}

/// Whether the row that is left behind a place through a timestamp is the one that is wanted.
fn is_left(
    alloc: Global,
    engine: &Engine,
    ts: u64,
    key: Option<&Key>,
    through: u64,
    wanted: &str,
) -> Option<bool> {
    match engine.next_left(alloc, ts, key, through) {
        Ok(None) => Some(wanted == "-"),
        Ok(Some(row)) => is_row(&row, wanted),
        Err(_) => None,
    }
}

fn is_row(row: &Row, wanted: &str) -> Option<bool> {
    let (ts, rest) = wanted.split_once(' ')?;
    let (key, value) = rest.split_once(' ')?;
    let is_same = match &row.after {
        None => value == "-",
        Some(after) => after.bytes() == value.as_bytes(),
    };
    Some(ts.parse::<u64>() == Ok(row.ts.get()) && row.key.bytes() == key.as_bytes() && is_same)
}
