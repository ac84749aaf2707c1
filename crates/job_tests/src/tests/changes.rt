//! What is told of a feed but its rows: changes, completeness between resolved messages, and followers that begin with a
//! seed.

use super::devices::{Sink, Source};
use super::histories::{Opened, history, opened_in, put_told};
use super::playing::{follow, ran};
use super::random::Dice;
use follow::{FollowEnd, FollowFault, FollowOptions, SeedError, Shown, Start, seed_of};
use std::alloc::{AllocError, Global};
use std::collections::BTreeMap;
use std::sync::Wait;
use std::test::Fail;
use text_format::Format;

/// Changes, and completeness, in both formats. A key that was set and deleted since is told as gone.
pub(super) const CHANGES: &str = "@ follow - - cursor 5 - changes
{'after':'MQ==','key':'YQ==','updated':'6'}
{'after':'Mg==','key':'Yg==','updated':'6'}
{'resolved':'6'}
{'resolved':'7'}
{'after':'Mw==','key':'YQ==','updated':'8'}
{'after':null,'key':'Yg==','updated':'8'}
{'after':'NA==','key':'Yw==','updated':'8'}
{'after':null,'key':'Yw==','updated':'9'}
{'resolved':'9'}
= done
resolved 6 2
row a 1
row b 2
resolved 7 2
resolved 9 1
row a 3
gone b
gone c
@ follow - - cursor 5 - no complete
{'after':'MQ==','key':'YQ==','updated':'6'}
{'after':'Mg==','key':'Yg==','updated':'6'}
{'resolved':'6'}
{'resolved':'7'}
{'after':'Mw==','key':'YQ==','updated':'8'}
{'after':null,'key':'Yg==','updated':'8'}
{'after':'NA==','key':'Yw==','updated':'8'}
{'after':null,'key':'Yw==','updated':'9'}
{'resolved':'9'}
= done
complete 5 0
resolved 6 2
resolved 7 2
complete 7 2
complete 8 2
resolved 9 1
@ follow - - cursor 5 - changes complete format 2
{'after':'MQ==','key':'YQ==','updated':'6'}
{'after':'Mg==','key':'Yg==','updated':'6'}
{'resolved':'6'}
{'resolved':'7'}
{'after':'Mw==','key':'YQ==','updated':'8'}
{'after':null,'key':'Yg==','updated':'8'}
{'after':'NA==','key':'Yw==','updated':'8'}
{'after':null,'key':'Yw==','updated':'9'}
{'resolved':'9'}
= done
complete 5 0
resolved 6 2
row a 1
row b 2
resolved 7 2
complete 7 2
complete 8 2
row a 3
gone b
row c 4
resolved 9 1
gone c
@ follow - - cursor 5 - yes complete
{'after':'MQ==','key':'YQ==','updated':'6'}
{'after':'Mg==','key':'Yg==','updated':'6'}
{'resolved':'6'}
{'after':null,'key':'Yg==','updated':'8'}
{'resolved':'9'}
= done
complete 5 0
resolved 6 2
row a 1
row b 2
complete 7 2
row a 1
row b 2
resolved 9 1
row a 1
@ follow - - initial 10 - changes complete
{'after':'MQ==','key':'YQ==','updated':'10'}
{'after':'Mg==','key':'Yg==','updated':'10'}
{'after':'Mw==','key':'YQ==','updated':'12'}
{'resolved':'15'}
= done
complete 11 2
row a 1
row b 2
resolved 15 2
row a 3
@ follow - - cursor 5 - changes
{'after':'','key':'LQ==','updated':'6'}
{'after':null,'key':'JQ==','updated':'7'}
{'resolved':'7'}
= done
resolved 7 1
gone %25
row %2D -
@ follow a c cursor 5 - changes complete
{'after':'MQ==','key':'Yw==','updated':'6'}
= faulty
fault 1 22 outsidespan
@ follow a c cursor 5 - changes complete
{'after':'MQ==','key':'YQ==','updated':'6'}
{'after':'MQ==','key':'YQ==','updated':'6'}
= faulty
complete 5 0
fault 2 21 notafter
@ follow - - cursor 5 - changes complete room 14
{'after':'MQ==','key':'YQ==','updated':'6'}
{'resolved':'6'}
= output
complete 5 0
r$
@ follow - - cursor 5 1 changes
0 0 poll 2 9 => messages 1
{'resolved':'6'}
= nothing
@ follow - - cursor 5 - changes fails 60
{'after':'MQ==','key':'YQ==','updated':'6'}
{'resolved':'6'}
= input
";

/// A script of rows, a scan of them, a feed that goes on from there, and its poll.
const SEEDED: &[u8] = b"0 begin 10
0 put 10 a 1
0 put 10 b 2
0 commit 10
0 close 10
1 scanat 10 a b
1 scanat 10 - -
1 scanat 11 - -
1 open - - 10
0 begin 20
0 del 20 a
0 put 20 c 3
0 commit 20
0 close 25
1 poll 1 10
";

/// How a follower ends that begins with the seed of a text, and what it writes.
fn resumed(
    alloc: Global,
    seed: &[u8],
    feed: Option<u64>,
    shown: Shown,
    input: &[u8],
) -> Option<(FollowEnd, Vec<u8>)> {
    let seed = seed_of(alloc, seed).ok()?;
    let options = FollowOptions {
        span: seed.span,
        start: Start::Seed {
            cursor: seed.cursor,
            rows: seed.rows,
        },
        feed,
        shown,
        complete: false,
        format: Format::One,
    };
    let mut sink = Sink::new(alloc);
    let end = follow(alloc, options, Source::new(input), &mut sink);
    Some((end, sink.taken))
}

/// Whether a follower that begins with a seed ends and tells so.
fn is_resumed(
    alloc: Global,
    seed: &[u8],
    shown: Shown,
    input: &[u8],
    end: FollowEnd,
    told: &[u8],
) -> bool {
    match resumed(alloc, seed, None, shown, input) {
        Some((ended, output)) => ended == end && output.as_slice() == told,
        None => false,
    }
}

#[test]
fn a_feed_goes_on_from_a_seed(rt: HostRuntime) -> Result<(), Fail> {
    let transcript = ran(&rt, rt.alloc(), 1024, SEEDED).ok_or("it ends")?;
    for (shown, told) in [
        (Shown::Count, b"resolved 25 2\n".as_slice()),
        (Shown::Rows, b"resolved 25 2\nrow b 2\nrow c 3\n".as_slice()),
        (
            Shown::Changes,
            b"resolved 25 2\ngone a\nrow c 3\n".as_slice(),
        ),
    ] {
        let (end, output) = resumed(rt.alloc(), &transcript, Some(1), shown, &transcript).ok_or(
            "it has a seed",
        )?;
        assert!(rt; end == FollowEnd::Done && output.as_slice() == told);
    }
    Ok(())
}

#[test]
fn seeds_that_cannot_be(rt: HostRuntime) {
    let input = b"{\"resolved\":\"6\"}\n".as_slice();
    let notafter = FollowEnd::Fault {
        line: 0,
        fault: FollowFault::NotAfter,
    };
    let falling = b"0 0 scanat 5 - - => rows 2\nrow b 1\nrow a 1\n";
    assert!(rt;
        is_resumed(
            rt.alloc(),
            falling,
            Shown::Rows,
            input,
            notafter,
            b"fault 0 21 notafter\n"
        )
    );
    let outside = FollowEnd::Fault {
        line: 0,
        fault: FollowFault::OutsideSpan,
    };
    let beside = b"0 0 scanat 5 a b => rows 1\nrow b 1\n";
    assert!(rt;
        is_resumed(
            rt.alloc(),
            beside,
            Shown::Rows,
            input,
            outside,
            b"fault 0 22 outsidespan\n"
        )
    );
    let within = b"mvfeed 2\n0 0 scanat 5 a b => rows 1\nrow a 1\n";
    assert!(rt;
        is_resumed(
            rt.alloc(),
            within,
            Shown::Rows,
            input,
            FollowEnd::Done,
            b"resolved 6 1\nrow a 1\n"
        )
    );
}

/// The line of a text's fault, or 0 where it has no seed; none where it has one.
fn unseeded(alloc: Global, text: &[u8]) -> Option<u64> {
    match seed_of(alloc, text) {
        Ok(_) => None,
        Err(SeedError::Fault { line, .. }) => Some(line),
        Err(SeedError::NoScan) => Some(0),
        Err(SeedError::NoMemory) => Some(u64::MAX),
    }
}

#[test]
fn texts_without_a_seed(rt: HostRuntime) {
    assert!(rt; unseeded(rt.alloc(), b"") == Some(0));
    assert!(rt; unseeded(rt.alloc(), b"0 0 scanat 5 - - => notclosed 0\n") == Some(0));
    assert!(rt; unseeded(rt.alloc(), b"0 0 scan 5 - - => rows 0\n") == Some(0));
    assert!(rt; unseeded(rt.alloc(), b"0 0 scanat 5 - - => rows 0\n1 0 stats\n") == Some(2));
    assert!(rt; unseeded(rt.alloc(), b"0 0 scanat 5 - - => rows 1\n") == Some(2));
    assert!(rt; unseeded(rt.alloc(), b"0 0 scanat 5 - - => rows 0\n").is_none());
}

/// The rows that a view tells where changes tell this: of each timestamp all of them.
fn built(alloc: Global, changes: &str) -> Result<Vec<u8>, AllocError> {
    let mut rows: BTreeMap<&str, &str> = BTreeMap::new(alloc);
    let mut told = Vec::new(alloc);
    let mut is_begun = false;
    for line in changes.lines() {
        if let Some(row) = line.strip_prefix("row ") {
            let (key, value) = row.split_once(' ').unwrap_or((row, ""));
            rows.insert(key, value)?;
        } else if let Some(key) = line.strip_prefix("gone ") {
            rows.remove(&key);
        } else {
            if is_begun {
                put_all(alloc, &mut told, &rows)?;
            }
            is_begun = true;
            told.extend_from_slice(line.as_bytes())?;
            told.push(b'\n')?;
        }
    }
    put_all(alloc, &mut told, &rows)?;
    Ok(told)
}

fn put_all(
    alloc: Global,
    told: &mut Vec<u8>,
    rows: &BTreeMap<&str, &str>,
) -> Result<(), AllocError> {
    for (key, value) in rows.iter() {
        let line = format!(in alloc; "row {} {}\n", *key, *value)?;
        told.extend_from_slice(line.as_bytes())?;
    }
    Ok(())
}

/// The report of a feed of a transcript.
fn told_of(
    alloc: Global,
    transcript: &str,
    feed: Opened<'_>,
    shown: Shown,
    complete: bool,
) -> Option<Vec<u8>> {
    let mut sink = Sink::new(alloc);
    put_told(&mut sink, alloc, transcript, feed, shown, complete)?;
    Some(sink.taken)
}

/// How much is told of the changes of a script's feeds, if they build the rows that are told of each.
fn builds<R: Wait>(rt: &R, alloc: Global, script: &[u8], complete: bool) -> Option<u64> {
    let output = ran(rt, alloc, 1024, script)?;
    let transcript = std::str::from_utf8(&output).ok()?;
    let mut bytes = 0u64;
    for feed in transcript.lines().filter_map(opened_in) {
        let rows = told_of(alloc, transcript, feed, Shown::Rows, complete)?;
        let changes = told_of(alloc, transcript, feed, Shown::Changes, complete)?;
        let changes = std::str::from_utf8(&changes).ok()?;
        if built(alloc, changes).ok()?.as_slice() != rows.as_slice() {
            return None;
        }
        bytes = bytes.saturating_add(changes.len() as u64);
    }
    Some(bytes)
}

/// How many histories are drawn.
const HISTORIES: u64 = 300;

#[test]
fn changes_build_the_rows(rt: HostRuntime) -> Result<(), Fail> {
    let mut dice = Dice::new(88172645463325252);
    let mut bytes = 0u64;
    for turn in 0..HISTORIES {
        let script = history(rt.alloc(), &mut dice)?;
        let told = builds(&rt, rt.alloc(), &script, turn % 2 == 0);
        assert!(rt; told.is_some());
        bytes = bytes.saturating_add(told.unwrap_or(0));
    }
    // much was told
    assert!(rt; bytes > HISTORIES * 10, "{bytes}");
    Ok(())
}
