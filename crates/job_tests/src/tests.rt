//! Runs, races, checks and followers, byte for byte, over readers and writers in memory.

mod cases;
mod changes;
mod closings;
mod devices;
mod dumps;
mod failing_once;
mod feeds;
mod followed;
mod formats;
mod histories;
mod in_time;
mod long;
mod playing;
mod random;
mod states;
mod transactions;
mod unfolding;

use devices::{Sink, Source};
use follow::FollowEnd;
use histories::{history, told_right};
use jobs::{End, RaceOptions};
use long::{
    altered, are_right, followed, is_checked, long_transcript, messages, reads_may_fail,
    writes_may_fail,
};
use playing::{is_live_right, is_played, is_right, is_yes, race, ran, script_of};
use random::{Dice, Shape, script};
use std::test::Fail;
use text_format::Format;
use unfolding::unfolded;

#[test]
fn all_cases(rt: HostRuntime) {
    for cases in [
        cases::FAULTS,
        cases::OPTIONS,
        cases::FAILING,
        cases::RACES,
        cases::VERDICTS,
        cases::WRONG,
        formats::FORMATS,
        followed::NOT_FOLLOWED,
        followed::FOLLOWED,
        followed::CACHES,
        followed::FAILING,
        changes::CHANGES,
        states::STATES,
        states::STATELESS,
        dumps::DUMPS,
    ] {
        for case in cases.split("@ ").skip(1) {
            assert!(rt; is_right(&rt, rt.alloc(), case) == Some(true), "{case}");
        }
    }
}

#[test]
fn all_transcripts(rt: HostRuntime) {
    for transcripts in [
        transactions::TRANSCRIPTS,
        closings::TRANSCRIPTS,
        feeds::TRANSCRIPTS,
    ] {
        for transcript in transcripts.split("@ ").skip(1) {
            assert!(rt;
                is_played(&rt, rt.alloc(), transcript) == Some(true),
                "{transcript}"
            );
        }
    }
}

/// A live state is the whole one without the members `removable` and `untold`, which end their lines.
#[test]
fn live_states(rt: HostRuntime) {
    for case in states::STATES.split("@ ").skip(1) {
        assert!(rt; is_live_right(rt.alloc(), case) == Some(true), "{case}");
    }
}

#[test]
fn devices_fail_after_any_byte(rt: HostRuntime) -> Result<(), Fail> {
    let transcript = unfolded(rt.alloc(), feeds::LAGGING)?;
    let text = std::str::from_utf8(&transcript)?;
    let script = script_of(rt.alloc(), text)?;
    assert!(rt; reads_may_fail(&rt, rt.alloc(), &script, text) == Some(true));
    assert!(rt; writes_may_fail(&rt, rt.alloc(), &script, &transcript));
    Ok(())
}

/// The commands and answers in the transcripts of a few thousand commands of all kinds.
const ANSWERS: &str =
    " => started, => value, => none, => rows, => written, => committed, => aborted, => closed, => protected, => released, => collected, => opened, => messages, => cancelled, => stats, => toolate, => blocked, => belowclosed, => belowhorizon, => gaprange, => notowner,{\"resolved\",{\"after\":null";

#[test]
fn thousands_of_commands_get_all_kinds_of_answers(rt: HostRuntime) -> Result<(), Fail> {
    let shape = Shape {
        seed: 88172645463325252,
        first: 0,
        stride: 1,
    };
    let script = script(rt.alloc(), shape, 8000)?;
    let output = ran(&rt, rt.alloc(), 1024, &script).ok_or("it ends")?;
    assert!(rt; is_yes(rt.alloc(), &output));
    let text = std::str::from_utf8(&output)?;
    assert!(rt; text.contains("\n7999 "));
    for answer in ANSWERS.split(',') {
        assert!(rt; text.contains(answer), "{answer}");
    }
    Ok(())
}

// Close timestamps, some that leave gaps, some far apart, and the last of all.
#[test]
fn timestamps_of_any_shape_are_answered_right(rt: HostRuntime) {
    assert!(rt; are_right(&rt, rt.alloc(), 0, 1) == Some(true));
    assert!(rt; are_right(&rt, rt.alloc(), 1000, 7) == Some(true));
    assert!(rt; are_right(&rt, rt.alloc(), 0, 1099511627776) == Some(true));
    assert!(rt; are_right(&rt, rt.alloc(), 9223372036854775807 - 66, 1) == Some(true));
}

#[test]
fn a_check_of_many_blocks(rt: HostRuntime) -> Result<(), Fail> {
    let transcript = long_transcript(rt.alloc())?;
    for piece in [1, 7, 4096, 65536, usize::MAX] {
        assert!(rt;
            is_checked(
                rt.alloc(),
                &transcript,
                piece,
                None,
                End::No { position: 4000 },
                b"no 4000\n"
            )
        );
        // within a line, behind a whole line, in the second block, and in the place of the end
        for length in [5000, 21, 70000, transcript.len()] {
            assert!(rt;
                is_checked(
                    rt.alloc(),
                    &transcript,
                    piece,
                    Some(length),
                    End::Input,
                    b""
                ),
                "after {length} bytes"
            );
        }
    }
    Ok(())
}

#[test]
fn rows_of_many_blocks(rt: HostRuntime) -> Result<(), Fail> {
    let text = messages(rt.alloc(), 4000, 20)?;
    let (end, output) = followed(rt.alloc(), &text, None);
    assert!(rt; end == FollowEnd::Done);
    let newlines = output.iter().filter(|b| **b == b'\n').count();
    assert!(rt; newlines == 80020);
    // the write of the second block fails
    let (end, output) = followed(rt.alloc(), &text, Some(70000));
    assert!(rt; end == FollowEnd::Output && output.len() == 70000);
    Ok(())
}

/// A message that was altered on the way is found by a check of the whole transcript.
#[test]
fn an_altered_message_is_found(rt: HostRuntime) {
    match altered(&rt, rt.alloc()) {
        Some(told) => assert!(rt; told.as_slice() == b"yes\nno 13\n".as_slice()),
        None => assert!(rt; false, "nothing was told"),
    }
}

/// A writer and a reader.
const SCRIPT: &[u8] = b"0 begin 10
0 put 10 a 1
0 commit 10
1 begin 20
1 scan 20 - -
1 commit 20
";

#[test]
fn a_transcript_of_a_race_is_right(rt: HostRuntime) {
    let mut sink = Sink::new(rt.alloc());
    let two = RaceOptions {
        sessions: 2,
        ring: 1024,
        format: Format::One,
    };
    let end = race(&rt, rt.alloc(), two, Source::new(SCRIPT), &mut sink);
    assert!(rt; end == End::Done);
    let events = sink.taken.iter().filter(|b| **b == b'>').count();
    assert!(rt; events == 6);
    assert!(rt; is_yes(rt.alloc(), &sink.taken));
}

/// How many histories are drawn.
const HISTORIES: u64 = 5000;

#[test]
fn rows_are_those_of_the_database(rt: HostRuntime) -> Result<(), Fail> {
    let mut dice = Dice::new(88172645463325252);
    let mut bytes = 0u64;
    for _ in 0..HISTORIES {
        let script = history(rt.alloc(), &mut dice)?;
        let told = told_right(&rt, rt.alloc(), &script);
        assert!(rt; told.is_some());
        bytes = bytes.saturating_add(told.unwrap_or(0));
    }
    // much was resolved, and with rows
    assert!(rt; bytes > HISTORIES * 100, "{bytes}");
    Ok(())
}
