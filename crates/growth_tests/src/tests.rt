//! Scripts, a race, a feed and dumps in which a growth may be refused. The script `refused-growths` says of each test
//! how many it refused, so its name says where these came.

mod chains;
mod crowds;
mod dumping;
mod following;
mod growths;
mod made;
mod marks;
mod playing;
mod prepared;
mod racing;
mod scripts;

use chains::{BLOCK_THAT_IS_FULL, LIST_THAT_IS_FULL, READS_OVER_BLOCKS};
use dumping::{dump_history, dump_twice};
use following::follow_twice;
use marks::{LONE_KEYS_IN_A_SCAN, MARKS_THAT_ARE_SWEPT};
use playing::play_twice;
use racing::race_twice;

// It runs out of memory once at most.
#[test]
fn refused_growths_change_nothing(rt: HostRuntime) {
    for case in scripts::TRANSCRIPTS.split("@ ").skip(1) {
        let wanting = play_twice(rt.alloc(), case);
        assert!(rt; matches!(wanting, Some(0 | 1)), "{case}");
    }
}

// A race whose growth was refused leaves nothing, so the next one is whole.
#[test]
fn refused_growths_stop_a_race_at_most(rt: HostRuntime) {
    let wanting = race_twice(&rt, rt.alloc());
    assert!(rt; matches!(wanting, Some(0 | 1)));
}

// A follower whose growth was refused ends behind a beginning of its report, and the next one tells all of it.
#[test]
fn refused_growths_end_a_follower_at_most(rt: HostRuntime) {
    let wanting = follow_twice(rt.alloc());
    assert!(rt; matches!(wanting, Some(0 | 1)));
}

// A dump whose growth was refused writes nothing, and the next one is whole.
#[test]
fn refused_growths_end_a_dump_at_most(rt: HostRuntime) {
    let wanting = dump_twice(rt.alloc());
    assert!(rt; matches!(wanting, Some(0 | 1)));
}

// A dump of many versions and keys, likewise.
#[test]
fn refused_growths_end_a_dump_of_a_history_at_most(rt: HostRuntime) {
    let wanting = dump_history(rt.alloc());
    assert!(rt; matches!(wanting, Some(0 | 1)));
}

#[test]
fn refused_growths_in_the_put_that_turns_a_list_into_blocks(rt: HostRuntime) {
    let wanting = LIST_THAT_IS_FULL.play(rt.alloc());
    assert!(rt; matches!(wanting, Some(0 | 1)));
}

#[test]
fn refused_growths_in_the_put_that_halves_a_block(rt: HostRuntime) {
    let wanting = BLOCK_THAT_IS_FULL.play(rt.alloc());
    assert!(rt; matches!(wanting, Some(0 | 1)));
}

#[test]
fn refused_growths_in_reads_over_blocks(rt: HostRuntime) {
    let wanting = READS_OVER_BLOCKS.play(rt.alloc());
    assert!(rt; matches!(wanting, Some(0 | 1)));
}

#[test]
fn refused_growths_in_a_scan_over_lone_keys(rt: HostRuntime) {
    let wanting = LONE_KEYS_IN_A_SCAN.play(rt.alloc());
    assert!(rt; matches!(wanting, Some(0 | 1)));
}

#[test]
fn refused_growths_in_gets_that_sweep_the_marks(rt: HostRuntime) {
    let wanting = MARKS_THAT_ARE_SWEPT.play(rt.alloc());
    assert!(rt; matches!(wanting, Some(0 | 1)));
}
