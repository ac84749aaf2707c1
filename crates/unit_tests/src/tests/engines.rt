//! A run of calls; what a dump is told; how far looks find room.
mod dumping;
mod rooms;
mod running;

use dumping::{HISTORIES, tells};
use rooms::{Asked, CLOSED, LONG, OPEN, POLLS, SCANS, SEATS, are_as_told, is_long_of_rows};
use running::{FIRST, READER, steps};

#[test]
fn a_run_gives_the_events_of_a_transcript(rt: HostRuntime) {
    assert!(rt; steps(rt.alloc(), READER) == Some(5));
    assert!(rt; steps(rt.alloc(), FIRST) == Some(10));
}

#[test]
fn a_dump_is_told_its_rows_one_by_one(rt: HostRuntime) {
    for history in HISTORIES {
        assert!(rt; tells(rt.alloc(), history) == Some(true), "{history}");
    }
}

#[test]
fn looks_say_how_far_there_is_room(rt: HostRuntime) {
    assert!(rt; are_as_told(rt.alloc(), OPEN, Asked::Room, SCANS) == Some(true));
    assert!(rt; are_as_told(rt.alloc(), CLOSED, Asked::Room, POLLS) == Some(true));
}

#[test]
fn only_what_is_answered_is_too_long(rt: HostRuntime) {
    assert!(rt; are_as_told(rt.alloc(), SEATS, Asked::Long, LONG) == Some(true));
}

#[test]
fn a_scan_of_many_rows_is_too_long(rt: HostRuntime) {
    assert!(rt; is_long_of_rows(rt.alloc(), 32_768) == Some(false));
    assert!(rt; is_long_of_rows(rt.alloc(), 32_769) == Some(true));
}
