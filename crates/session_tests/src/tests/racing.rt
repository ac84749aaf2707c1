//! Sessions that race, held by gates so that their calls come in a wanted order.
use super::texts::{Lines, text_of, transcript_of};
use races::{Gate, race_calls};
use script::scripts::read_script;
use spans::Event;
use std::alloc::Global;
use std::sync::Wait;
use std::sync::atomic::Ordering::SeqCst;
use std::sync::atomic::{AtomicBool, AtomicU64};
use std::test::Fail;
use std::thread::{Threads, yield_now};
use text_format::Format;
use trace_check::{Verdict, check};

/// How often a held session looks whether it may go on, giving way between two looks.
const PATIENCE: u64 = 1_000_000;

/// A session, and which of its calls comes next.
pub(super) type Place = (u8, u64);

/// Holds the first two sessions at some places until the other has reached another place.
#[derive(Drop)]
pub(super) struct Holds<'a> {
    /// Who is held, and until which place is reached.
    holds: &'a [(Place, Place)],
    /// One more than the call before which each session stood last.
    first: AtomicU64,
    second: AtomicU64,
    late: AtomicBool,
}

impl<'a> Holds<'a> {
    pub(super) fn new(holds: &'a [(Place, Place)]) -> Holds<'a> {
        Holds {
            holds,
            first: AtomicU64::new(0),
            second: AtomicU64::new(0),
            late: AtomicBool::new(false),
        }
    }

    /// Whether a session went on since it had waited too long.
    pub(super) fn is_late(&self) -> bool {
        self.late.load(SeqCst)
    }

    fn stands(&self, session: u8) -> &AtomicU64 {
        if session == 0 {
            return &self.first;
        }
        &self.second
    }

    /// Waits until the place is reached, but not for ever.
    fn wait_for(&self, place: Place) {
        for _ in 0..PATIENCE {
            if self.stands(place.0).load(SeqCst) > place.1 {
                return;
            }
            yield_now();
        }
        self.late.store(true, SeqCst);
    }
}

impl Gate for Holds<'_> {
    fn pass(&self, seat: u8, call: u64) {
        self.stands(seat).store(call.saturating_add(1), SeqCst);
        for (held, until) in self.holds {
            if *held == (seat, call) {
                self.wait_for(*until);
            }
        }
    }
}

/// The events of a script whose two sessions race.
fn raced<R: Threads + Wait + Sync, G: Gate + Sync>(
    rt: &R,
    alloc: Global,
    script: &[u8],
    gate: &G,
) -> Option<Vec<Event>> {
    let Ok(calls) = read_script(alloc, script, 2, Format::One) else {
        return None;
    };
    race_calls(rt, alloc, 2, 1024, calls, gate).ok()
}

/// The transcript of a script whose sessions race, held so, if it is right and nobody waited in vain.
fn held<R: Threads + Wait + Sync>(
    rt: &R,
    alloc: Global,
    script: &[u8],
    holds: &[(Place, Place)],
) -> Option<Vec<u8>> {
    let gate = Holds::new(holds);
    let events = raced(rt, alloc, script, &gate)?;
    if gate.is_late() || check(alloc, &events).ok()? != Verdict::Yes {
        return None;
    }
    transcript_of(alloc, &events).ok()
}

/// Two sessions, of which each waits for the other's first call.
const BOTH: &[u8] = b"0 stats\n0 stats\n1 stats\n1 stats\n";

const BOTH_BEGIN: &[u8] = b"0 0 stats => stats 0 0 0 0 0\n1 1 stats => stats 0 0 0 0 0\n";

/// A hard closing that comes between a transaction's calls.
const CLOSED: &[u8] = b"0 begin 10\n0 put 10 a 1\n0 commit 10\n1 closehard 20\n";

const CLOSED_ALL: &[u8] = b"0 0 begin 10 => started
1 0 put 10 a 1 => written
2 1 closehard 20 => closed 20 1
3 0 commit 10 => ended
";

#[test]
fn calls_of_sessions_come_in_a_wanted_order(rt: HostRuntime) -> Result<(), Fail> {
    let holds = [((0, 1), (1, 1)), ((1, 0), (0, 1))];
    let both = held(&rt, rt.alloc(), BOTH, &holds).ok_or("no right transcript")?;
    assert!(rt; both.starts_with(BOTH_BEGIN));
    let holds = [((1, 0), (0, 2)), ((0, 2), (1, 1))];
    let closed = held(&rt, rt.alloc(), CLOSED, &holds).ok_or("no right transcript")?;
    assert!(rt; closed.as_slice() == CLOSED_ALL);
    Ok(())
}

/// A feed that is cancelled between its polls.
const CANCELLED: [Lines; 3] = [
    ("1 cancel 1", 0, 1),
    ("0 open - - 0", 0, 1),
    ("0 poll 1 1", 0, 100),
];

const CANCELLED_ALL: [Lines; 4] = [
    ("A 0 open - - 0 => opened 1", 0, 1),
    ("A 0 poll 1 1 => messages 0", 1, 51),
    ("A 1 cancel 1 => cancelled", 51, 52),
    ("A 0 poll 1 1 => feedcancelled", 52, 102),
];

#[test]
fn a_feed_is_cancelled_between_its_polls(rt: HostRuntime) -> Result<(), Fail> {
    let script = text_of(rt.alloc(), &CANCELLED)?;
    let wanted = text_of(rt.alloc(), &CANCELLED_ALL)?;
    let holds = [((1, 0), (0, 51)), ((0, 51), (1, 1))];
    let found = held(&rt, rt.alloc(), script.as_slice(), &holds).ok_or("no right transcript")?;
    assert!(rt; found.as_slice() == wanted.as_slice());
    Ok(())
}
