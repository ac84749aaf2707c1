//! Seats that wait sleep, which no clause says, and all are woken.
ghost use Rattle.std.specs.Prelude.{◌≡◌, None};
ghost use Rattle.ticket_lock.specs.Seats.{AllNew, IsOf, ticket};

use super::counter::{Counter, Mark, is_busy, last, tick};
use std::alloc::AllocError;
use std::process::Abort;
use std::sync::Wait;
use std::sync::atomic::AtomicU64;
use std::sync::atomic::Ordering::SeqCst;
use std::test::Fail;
use std::thread::{Threads, join, map_vec, sleep, yield_now};
use std::time::{Clock, Duration};
use ticket_lock::{Seat, TicketLock};

/// How often a test looks for something before it gives up.
const PATIENCE: u64 = 20_000_000;

/// For how long seats that have asked for a turn are left alone, so that they sleep.
const MILLISECONDS: u64 = 500;

/// How far the seats of a test are.
#[derive(Drop)]
struct Progress {
    /// How many have begun: the first has its turn, and those behind it ask for theirs.
    begun: AtomicU64,
    /// How many seats behind the first have had all their turns.
    done: AtomicU64,
}

impl Progress {
    fn new() -> Progress {
        Progress {
            begun: AtomicU64::new(0),
            done: AtomicU64::new(0),
        }
    }
}

/// Waits until so many are counted, but not for ever.
fn comes(count: &AtomicU64, wanted: u64) -> bool {
    for _ in 0..PATIENCE {
        if count.load(SeqCst) >= wanted {
            return true;
        }
        yield_now();
    }
    false
}

/// Some turns after the first one, and the last ticket.
fn follow<R: Wait>(
    rt: &R,
    lock: &TicketLock<Counter>,
    mut seat: Seat<Counter>,
    turns: u64,
    progress: &Progress,
) -> Option<u64>
    requires own { IsOf lock.now seat × (ticket seat ≡ None) }
{
    if !comes(&progress.begun, 1) {
        return None;
    }
    progress.begun.fetch_add(1, SeqCst);
    let mut ticket = None;
    for _ in 0..turns {
        ticket = tick(rt, lock, &mut seat);
    }
    progress.done.fetch_add(1, SeqCst);
    ticket
}

/// The seats follow, each in a thread. Their tickets.
fn follow_all<R: Threads + Wait + Sync>(
    rt: &R,
    lock: &TicketLock<Counter>,
    seats: Vec<Seat<Counter>>,
    turns: u64,
    progress: &Progress,
) -> Result<Vec<Option<u64>>, AllocError>
    requires new { AllNew lock.now seats.items }
{
    map_vec(
        rt,
        seats,
        &|seat: Seat<Counter>| -> Option<u64>
            requires { IsOf lock.now seat × (ticket seat ≡ None) }
        { follow(rt, lock, seat, turns, progress) },
    )
}

/// The first turn, which lasts until the seats that follow sleep. Then they have to be woken, and one that nobody wakes
/// ends the test. Before that, one more seat is told that no ticket behind the first is out.
fn lead<R: Wait + Clock + Abort>(
    rt: &R,
    lock: &TicketLock<Counter>,
    mut seat: Seat<Counter>,
    mut asking: Seat<Counter>,
    followers: u64,
    progress: &Progress,
) -> bool
    requires own { IsOf lock.now seat × (ticket seat ≡ None) }
    requires asks { IsOf lock.now asking × (ticket asking ≡ None) }
{
    let Ok(mut held) = lock.turn(rt, &mut seat) else {
        return false;
    };
    held.value.count += 1;
    progress.begun.fetch_add(1, SeqCst);
    let asked = comes(&progress.begun, followers.saturating_add(1));
    sleep(rt, Duration::from_millis(MILLISECONDS));
    let first = held.ticket();
    let busy = is_busy(lock, &mut asking, first, first.saturating_add(1));
    let mark = Mark {
        seat: seat.number(),
    };
    lock.end(&mut seat, held, &mark);
    if !comes(&progress.done, followers) {
        panic!(rt; "a seat had no turn within the limit");
    }
    asked && busy
}

/// The last tickets of all but two of the seats, in their order. These seats sleep during the first turn.
fn woken<R: Threads + Wait + Clock + Abort + Sync>(
    rt: &R,
    lock: &TicketLock<Counter>,
    mut seats: Vec<Seat<Counter>>,
    turns: u64,
) -> Result<Vec<Option<u64>>, Fail>
    requires new { AllNew lock.now seats.items }
{
    let asking = last(rt, lock, &mut seats);
    let leading = last(rt, lock, &mut seats);
    let followers = seats.len() as u64;
    let progress = &Progress::new();
    let (led, tickets) = join(
        rt,
        || -> bool
            requires { (IsOf lock.now leading × (ticket leading ≡ None)) × (IsOf lock.now asking × (ticket asking ≡ None)) }
        { lead(rt, lock, leading, asking, followers, progress) },
        || -> Result<Vec<Option<u64>>, AllocError>
            requires { AllNew lock.now seats.items }
        { follow_all(rt, lock, seats, turns, progress) },
    );
    assert!(rt;
        led,
        "all seats asked, and one more was told that no ticket of theirs is out"
    );
    let mut tickets = tickets?;
    tickets.sort_unstable();
    Ok(tickets)
}

#[test]
fn seats_that_sleep_are_woken(rt: HostRuntime) -> Result<(), Fail> {
    let (lock, seats) = TicketLock::new(rt.alloc(), Counter { count: 0 }, 0, 6)?;
    let tickets = woken(&rt, &lock, seats, 1)?;
    assert_eq!(rt;
        tickets.as_slice(),
        [Some(1), Some(2), Some(3), Some(4)].as_slice()
    );
    Ok(())
}

// One ticket is left behind the first turn.
#[test]
fn seats_that_sleep_are_woken_where_tickets_end(rt: HostRuntime) -> Result<(), Fail> {
    let first = 18446744073709551613;
    let (lock, seats) = TicketLock::new(rt.alloc(), Counter { count: 0 }, first, 6)?;
    let tickets = woken(&rt, &lock, seats, 1)?;
    assert_eq!(rt;
        tickets.as_slice(),
        [None, None, None, Some(18446744073709551614)].as_slice()
    );
    Ok(())
}

#[test]
fn sixty_four_seats_have_all_their_turns(rt: HostRuntime) -> Result<(), Fail> {
    let (lock, seats) = TicketLock::new(rt.alloc(), Counter { count: 0 }, 0, 64)?;
    let tickets = woken(&rt, &lock, seats, 1000)?;
    assert!(rt; tickets.last() == Some(&Some(62_000)));
    Ok(())
}
