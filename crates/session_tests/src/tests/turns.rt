//! A turn, during which another thread is refused.
ghost use Rattle.std.specs.Prelude.{◌≡◌, None};
ghost use Rattle.ticket_lock.specs.Seats.{IsOf, ticket};

use super::counter::{Counter, Mark, is_busy, last, try_tick};
use std::sync::Wait;
use std::test::Fail;
use std::thread::{Threads, join};
use ticket_lock::{Seat, TicketLock};

/// How many of a thousand calls are refused.
fn refused(lock: &TicketLock<Counter>, mut seat: Seat<Counter>) -> (Seat<Counter>, u64)
    requires own { IsOf lock.now seat × (ticket seat ≡ None) }
    ensures own { IsOf lock.now result.0 × (ticket result.0 ≡ None) }
{
    let mut count = 0u64;
    for _place in 0..1000 {
        if is_busy(lock, &mut seat, 0, 1) {
            count = count.saturating_add(1);
        }
    }
    (seat, count)
}

/// A turn of one seat, during which the other is refused in another thread.
fn refused_meanwhile<R: Threads + Wait + Sync>(
    rt: &R,
    lock: &TicketLock<Counter>,
    seat: &mut Seat<Counter>,
    other: Seat<Counter>,
) -> (Seat<Counter>, u64)
    requires own { IsOf lock.now seat.old × (ticket seat.old ≡ None) }
    requires others { IsOf lock.now other × (ticket other ≡ None) }
    ensures others { IsOf lock.now result.0 × (ticket result.0 ≡ None) }
{
    let Ok(mut held) = lock.turn(rt, seat) else {
        return (other, 0);
    };
    held.value.count += 1;
    let (after, ()) = join(
        rt,
        || -> (Seat<Counter>, u64)
            requires { IsOf lock.now other × (ticket other ≡ None) }
            ensures { IsOf lock.entry.now result.0 × (ticket result.0 ≡ None) }
        { refused(lock, other) },
        || (),
    );
    let mark = Mark {
        seat: seat.number(),
    };
    lock.end(seat, held, &mark);
    after
}

#[test]
fn another_thread_is_refused_until_a_turn_ends(rt: HostRuntime) -> Result<(), Fail> {
    let (lock, mut seats) = TicketLock::new(rt.alloc(), Counter { count: 0 }, 0, 2)?;
    let second = last(&rt, &lock, &mut seats);
    let mut first = last(&rt, &lock, &mut seats);
    let (mut second, count) = refused_meanwhile(&rt, &lock, &mut first, second);
    assert!(rt; count == 1000);
    assert!(rt; try_tick(&lock, &mut second).ok() == Some(1));
    Ok(())
}
