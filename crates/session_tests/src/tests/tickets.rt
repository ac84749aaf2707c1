//! Turns and their tickets: who is refused meanwhile, the floor, and the last ticket.
ghost use Rattle.std.specs.Prelude.{◌≡◌, None};
ghost use Rattle.ticket_lock.specs.Seats.{IsOf, ticket};

use super::counter::{Counter, Mark, is_busy, last, tick, try_tick};
use std::sync::Wait;
use std::test::Fail;
use ticket_lock::{Denied, Seat, TicketLock};

/// A turn that raises the floor to 1, in which another seat is refused and sees the floor.
fn raises<R: Wait>(
    rt: &R,
    lock: &TicketLock<Counter>,
    seat: &mut Seat<Counter>,
    other: &mut Seat<Counter>,
) -> bool
    requires own { IsOf lock.now seat.old × (ticket seat.old ≡ None) }
    requires others { IsOf lock.now other.old × (ticket other.old ≡ None) }
    ensures own { IsOf lock.now seat.new × (ticket seat.new ≡ None) }
    ensures others { IsOf lock.now other.new × (ticket other.new ≡ None) }
{
    let Ok(mut held) = lock.turn(rt, seat) else {
        return false;
    };
    held.value.count += 1;
    lock.raise_floor(seat, &held);
    let busy = is_busy(lock, other, 5, 6) && is_busy(lock, other, 5, 6);
    let floor = lock.floor(other);
    let mark = Mark {
        seat: seat.number(),
    };
    lock.end(seat, held, &mark);
    busy && floor == 1
}

#[test]
fn a_seat_has_its_turns(rt: HostRuntime) -> Result<(), Fail> {
    let (lock, mut seats) = TicketLock::new(rt.alloc(), Counter { count: 0 }, 5, 2)?;
    let mut second = last(&rt, &lock, &mut seats);
    let mut first = last(&rt, &lock, &mut seats);
    assert!(rt; first.number() == 0 && second.number() == 1 && seats.is_empty());
    assert!(rt; lock.floor(&mut second) == 0);
    assert!(rt; raises(&rt, &lock, &mut first, &mut second));
    assert!(rt; tick(&rt, &lock, &mut first) == Some(6));
    assert!(rt; try_tick(&lock, &mut second).ok() == Some(7));
    lock.meet(&mut first, &mut second);
    let mut back = Vec::new(rt.alloc());
    back.push(second)?;
    let Err(missing) = lock.finish(back) else {
        panic!(rt; "a seat was missing");
    };
    let mut back = missing.seats;
    back.push(first)?;
    let Ok(counter) = missing.lock.finish(back) else {
        panic!(rt; "all seats were there");
    };
    assert!(rt; counter.count == 3);
    Ok(())
}

// What is left of the tickets is one.
#[test]
fn tickets_are_used_up(rt: HostRuntime) -> Result<(), Fail> {
    let first = 18446744073709551614;
    let (lock, mut seats) = TicketLock::new(rt.alloc(), Counter { count: 0 }, first, 1)?;
    let mut seat = last(&rt, &lock, &mut seats);
    assert!(rt; tick(&rt, &lock, &mut seat) == Some(first));
    assert!(rt; tick(&rt, &lock, &mut seat).is_none());
    assert!(rt; tick(&rt, &lock, &mut seat).is_none());
    assert!(rt; matches!(try_tick(&lock, &mut seat), Err(Denied::Spent)));
    Ok(())
}
