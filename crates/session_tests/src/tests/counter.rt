//! A counter, as a value under a lock, and its turns.
ghost use Rattle.std.specs.Prelude.{◌≡◌, length, None};
ghost use Rattle.std.proofs.Common.{arith, length-append};
ghost use Rattle.ticket_lock.specs.Seats.{AllNew, IsOf, number, ticket};

use std::process::Abort;
use std::sync::Wait;
use ticket_lock::{Chronicle, Denied, Seat, TicketLock};

/// It stands for as many marks.
#[derive(Drop)]
pub(super) struct Counter {
    pub(super) count: u64,
}

/// One more, by a seat.
#[derive(Drop)]
pub(super) struct Mark {
    pub(super) seat: u8,
}

impl Chronicle for Counter {
    type Entry = Mark;

    ghost stands = { λ counter first marks. counter.count ≡ length marks };

    ghost seat_of = { λ mark. mark.seat };

    ghost floor_of = { λ counter. counter.count };

    fn floor(&self) -> u64 {
        self.count
    }

    ghost floor_rises = { λ x y first before after p q. Prim.omega (arith, length-append before after) };
}

/// The last of the new seats.
pub(super) fn last(
    rt: &impl Abort,
    lock: &TicketLock<Counter>,
    seats: &mut Vec<Seat<Counter>>,
) -> Seat<Counter>
    requires new { AllNew lock.now seats.old.items }
    ensures new { AllNew lock.now seats.new.items }
    ensures own { IsOf lock.now result × (ticket result ≡ None) }
    ensures number { number result ≡ length seats.new.items }
{
    let Some(seat) = seats.pop() else {
        panic!(rt; "a seat is missing");
    };
    seat
}

/// One turn, which adds a mark. The ticket that it had.
pub(super) fn tick<R: Wait>(
    rt: &R,
    lock: &TicketLock<Counter>,
    seat: &mut Seat<Counter>,
) -> Option<u64>
    requires own { IsOf lock.now seat.old × (ticket seat.old ≡ None) }
    ensures own { IsOf lock.now seat.new × (ticket seat.new ≡ None) }
{
    let mut held = lock.turn(rt, seat).ok()?;
    let ticket = held.ticket();
    held.value.count += 1;
    let mark = Mark {
        seat: seat.number(),
    };
    lock.end(seat, held, &mark);
    Some(ticket)
}

/// The same without waiting.
pub(super) fn try_tick(lock: &TicketLock<Counter>, seat: &mut Seat<Counter>) -> Result<u64, Denied>
    requires own { IsOf lock.now seat.old × (ticket seat.old ≡ None) }
    ensures own { IsOf lock.now seat.new × (ticket seat.new ≡ None) }
{
    let mut held = lock.try_turn(seat)?;
    let ticket = held.ticket();
    held.value.count += 1;
    let mark = Mark {
        seat: seat.number(),
    };
    lock.end(seat, held, &mark);
    Ok(ticket)
}

/// Whether a call that doesn't wait is refused, since this ticket has its turn and that one is next.
pub(super) fn is_busy(
    lock: &TicketLock<Counter>,
    seat: &mut Seat<Counter>,
    has: u64,
    next_one: u64,
) -> bool
    requires own { IsOf lock.now seat.old × (ticket seat.old ≡ None) }
    ensures own { IsOf lock.now seat.new × (ticket seat.new ≡ None) }
{
    match try_tick(lock, seat) {
        Err(Denied::Busy { served, next }) => served == has && next == next_one,
        _ => false,
    }
}
