//! Calls: a command of a seat becomes an event of the one history.
ghost use Rattle.std.specs.Prelude.{◌≡◌, IfOk, IfErr, OnErr, OnOk};
ghost use Rattle.ticket_lock.specs.Seats.{IsSame, IsOf as IsOwn, IsSpent};
ghost use Rattle.shared_db.specs.Seats.{IsOf, first_of};
ghost use Rattle.shared_db.specs.Calls.{IsAnswered, IsDenied, IsReady, IsMade};

use crate::db::{Db, Seat};
use crate::served::Served;
use spans::{Cmd, Event, Reply};
use std::sync::Wait;
use ticket_lock::{Denied, Held};

/// No position is left: the next one would be 18446744073709551615. The command comes back.
#[derive(Debug, Drop)]
pub struct Spent {
    pub cmd: Cmd,
}

/// Why `Db::try_call` made no call. The command comes back.
#[derive(Debug, Drop)]
pub enum CallDenied {
    /// The call at position `served` had its turn, and the positions from there up to `next` were
    /// given out. Both were loaded in this call, `next` after `served`.
    Busy { served: u64, next: u64, cmd: Cmd },
    /// No position is left.
    Spent { cmd: Cmd },
}

impl Db {
    /// Makes a call, once no other has a turn. `Spent` comes exactly where the next position would be
    /// 18446744073709551615, and at each later call of this seat too. Whether the wait ends is not promised.
    pub fn call<R: Wait>(&self, rt: &R, seat: &mut Seat, cmd: Cmd) -> Result<Event, Spent>
        requires own { IsOf self.now seat.old }
        ensures own { IsOf self.now seat.new }
        ensures same { IsSame seat.old seat.new }
        ensures event { IfOk result (λ event. IsAnswered (first_of self.now) seat.old cmd event seat.new) }
        ensures spent { IfErr result (λ spent. (spent.cmd ≡ cmd) × IsSpent seat.old seat.new) }
    {
        let mut event = unmade(cmd);
        match self.call_in_place(rt, seat, &mut event) {
            Ok(()) => Ok(event),
            Err(_) => Err(Spent {
                cmd: event.into_parts().0,
            }),
        }
    }

    /// Makes the call of the event's command, and writes its position, seat and reply into the event: a caller that makes
    /// many moves no event. Where no position is left, the event stays as it was.
    #[inline(always)]
    pub fn call_in_place<R: Wait>(
        &self,
        rt: &R,
        seat: &mut Seat,
        event: &mut Event,
    ) -> Result<(), ticket_lock::Spent>
        requires own { IsOf self.now seat.old }
        ensures own { IsOf self.now seat.new }
        ensures same { IsSame seat.old seat.new }
        ensures event { OnOk result (IsAnswered (first_of self.now) seat.old event.old.cmd event.new seat.new) }
        ensures spent { OnErr result ((event.new ≡ event.old) × IsSpent seat.old seat.new) }
    {
        let held = self.lock.turn(rt, seat)?;
        self.make(seat, held, event);
        Ok(())
    }

    /// Makes a call, if no other has a turn. It waits for nobody. `Spent` comes where the next position
    /// would be 18446744073709551615, and before `Busy`.
    pub fn try_call(&self, seat: &mut Seat, cmd: Cmd) -> Result<Event, CallDenied>
        requires own { IsOf self.now seat.old }
        ensures own { IsOf self.now seat.new }
        ensures same { IsSame seat.old seat.new }
        ensures event { IfOk result (λ event. IsAnswered (first_of self.now) seat.old cmd event seat.new) }
        ensures denied { IfErr result (λ denied. IsDenied (first_of self.now) seat.old cmd denied seat.new) }
    {
        match self.lock.try_turn(seat) {
            Ok(held) => {
                let mut event = unmade(cmd);
                self.make(seat, held, &mut event);
                Ok(event)
            }
            Err(Denied::Busy { served, next }) => Err(CallDenied::Busy { served, next, cmd }),
            Err(Denied::Spent) => Err(CallDenied::Spent { cmd }),
        }
    }

    /// Makes the step of a turn, and writes it into the event.
    #[inline(always)]
    fn make(&self, seat: &mut Seat, mut held: Held<Served>, event: &mut Event)
        requires own { IsOwn self.now.lock seat.old }
        requires turn { IsReady (first_of self.now) held.value held.ticket seat.old }
        ensures own { IsOf self.now seat.new }
        ensures same { IsSame seat.old seat.new }
        ensures made { IsMade (first_of self.now) seat.old held.ticket event.old.cmd event.new seat.new }
    {
        let by = seat.number();
        event.position = held.ticket();
        event.seat = by;
        event.reply = held.value.engine.step(by, &event.cmd);
        self.lock.raise_floor(seat, &held);
        self.lock.end(seat, held, event);
    }
}

/// An event whose call is still to be made.
fn unmade(cmd: Cmd) -> Event
    ensures { result.cmd ≡ cmd }
{
    Event {
        position: 0,
        seat: 0,
        cmd,
        reply: Reply::Started,
    }
}
