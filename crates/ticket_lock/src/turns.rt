//! The public calls of a turn: a seat asks for the value, with or without waiting, and gives it back.
ghost use Rattle.std.specs.Prelude.{◌≡◌, ◌≤◌, ◌++◌, [], ◌∷◌, None, Some, IfOk, IfErr};
ghost use Rattle.ticket_lock.specs.Lists.{of_seat};
ghost use Rattle.ticket_lock.specs.Seats.{number, seen, mine, met_spent, known, ticket, found, raised, looks, IsOf, IsSame, HasMetSpent, HasTurn, IsSpent, IsDenied};
ghost use Rattle.ticket_lock.specs.declared.rule.Look.TheVariants.{Serving, Next};

use crate::chronicle::Chronicle;
use crate::lock::{Denied, Held, Seat, Spent, TicketLock};
use std::marker::Brand;
use std::sync::Wait;

impl<T: Chronicle> TicketLock<T> {
    /// The turn of the next ticket, for which it may wait.
    ///
    /// While others have theirs it looks again some times, or sleeps until a turn ends. It draws a ticket only
    /// where that is served at once: seats that wait have none, and no order among them.
    ///
    /// `Spent` comes exactly where the next ticket would be 18446744073709551615, and at each later
    /// call for a turn of this seat too. That the wait ends is not promised.
    pub fn turn<R: Wait>(&self, rt: &R, seat: &mut Seat<T>) -> Result<Held<T>, Spent>
        requires own { IsOf self.now seat.old }
        requires free { ticket seat.old ≡ None }
        ensures ok { IfOk result (λ h. HasTurn T.stands T.floor_of self.now.first seat.old h.value h.ticket seat.new) }
        ensures err { IfErr result (λ _. IsSpent seat.old seat.new) }
        ensures own { mine seat.old ≡ of_seat T.seat_of (number seat.old) (seen seat.old) }
    {
        let ticket = self.draw_served(rt, &mut seat.pass).ok_or(Spent)?;
        let value = self.take_value(&mut seat.pass, ticket);
        Ok(Held { value, ticket })
    }

    /// The turn of the next ticket, if it is served at once. It waits for nobody, and draws a ticket
    /// only where it has the turn: three noted looks, and a last load.
    ///
    /// `Spent` comes where the next ticket would be 18446744073709551615, and before `Busy`.
    pub fn try_turn(&self, seat: &mut Seat<T>) -> Result<Held<T>, Denied>
        requires own { IsOf self.now seat.old }
        requires free { ticket seat.old ≡ None }
        ensures ok { IfOk result (λ h. HasTurn T.stands T.floor_of self.now.first seat.old h.value h.ticket seat.new) }
        // It noted three looks: at the serving word, at the ticket word, and by the exchange that drew the ticket.
        ensures looked { IfOk result (λ h. looks seat.new ≡ Next h.ticket ∷ Next h.ticket ∷ Serving h.ticket ∷ looks seat.old) }
        ensures err { IfErr result (λ d. IsDenied self.now.first seat.old d seat.new) }
        // `Spent` noted two: at the serving word, and at the ticket word.
        ensures spent { IfErr result (λ d. HasMetSpent (looks seat.old) d (looks seat.new)) }
        ensures own { mine seat.old ≡ of_seat T.seat_of (number seat.old) (seen seat.old) }
    {
        let ticket = self.try_draw(&mut seat.pass)?;
        let value = self.take_value(&mut seat.pass, ticket);
        Ok(Held { value, ticket })
    }

    /// Ends a turn: the value goes back for the next ticket, and the entry is the last of the
    /// history so far. It is one store, and a wake where a seat sleeps. It waits for nobody.
    pub fn end(&self, seat: &mut Seat<T>, held: Held<T>, entry: &T::Entry)
        requires own { IsOf self.now seat.old }
        requires turn { ticket seat.old ≡ Some held.ticket }
        requires names { T.seat_of entry.now ≡ number seat.old }
        requires stands { T.stands held.value self.now.first (found seat.old ++ entry.now ∷ []) }
        requires high { raised seat.old ≤ T.floor_of held.value }
        ensures same { IsSame seat.old seat.new }
        ensures free { ticket seat.new ≡ None }
        ensures seen { seen seat.new ≡ found seat.old ++ entry.now ∷ [] }
        ensures mine { mine seat.new ≡ mine seat.old ++ entry.now ∷ [] }
        ensures own { mine seat.new ≡ of_seat T.seat_of (number seat.new) (seen seat.new) }
        ensures known { known seat.new ≡ known seat.old }
        ensures high { known seat.old ≤ T.floor_of held.value }
        ensures spent { met_spent seat.new ≡ met_spent seat.old }
        ensures unraised { raised seat.new ≡ 0 }
    {
        let Held { value, ticket } = held;
        self.release::<Brand>(&mut seat.pass, value, ticket, entry);
    }
}

impl<T> Held<T> {
    /// The ticket of the turn: the number of the entry that the turn will end with.
    pub fn ticket(&self) -> u64
        ensures { result ≡ self.now.ticket }
    {
        self.ticket
    }
}
