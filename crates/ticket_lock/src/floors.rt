//! The floor word: a floor that the value reached, to be read without a turn.
ghost use Rattle.std.specs.Prelude.{◌≡◌, ◌≤◌, ◌∷◌, ℕ, max, Some};
ghost use Rattle.ticket_lock.specs.Seats.{seen, known, raised, ticket, looks, IsOf, KeepsTurn};
ghost use Rattle.ticket_lock.specs.declared.rule.Look.TheVariants.{Floor};

use crate::chronicle::Chronicle;
use crate::lock::{Held, Seat, TicketLock};
use crate::plays::{LoadFloor, RaiseFloor};
use crate::rule::FLOOR;

impl<T: Chronicle> TicketLock<T> {
    /// A floor that was reached: at least each that the seat knew, and 0 if none was ever raised.
    /// It is one load, and waits for nobody.
    pub fn floor(&self, seat: &mut Seat<T>) -> u64
        requires own { IsOf self.now seat.old }
        ensures keeps { KeepsTurn seat.old seat.new }
        ensures seen { seen seat.new ≡ seen seat.old }
        ensures raised { raised seat.new ≡ raised seat.old }
        ensures floor { known seat.old ≤ result }
        ensures known { known seat.new ≡ result }
        // It is what one look found, and there was no other.
        ensures looked { looks seat.new ≡ Floor result ∷ looks seat.old }
    {
        self.board.shared.load::<LoadFloor>(&mut seat.pass, FLOOR)
    }

    /// Raises the floor to that of the value, for all to read before the turn ends. The turn then
    /// has to end with a floor that is no lower. It is one fetch_max, and waits for nobody.
    pub fn raise_floor(&self, seat: &mut Seat<T>, held: &Held<T>)
        requires own { IsOf self.now seat.old }
        requires turn { ticket seat.old ≡ Some held.now.ticket }
        ensures keeps { KeepsTurn seat.old seat.new }
        ensures seen { seen seat.new ≡ seen seat.old }
        ensures raised { raised seat.new ≡ max (raised seat.old) (T.floor_of held.now.value) }
        ensures known { known seat.old ≤ known seat.new }
        ensures high { T.floor_of held.now.value ≤ known seat.new }
        // The seat knows the greater of the floor of the value and the one that it replaced. There was no other look.
        ensures looked { (was : ℕ) × (looks seat.new ≡ Floor was ∷ looks seat.old) × (known seat.new ≡ max was (T.floor_of held.now.value)) }
    {
        let floor = held.value.floor();
        let shared = &self.board.shared;
        shared.fetch_max::<RaiseFloor>(&mut seat.pass, FLOOR, floor);
    }
}
