//! Two seats compare what they have seen.
ghost use Rattle.std.specs.Prelude.{◌≡◌, ◌∷◌, ℕ, max, true};
ghost use Rattle.ticket_lock.specs.Lists.{of_seat, longer, StartsWith};
ghost use Rattle.ticket_lock.specs.Seats.{number, seen, mine, known, raised, looks, IsOf, KeepsTurn};
ghost use Rattle.ticket_lock.specs.Views.{telling, IsSamePass};
ghost use Rattle.ticket_lock.specs.declared.rule.Look.TheVariants.{Serving, Ignored};
ghost use Rattle.ticket_lock.specs.Steps.{HearsOf};

use crate::chronicle::Chronicle;
use crate::lock::{Seat, TicketLock};
use crate::plays::{CatchUp, HearReport, SplitReport};
use crate::rule::{Pass, SERVING};

impl<T: Chronicle> TicketLock<T> {
    // One seat learns what another has seen.
    fn tell(&self, from: &mut Pass<T, T::Entry>, to: &mut Pass<T, T::Entry>)
        requires own { (from.old.table_id ≡ self.now.board.shared.table_id) × (to.old.table_id ≡ self.now.board.shared.table_id) }
        requires sits { to.old.me.0.sits ≡ true }
        ensures from { IsSamePass from.old from.new × (from.new.me ≡ (telling from.old.me.0, from.old.me.1)) }
        ensures to { IsSamePass to.old to.new × HearsOf T.seat_of from.old.me.0.kept.seen from.old.me.0.kept.known to.old.me to.new.me }
    {
        let report = self.board.shared.split_seat::<SplitReport>(from);
        self.board.shared.join_seat::<HearReport>(to, report);
        self.board.shared.load::<CatchUp>(to, SERVING);
    }

    /// Both seats know the longer of their two histories, which the other begins, and the greater of
    /// the floors that they knew. It makes six loads, and waits for nobody.
    pub fn meet(&self, one: &mut Seat<T>, other: &mut Seat<T>)
        requires own { IsOf self.now one.old × IsOf self.now other.old }
        ensures one { KeepsTurn one.old one.new }
        ensures other { KeepsTurn other.old other.new }
        ensures longer { (seen one.new ≡ longer (seen other.old) (seen one.old)) × (seen other.new ≡ seen one.new) }
        ensures begins { StartsWith (seen one.new) (seen one.old) × StartsWith (seen one.new) (seen other.old) }
        ensures known { (known one.new ≡ max (known other.old) (known one.old)) × (known other.new ≡ known one.new) }
        ensures raised { (raised one.new ≡ raised one.old) × (raised other.new ≡ raised other.old) }
        ensures one_owns { mine one.new ≡ of_seat T.seat_of (number one.new) (seen one.new) }
        // Each noted three loads: one of the serving word, and two that are ignored.
        ensures one_looked { (n : ℕ) × (looks one.new ≡ Serving n ∷ Ignored ∷ Ignored ∷ looks one.old) }
        ensures other_looked { (n : ℕ) × (looks other.new ≡ Ignored ∷ Serving n ∷ Ignored ∷ looks other.old) }
        ensures other_owns { mine other.new ≡ of_seat T.seat_of (number other.new) (seen other.new) }
    {
        self.tell(&mut one.pass, &mut other.pass);
        self.tell(&mut other.pass, &mut one.pass);
    }
}
