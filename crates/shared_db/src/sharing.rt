//! What seats and passes do beside calls, none of which waits or takes memory.
ghost use Rattle.std.specs.Prelude.{◌≡◌, ◌<◌, ◌≤◌, ◌+◌, ◌++◌, [], ◌∷◌, ℕ, max, IfOk, IfErr, OnOk, OnErr};
ghost use Rattle.std.specs.List.Sorted.{IsStrictlyIncreasing};
ghost use Rattle.shared_db.specs.Prelude.{of_seat, longer, StartsWith};
ghost use Rattle.ticket_lock.specs.Seats.{number, seen, mine, known, met_spent, IsSame, looks as seat_looks};
ghost use Rattle.ticket_lock.specs.declared.rule.Look.TheVariants.{Serving, Floor, Ignored};
ghost use Rattle.timestamps.specs.Blocks.{timestamps_of, AreApart};
ghost use Rattle.timestamps.specs.Passes.{drawn, leased, loaded, earlier, looks, IsOf as IsPassOf, IsSame as IsSamePass, IsReason, steps_of};
ghost use Rattle.timestamps.specs.declared.lease.TheConstants.{BLOCKS};
ghost use Rattle.shared_db.specs.Seats.{IsOf};

use crate::db::{Db, Seat};
use timestamps::lease::Lease;
use timestamps::oracle::{DrawError, OraclePass};

impl Db {
    /// A timestamp that is closed: at least each that the seat knew.
    pub fn floor(&self, seat: &mut Seat) -> u64
        requires own { IsOf self.now seat.old }
        ensures own { IsOf self.now seat.new }
        ensures same { IsSame seat.old seat.new }
        ensures lists { (seen seat.new ≡ seen seat.old) × (mine seat.new ≡ mine seat.old) }
        ensures spent { met_spent seat.new ≡ met_spent seat.old }
        ensures floor { known seat.old ≤ result }
        ensures known { known seat.new ≡ result }
        // It is what one look of the lock found, and there was no other.
        ensures looked { seat_looks seat.new ≡ Floor result ∷ seat_looks seat.old }
    {
        self.lock.floor(seat)
    }

    /// Both seats have seen the longer of their two histories, which the other begins, and know the
    /// greater of the floors that they knew.
    pub fn meet(&self, one: &mut Seat, other: &mut Seat)
        requires own { IsOf self.now one.old × IsOf self.now other.old }
        ensures own { IsOf self.now one.new × IsOf self.now other.new }
        ensures same { IsSame one.old one.new × IsSame other.old other.new }
        ensures longer { (seen one.new ≡ longer (seen other.old) (seen one.old)) × (seen other.new ≡ seen one.new) }
        ensures begins { StartsWith (seen one.new) (seen one.old) × StartsWith (seen one.new) (seen other.old) }
        ensures mine { (mine one.new ≡ mine one.old) × (mine other.new ≡ mine other.old) }
        ensures one_owns { mine one.new ≡ of_seat (λ e. e.seat) (number one.new) (seen one.new) }
        ensures other_owns { mine other.new ≡ of_seat (λ e. e.seat) (number other.new) (seen other.new) }
        ensures known { (known one.new ≡ max (known other.old) (known one.old)) × (known other.new ≡ known one.new) }
        ensures spent { (met_spent one.new ≡ met_spent one.old) × (met_spent other.new ≡ met_spent other.old) }
        // Each noted three loads: one of the number whose turn it is, and two that are ignored.
        ensures one_looked { (n : ℕ) × (seat_looks one.new ≡ Serving n ∷ Ignored ∷ Ignored ∷ seat_looks one.old) }
        ensures other_looked { (n : ℕ) × (seat_looks other.new ≡ Ignored ∷ Serving n ∷ Ignored ∷ seat_looks other.old) }
    {
        self.lock.meet(one, other);
    }

    /// The next 32 timestamps of the oracle. It takes no memory.
    pub fn draw(&self, pass: &mut OraclePass) -> Result<Lease, DrawError>
        requires own { IsPassOf self.now.oracle pass.old }
        ensures same { IsSamePass pass.old pass.new }
        ensures rises { loaded pass.old ≤ loaded pass.new }
        // So what it compares was loaded in this call.
        ensures steps { looks pass.new ≡ looks pass.old + steps_of result }
        ensures lease { IfOk result (λ lease. lease ≡ timestamps_of (loaded pass.new)) }
        ensures drawn { OnOk result (drawn pass.new ≡ drawn pass.old ++ loaded pass.new ∷ []) }
        ensures in_range { OnOk result (loaded pass.new < BLOCKS) }
        ensures fresh { IfOk result (λ lease. AreApart (leased pass.old) lease) }
        ensures rising { IsStrictlyIncreasing (drawn pass.new) }
        ensures refused { OnErr result (drawn pass.new ≡ drawn pass.old) }
        ensures reason { IfErr result (IsReason (earlier pass.new) (loaded pass.new)) }
    {
        self.oracle.draw(pass)
    }

    /// Two passes learn that no timestamp was leased to both. What each drew stays.
    pub fn meet_passes(&self, one: &mut OraclePass, other: &mut OraclePass)
        requires own { IsPassOf self.now.oracle one.old × IsPassOf self.now.oracle other.old }
        ensures one { IsSamePass one.old one.new × (drawn one.new ≡ drawn one.old) }
        ensures other { IsSamePass other.old other.new × (drawn other.new ≡ drawn other.old) }
        ensures rises { (loaded one.old ≤ loaded one.new) × (loaded other.new ≡ loaded other.old) }
        ensures blocks { AreApart (drawn one.new) (drawn other.new) }
        ensures leases { AreApart (leased one.new) (leased other.new) }
    {
        self.oracle.meet(one, other);
    }
}
