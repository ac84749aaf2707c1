//! The end of a lock, once all its seats are back.
ghost use Rattle.std.specs.Prelude.{◌≡◌, ◌≢◌, [], map, length, IfOk, IfErr};
ghost use Rattle.ticket_lock.specs.Views.{gatherer};
ghost use Rattle.ticket_lock.specs.Seats.{AllFree, record_of, IsMerge};

use crate::chronicle::Chronicle;
use crate::lock::{Seat, SeatsMissing, TicketLock};
use crate::plays::{EnterGatherer, GatherSeat};
use crate::rule::{HOME, Pass, SERVING};

impl<T: Chronicle> TicketLock<T> {
    // One view for all seats.
    fn gather(&self, mut seats: Vec<Seat<T>>) -> Pass<T, T::Entry>
        requires { AllFree self.now seats.items }
        ensures { (result.table_id ≡ self.now.board.shared.table_id) × (result.me ≡ (gatherer (map record_of seats.items), [])) }
    {
        let mut all = self.board.shared.load_new_seat::<EnterGatherer>(SERVING).1;
        while let Some(seat) = seats.pop() {
            let Seat { number: _, pass } = seat;
            self.board.shared.join_seat::<GatherSeat>(&mut all, pass);
        }
        all
    }

    /// The value, once all seats are back, in any order. It stands for the merge of all that the
    /// seats made. It is refused exactly where a seat is missing. It waits for nobody, and frees
    /// what `new` took.
    pub fn finish(self, seats: Vec<Seat<T>>) -> Result<T, SeatsMissing<T>>
        requires free { AllFree self seats.items }
        ensures ok { IfOk result (λ x. IsMerge T.stands T.seat_of T.floor_of self.first self.count seats.items x) }
        ensures err { IfErr result (λ m. (m.lock ≡ self) × (m.seats ≡ seats) × (length seats.items ≢ self.count)) }
    {
        if seats.len() != usize::from(self.count) {
            return Err(SeatsMissing { lock: self, seats });
        }
        let all = self.gather(seats);
        let TicketLock { board, .. } = self;
        let mut closed = board.close_with(all);
        let value = closed.take(HOME).unwrap();
        closed.free();
        Ok(value)
    }
}
