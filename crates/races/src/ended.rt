//! What a session leaves behind.
ghost use Rattle.std.specs.Prelude.{◌≡◌, true};
ghost use Rattle.ticket_lock.specs.Seats.{mine, met_spent};

use shared_db::Seat;
use spans::Event;

/// A session that has ended: its seat, all events of that seat's calls, and whether a call was refused
/// since no position was left.
#[derive(Drop)]
pub struct Ended {
    pub seat: Seat,
    pub events: Vec<Event>,
    pub spent: bool,
    pub ghost whole: { events.items ≡ mine seat },
    pub ghost met: { spent ≡ true → met_spent seat ≡ true },
}
