//! The engine as the lock keeps it.

ghost use Rattle.shared_db.specs.Prelude.{closed_timestamp};
ghost use Rattle.shared_db.specs.History.{StandsFor};
ghost use Rattle.shared_db.specs.Closing.{closed_rises};

use engine::Engine;
use spans::Event;
use ticket_lock::Chronicle;

/// An engine that stands for a history, whose floor is its closed timestamp. It is boxed, so that a
/// turn moves its address in and out of the lock and not the engine itself.
#[derive(Drop)]
pub struct Served {
    pub engine: Box<Engine>,
}

impl Chronicle for Served {
    type Entry = Event;

    ghost stands = { λ served first events. StandsFor served.engine.value first events };

    ghost seat_of = { λ event. event.seat };

    ghost floor_of = { λ served. closed_timestamp served.engine.value };

    fn floor(&self) -> u64 {
        self.engine.closed()
    }

    ghost floor_rises = { λ x y first before after p q. closed_rises x.engine.value y.engine.value first before after p q };
}
