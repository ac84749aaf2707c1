//! What a race leaves: the engine, and one history.
ghost use Rattle.std.specs.Prelude.{◌≡◌, map, vec_len, IfOk, All};
ghost use Rattle.shared_db.specs.Seats.{IsOf, seat_count};
ghost use Rattle.races.specs.Racing.{IsSettled};

use crate::ended::Ended;
use crate::merging::{MergeError, merge};
use engine::Engine;
use shared_db::{Db, Seat};
use spans::Event;
use std::alloc::{AllocError, Global};

/// The engine of a database whose sessions have all ended, and their events as one history, the oldest first. They were
/// never refused: no two of them have one position, and none is missing. Growth of memory is all that
/// may be refused; the database is gone then.
pub fn settle(alloc: Global, db: Db, ended: Vec<Ended>) -> Result<(Engine, Vec<Event>), AllocError>
    requires own { All (λ e. IsOf db e.seat) ended.items }
    requires all { vec_len ended ≡ seat_count db }
    ensures { IfOk result (λ r. IsSettled db ended.items r.0 r.1.items) }
{
    let (seats, lists) = parted(alloc, ended)?;
    match db.finish(seats) {
        Ok(engine) => match merge(alloc, lists) {
            Ok(events) => Ok((engine, events)),
            Err(MergeError::NoMemory) => Err(AllocError),
            Err(MergeError::Repeated { .. }) => unreachable!(),
            Err(MergeError::Gap { .. }) => unreachable!(),
        },
        Err(_) => unreachable!(),
    }
}

/// The seats and the lists of events, in the order of the sessions.
fn parted(alloc: Global, ended: Vec<Ended>) -> Result<(Vec<Seat>, Vec<Vec<Event>>), AllocError>
    ensures seats { IfOk result (λ r. r.0.items ≡ map (λ e. e.seat) ended.items) }
    ensures lists { IfOk result (λ r. r.1.items ≡ map (λ e. e.events) ended.items) }
{
    let mut seats = Vec::new(alloc);
    let mut lists = Vec::new(alloc);
    for one in ended {
        let Ended { seat, events, .. } = one;
        seats.push(seat)?;
        lists.push(events)?;
    }
    Ok((seats, lists))
}
