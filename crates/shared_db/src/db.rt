//! How a shared database begins and ends.
ghost use Rattle.std.specs.Prelude.{◌≡◌, ◌≢◌, length, IfOk, IfErr};
ghost use Rattle.shared_db.specs.Seats.{IsOpened, IsReason, AllOf, seat_count, IsWhole};

use crate::config::{Config, OpenError};
use crate::served::Served;
use engine::Engine;
use spans::limits::{MAX_RING, MAX_SEATS};
use std::alloc::Global;
use ticket_lock::TicketLock;
use timestamps::oracle::{Oracle, OraclePass};

/// A database that threads share by reference.
pub struct Db {
    pub(crate) lock: TicketLock<Served>,
    pub(crate) oracle: Oracle,
}

// for the proof, which has no case for each part of it where a database is dropped
impl Drop for Db {
    fn drop(self) {
        let Db { lock: _, oracle: _ } = self;
    }
}

/// One caller of a database. At run time it is its number alone.
pub type Seat = ticket_lock::Seat<Served>;

/// `Db::finish` was not given all seats. The database and those that it was given come back.
#[derive(Drop)]
pub struct SeatsMissing {
    pub db: Db,
    pub seats: Vec<Seat>,
}

impl Db {
    /// An empty database, its seats, numbered from 0, and as many passes of its oracle, which begins
    /// with the timestamps 1 to 32.
    pub fn open(
        alloc: Global,
        config: Config,
    ) -> Result<(Db, Vec<Seat>, Vec<OraclePass>), OpenError>
        ensures ok { IfOk result (λ r. IsOpened config r.0 r.1.items r.2.items) }
        ensures err { IfErr result (IsReason config) }
    {
        if config.seats == 0 || config.seats > MAX_SEATS as u32 {
            return Err(OpenError::SeatCount);
        }
        if config.ring == 0 || config.ring > MAX_RING {
            return Err(OpenError::RingSize);
        }
        let Ok(engine) = Box::new(alloc, Engine::new(alloc)) else {
            return Err(OpenError::NoMemory);
        };
        let seats = config.seats as usize;
        let Ok((lock, seats)) = TicketLock::new(alloc, Served { engine }, config.first, seats)
        else {
            return Err(OpenError::NoMemory);
        };
        let Ok((oracle, passes)) = Oracle::new(alloc, 0, config.seats) else {
            return Err(OpenError::NoMemory);
        };
        Ok((Db { lock, oracle }, seats, passes))
    }

    /// The engine, once all seats are back, in any order. It is refused exactly where a seat is missing. It waits for
    /// nobody, and passes may be dropped before or after.
    pub fn finish(self, seats: Vec<Seat>) -> Result<Engine, SeatsMissing>
        requires own { AllOf self seats.items }
        ensures ok { IfOk result (λ engine. IsWhole self seats.items engine × (length seats.items ≡ seat_count self)) }
        ensures err { IfErr result (λ m. (m.db ≡ self) × (m.seats ≡ seats) × (length seats.items ≢ seat_count self)) }
    {
        let Db { lock, oracle } = self;
        match lock.finish(seats) {
            Ok(Served { engine }) => Ok(Box::into_inner(engine)),
            Err(ticket_lock::SeatsMissing { lock, seats }) => Err(SeatsMissing {
                db: Db { lock, oracle },
                seats,
            }),
        }
    }
}
