//! The callers of one database.
ghost use Rattle.std.specs.Prelude.{◌≡◌, ◌≤◌, ◌<◌, ◌+◌, [], List, length, vec_len, IfOk, IfErr, OnErr, OnOk};
ghost use Rattle.sessions.specs.Prelude.{Event, IsReason, RingInRange, SeatsInRange, first_of, most, seat_count};
ghost use Rattle.sessions.specs.Seating.{AreSeated, HaveMet};
ghost use Rattle.sessions.specs.Runs.{HasMade, HasMadeMore, HasMadeNone, HasSpent, IsHistory};

use engine::Engine;
use shared_db::{Config, Db, OpenError, Seat};
use spans::Event;
use std::alloc::Global;
use std::sync::Wait;
use ticket_lock::Spent;

/// A database and all its seats, each at the place of its number.
#[derive(Drop)]
pub(crate) struct Callers {
    db: Db,
    seats: Vec<Seat>,
    /// Who called last, and has seen all calls.
    latest: u8,
    ghost seated: { AreSeated db seats.items },
    ghost whole: { vec_len seats ≡ seat_count db },
    ghost few: { vec_len seats ≤ 64 },
    ghost there: { latest < vec_len seats },
}

impl Callers {
    /// An empty database with as many callers as it has seats.
    pub(crate) fn open(alloc: Global, config: Config) -> Result<Callers, OpenError>
        ensures seats { IfOk result (λ callers. vec_len callers.seats ≡ config.seats) }
        ensures first { IfOk result (λ callers. first_of callers.db ≡ config.first) }
        ensures in_range { IfOk result (λ callers. SeatsInRange config × RingInRange config) }
        ensures made { IfOk result (λ callers. HasMade callers.latest callers.seats.items []) }
        ensures err { IfErr result (IsReason config) }
    {
        let (db, seats, _passes) = Db::open(alloc, config)?;
        Ok(Callers {
            db,
            seats,
            latest: 0,
        })
    }

    /// How many callers there are. They are numbered from 0.
    pub(crate) fn count(&self) -> u8
        ensures { result ≡ vec_len self.now.seats }
    {
        self.seats.len() as u8
    }

    /// Makes the call of the event's command for one of them, and writes it into the event.
    #[inline(always)]
    pub(crate) fn call<T: Wait>(
        &mut self,
        rt: &T,
        caller: u8,
        event: &mut Event,
    ) -> Result<(), Spent>
        requires there { caller < vec_len self.old.seats }
        ensures count { vec_len self.new.seats ≡ vec_len self.old.seats }
        ensures db { self.new.db ≡ self.old.db }
        ensures event { OnOk result ((event.new.seat ≡ caller) × (event.new.cmd ≡ event.old.cmd)) }
        ensures made { OnOk result (HasMadeMore self.old.latest self.old.seats.items self.new.latest self.new.seats.items event.new) }
        ensures still { OnErr result (HasMadeNone self.old.latest self.old.seats.items self.new.latest self.new.seats.items) }
        ensures spent { OnErr result (HasSpent self.new.seats.items) }
        ensures kept { OnErr result (event.new ≡ event.old) }
    {
        let place = usize::from(caller);
        catch_up(&self.db, &mut self.seats, usize::from(self.latest), place);
        self.latest = caller;
        self.db.call_in_place(rt, &mut self.seats[place], event)
    }

    /// The engine, now that all calls are made.
    pub(crate) fn finish(self) -> Engine
        ensures whole { (events : List Event) → HasMade self.latest self.seats.items events → IsHistory (first_of self.db) events }
        ensures spent { (events : List Event) → HasMade self.latest self.seats.items events → HasSpent self.seats.items → first_of self.db + length events ≡ most }
    {
        let Callers { db, seats, .. } = self;
        let Ok(engine) = db.finish(seats) else {
            unreachable!()
        };
        engine
    }
}

/// A caller sees what the latest one has seen, so that the order of their calls is known.
fn catch_up(db: &Db, seats: &mut Vec<Seat>, latest: usize, caller: usize)
    requires latest { latest < vec_len seats.old }
    requires caller { caller < vec_len seats.old }
    requires seated { AreSeated db.now seats.old.items }
    ensures seated { AreSeated db.now seats.new.items }
    ensures count { vec_len seats.new ≡ vec_len seats.old }
    ensures made { (events : List Event) → HasMade latest seats.old.items events → HasMade caller seats.new.items events }
{
    if caller < latest {
        meet_at(db, seats, caller, latest);
        return;
    }
    if latest < caller {
        meet_at(db, seats, latest, caller);
        return;
    }
}

/// Two seats meet, which stand at these places.
fn meet_at(db: &Db, seats: &mut Vec<Seat>, low: usize, high: usize)
    requires order { low < high }
    requires there { high < vec_len seats.old }
    requires seated { AreSeated db.now seats.old.items }
    ensures seated { AreSeated db.now seats.new.items }
    ensures count { vec_len seats.new ≡ vec_len seats.old }
    ensures met { HaveMet low high seats.old.items seats.new.items }
{
    let (front, back) = seats.as_mut_slice().split_at_mut(high);
    db.meet(&mut front[low], &mut back[0]);
}
