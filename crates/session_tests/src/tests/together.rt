//! Seats that threads play at once, and the engine that comes back with all of them.
ghost use Rattle.std.specs.Prelude.{All, IfOk};
ghost use Rattle.shared_db.specs.Seats.{AllNew, AllOf, IsOf};

use super::racing::{Holds, Place};
use super::texts::{Lines, commands_of, text_of};
use races::{Ended, Gate, Open, RaceError, race};
use shared_db::{Config, Db, Seat};
use spans::{Cmd, Reply};
use std::alloc::Global;
use std::sync::Wait;
use std::test::Fail;
use std::thread::Threads;

/// Has new seats make their calls, each in a thread of its own.
fn race_new<R: Threads + Wait + Sync, G: Gate + Sync>(
    rt: &R,
    alloc: Global,
    db: &Db,
    seats: Vec<Seat>,
    lists: Vec<Vec<Cmd>>,
    gate: &G,
) -> Result<Vec<Ended>, RaceError>
    requires new { AllNew db.now seats.items }
    ensures own { IfOk result (λ ended. All (λ e. IsOf db.now e.seat) ended.items) }
{
    race(rt, alloc, db, seats, lists, gate)
}

/// How many calls the engine answered that comes back with the seats.
fn steps_at_the_end(db: Db, seats: Vec<Seat>) -> Option<u64>
    requires own { AllOf db seats.items }
{
    let engine = db.finish(seats).ok()?;
    Some(engine.steps())
}

/// How many transactions were begun.
fn begun(ended: &[Ended]) -> usize {
    let mut count = 0usize;
    for one in ended {
        for event in &one.events {
            if matches!(event.reply, Reply::Started) {
                count = count.saturating_add(1);
            }
        }
    }
    count
}

/// The seats of two sessions, which have met.
fn met(alloc: Global, db: &Db, mut ended: Vec<Ended>) -> Result<Vec<Seat>, Fail>
    requires own { All (λ e. IsOf db.now e.seat) ended.items }
    ensures own { IfOk result (λ seats. AllOf db.now seats.items) }
{
    let Ended { seat: mut two, .. } = ended.pop().ok_or("two sessions")?;
    let Ended { seat: mut one, .. } = ended.pop().ok_or("two sessions")?;
    db.meet(&mut one, &mut two);
    let mut seats = Vec::new(alloc);
    seats.push(one)?;
    seats.push(two)?;
    Ok(seats)
}

/// Each session begins a hundred transactions, and waits before the second one until the other has begun its first.
const BEGINNINGS: [Lines; 2] = [("0 begin A", 1, 101), ("1 begin A", 1001, 1101)];

const BOTH_BEGUN: [(Place, Place); 2] = [((0, 1), (1, 1)), ((1, 1), (0, 1))];

#[test]
fn two_threads_begin_transactions_at_once(rt: HostRuntime) -> Result<(), Fail> {
    let config = Config {
        seats: 2,
        ring: 16,
        first: 0,
    };
    let (db, seats, _passes) = Db::open(rt.alloc(), config)?;
    let script = text_of(rt.alloc(), &BEGINNINGS)?;
    let lists = commands_of(rt.alloc(), script.as_slice(), 2)?;
    let gate = Holds::new(&BOTH_BEGUN);
    let ended = race_new(&rt, rt.alloc(), &db, seats, lists, &gate)?;
    assert!(rt; !gate.is_late(), "both run at once");
    assert!(rt; begun(&ended) == 200);
    let seats = met(rt.alloc(), &db, ended)?;
    assert!(rt; steps_at_the_end(db, seats) == Some(200));
    Ok(())
}

/// Whether no position is left for a call.
fn is_spent<R: Wait>(rt: &R, db: &Db, seat: &mut Seat) -> bool
    requires own { IsOf db.now seat.old }
    ensures own { IsOf db.now seat.new }
{
    db.call(rt, seat, Cmd::Stats).is_err()
}

/// The seats of sessions that ended since no position was left, which is so at the next call too, and how many events
/// they have.
fn spent<R: Wait>(
    rt: &R,
    alloc: Global,
    db: &Db,
    ended: Vec<Ended>,
) -> Result<(Vec<Seat>, usize), Fail>
    requires own { All (λ e. IsOf db.now e.seat) ended.items }
    ensures own { IfOk result (λ r. AllOf db.now r.0.items) }
{
    let mut seats = Vec::new(alloc);
    let mut made = 0usize;
    for one in ended {
        let Ended {
            mut seat,
            events,
            spent,
            ..
        } = one;
        if !spent || !is_spent(rt, db, &mut seat) {
            return Err("a position is left".into());
        }
        made = made.saturating_add(events.len());
        seats.push(seat)?;
    }
    Ok((seats, made))
}

/// Four sessions, which have more calls than there are positions.
const MORE: [Lines; 4] = [
    ("0 stats", 0, 20),
    ("1 stats", 0, 20),
    ("2 stats", 0, 20),
    ("3 stats", 0, 20),
];

#[test]
fn four_threads_use_up_the_positions(rt: HostRuntime) -> Result<(), Fail> {
    let config = Config {
        seats: 4,
        ring: 16,
        first: 18446744073709551605,
    };
    let (db, seats, _passes) = Db::open(rt.alloc(), config)?;
    let script = text_of(rt.alloc(), &MORE)?;
    let lists = commands_of(rt.alloc(), script.as_slice(), 4)?;
    let ended = race_new(&rt, rt.alloc(), &db, seats, lists, &Open)?;
    let (seats, made) = spent(&rt, rt.alloc(), &db, ended)?;
    assert!(rt; made == 10);
    assert!(rt; steps_at_the_end(db, seats) == Some(10));
    Ok(())
}
