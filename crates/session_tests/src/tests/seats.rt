//! Seats and passes of a database with no other thread beside them: calls that wait for nobody, floors, and leases.
ghost use Rattle.session_tests.specs.Prelude.{AllNew, IsIdle, IsOf};
ghost use Rattle.timestamps.specs.Passes.{IsOf as IsPassOf};

use shared_db::{Config, Db, Seat};
use spans::Cmd;
use std::process::Abort;
use std::test::Fail;
use timestamps::oracle::OraclePass;

/// The last of the new seats.
pub(super) fn last(rt: &impl Abort, db: &Db, seats: &mut Vec<Seat>) -> Seat
    requires new { AllNew db.now seats.old.items }
    ensures new { AllNew db.now seats.new.items }
    ensures own { IsOf db.now result }
    ensures idle { IsIdle result }
{
    let Some(seat) = seats.pop() else {
        panic!(rt; "a seat is missing");
    };
    seat
}

/// The position of a closing that waits for nobody.
fn closes(db: &Db, seat: &mut Seat, to: u64) -> Option<u64>
    requires own { IsOf db.now seat.old }
    ensures own { IsOf db.now seat.new }
{
    let event = db.try_call(seat, Cmd::Close { to }).ok()?;
    Some(event.position)
}

/// The first timestamp of the next lease.
fn draws(db: &Db, pass: &mut OraclePass) -> Option<u64>
    requires own { IsPassOf db.now.oracle pass.old }
    ensures own { IsPassOf db.now.oracle pass.new }
{
    let mut lease = db.draw(pass).ok()?;
    lease.next().map(|ts| ts.get())
}

// A fresh database with one seat answers a call that waits for nobody.
#[test]
fn one_seat_is_answered(rt: HostRuntime) -> Result<(), Fail> {
    let config = Config {
        seats: 1,
        ring: 1,
        first: 0,
    };
    let (db, mut seats, _passes) = Db::open(rt.alloc(), config)?;
    let mut seat = last(&rt, &db, &mut seats);
    assert!(rt; closes(&db, &mut seat, 10) == Some(0));
    Ok(())
}

// A floor is read anew, and passes draw from the first block.
#[test]
fn seats_and_passes_wait_for_nobody(rt: HostRuntime) -> Result<(), Fail> {
    let config = Config {
        seats: 2,
        ring: 1,
        first: 7,
    };
    let (db, mut seats, mut passes) = Db::open(rt.alloc(), config)?;
    let mut two = last(&rt, &db, &mut seats);
    let mut one = last(&rt, &db, &mut seats);
    assert!(rt; db.floor(&mut two) == 0);
    assert!(rt; closes(&db, &mut one, 10) == Some(7));
    assert!(rt; db.floor(&mut two) == 10);
    assert!(rt; closes(&db, &mut one, 20) == Some(8));
    assert!(rt; db.floor(&mut two) == 20);
    let mut second = passes.pop().ok_or("two passes")?;
    let mut first = passes.pop().ok_or("two passes")?;
    assert!(rt; draws(&db, &mut first) == Some(1));
    assert!(rt; draws(&db, &mut second) == Some(33));
    db.meet_passes(&mut first, &mut second);
    Ok(())
}
