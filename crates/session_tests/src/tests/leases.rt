//! Sessions that take their timestamps from leases: each draws blocks of 32 numbers for itself, so no two of
//! them ever begin a transaction at the same timestamp, and none of them asks another.
ghost use Rattle.std.specs.Prelude.{All};
ghost use Rattle.timestamps.specs.Passes.{IsOf as IsPassOf};

use super::texts::{commands_of, put_form};
use races::{Open, race, settle};
use shared_db::{Config, Db};
use std::alloc::Global;
use std::test::Fail;
use timestamps::lease::Lease;
use timestamps::oracle::OraclePass;
use trace_check::{Verdict, check};

/// How many calls each session makes.
const CALLS: u64 = 1000;

/// The next timestamp of a lease, and of a new lease where it has none left.
fn next_timestamp(db: &Db, pass: &mut OraclePass, lease: &mut Lease) -> Option<u64>
    requires own { IsPassOf db.now.oracle pass.old }
    ensures own { IsPassOf db.now.oracle pass.new }
{
    if let Some(ts) = lease.next() {
        return Some(ts.get());
    }
    *lease = db.draw(pass).ok()?;
    lease.next().map(|ts| ts.get())
}

/// The forms of a session's lines, in turn: the session stands at A, its timestamp at B, the number of the turn at C,
/// half of the timestamp at D and a quarter at E.
const FORMS: &str = "A begin B
A get B a
A put B a C
A scan B a c
A del B b
A commit B
A close D
A stats
A begin B
A put B b C
A abort B
A readat E a
A scanat E - -
A protect E
A closehard E
A begin B
A get B a
A put B c -
A commit B
A release C
A collect E
opening
A poll C 3
A poll 1 5
A cancel C";

/// The forms of the first openings, and a poll for the others.
const OPENINGS: &str = "A poll 2 9
A open - - D
A openinitial a - D
A openevery - b D 7
A openinitialevery - - D 3";

/// The form of a turn.
fn form_of(turn: u64) -> &'static str {
    if turn % 25 == 21 {
        let number = turn / 25 + 1;
        return OPENINGS
            .lines()
            .nth((number % 8) as usize)
            .unwrap_or("A poll 2 9");
    }
    FORMS.lines().nth((turn % 25) as usize).unwrap_or("A stats")
}

/// The script of one session, written behind what is there.
fn put_session(
    alloc: Global,
    db: &Db,
    mut pass: OraclePass,
    session: u64,
    script: &mut Vec<u8>,
) -> Result<(), Fail>
    requires own { IsPassOf db.now.oracle pass }
{
    let mut lease = db.draw(&mut pass)?;
    let mut ts = 0;
    for turn in 0..CALLS {
        if turn % 25 == 0 || turn % 25 == 8 || turn % 25 == 15 {
            ts = next_timestamp(db, &mut pass, &mut lease).ok_or("no timestamp is left")?;
        }
        let numbers = [session, ts, turn / 25 + 1, ts / 2, ts / 4];
        put_form(alloc, script, form_of(turn), &numbers)?;
    }
    Ok(())
}

/// The scripts of all sessions, one behind the other.
fn script_of(alloc: Global, db: &Db, passes: Vec<OraclePass>) -> Result<Vec<u8>, Fail>
    requires own { All (IsPassOf db.now.oracle) passes.items }
{
    let mut script = Vec::new(alloc);
    let mut session = 0u64;
    for pass in passes {
        put_session(alloc, db, pass, session, &mut script)?;
        session = session.saturating_add(1);
    }
    Ok(script)
}

#[test]
fn eight_sessions_with_leases(rt: HostRuntime) -> Result<(), Fail> {
    let config = Config {
        seats: 8,
        ring: 4,
        first: 0,
    };
    let (db, seats, passes) = Db::open(rt.alloc(), config)?;
    let script = script_of(rt.alloc(), &db, passes)?;
    let lists = commands_of(rt.alloc(), script.as_slice(), 8)?;
    let ended = race(&rt, rt.alloc(), &db, seats, lists, &Open)?;
    let (engine, events) = settle(rt.alloc(), db, ended)?;
    assert!(rt; events.len() == 8000 && engine.steps() == 8000);
    assert!(rt; check(rt.alloc(), &events)? == Verdict::Yes);
    Ok(())
}
