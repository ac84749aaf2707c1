//! Threads one after the other: what one has left, the next one finds.
ghost use Rattle.session_tests.specs.Prelude.{IsIdle, IsOf};

use super::seats::last;
use super::texts::{commands_of, transcript_of};
use races::{Open, race};
use shared_db::{Config, Db, Seat};
use std::alloc::Global;
use std::sync::Wait;
use std::test::Fail;
use std::thread::{Threads, join};

/// The transcript of a script of one session, whose calls a seat makes in a thread of its own.
fn played<R: Threads + Wait + Sync>(
    rt: &R,
    alloc: Global,
    db: &Db,
    seat: Seat,
    script: &[u8],
) -> Result<Vec<u8>, Fail>
    requires own { IsOf db.now seat }
    requires idle { IsIdle seat }
{
    let lists = commands_of(alloc, script, 1)?;
    let mut seats = Vec::new(alloc);
    seats.push(seat)?;
    let mut ended = race(rt, alloc, db, seats, lists, &Open)?;
    let one = ended.pop().ok_or("one session")?;
    Ok(transcript_of(alloc, &one.events)?)
}

const COMMITS: &[u8] = b"0 begin 10\n0 put 10 a 1\n0 commit 10\n";

const COMMITTED: &[u8] = b"0 0 begin 10 => started
1 0 put 10 a 1 => written
2 0 commit 10 => committed 1
";

const READS: &[u8] = b"0 begin 20\n0 get 20 a\n";

const READ: &[u8] = b"3 1 begin 20 => started
4 1 get 20 a => value 1
";

#[test]
fn another_thread_reads_what_was_committed(rt: HostRuntime) -> Result<(), Fail> {
    let config = Config {
        seats: 2,
        ring: 16,
        first: 0,
    };
    let (db, mut seats, _passes) = Db::open(rt.alloc(), config)?;
    let two = last(&rt, &db, &mut seats);
    let one = last(&rt, &db, &mut seats);
    let committed = played(&rt, rt.alloc(), &db, one, COMMITS)?;
    assert!(rt; committed.as_slice() == COMMITTED);
    let read = played(&rt, rt.alloc(), &db, two, READS)?;
    assert!(rt; read.as_slice() == READ);
    Ok(())
}

fn floor_of(db: &Db, mut seat: Seat) -> u64
    requires own { IsOf db.now seat }
{
    db.floor(&mut seat)
}

/// Closed, as another thread finds it without a turn.
fn floor_elsewhere<R: Threads + Sync>(rt: &R, db: &Db, seat: Seat) -> u64
    requires own { IsOf db.now seat }
{
    let (floor, ()) = join(
        rt,
        || -> u64
            requires { IsOf db.now seat }
        { floor_of(db, seat) },
        || (),
    );
    floor
}

#[test]
fn another_thread_sees_what_was_closed(rt: HostRuntime) -> Result<(), Fail> {
    let config = Config {
        seats: 2,
        ring: 16,
        first: 0,
    };
    let (db, mut seats, _passes) = Db::open(rt.alloc(), config)?;
    let two = last(&rt, &db, &mut seats);
    let one = last(&rt, &db, &mut seats);
    let closed = played(&rt, rt.alloc(), &db, one, b"0 close 10\n")?;
    assert!(rt; closed.as_slice() == b"0 0 close 10 => closed 10 0\n".as_slice());
    assert!(rt; floor_elsewhere(&rt, &db, two) == 10);
    Ok(())
}
