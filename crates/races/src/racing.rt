//! Sessions that race: a thread for each.
ghost use Rattle.std.specs.Prelude.{◌≡◌, ◌≢◌, ◌↔◌, ◌<◌, vec_len, true, IfOk, IfErr, All};
ghost use Rattle.races.specs.Prelude.{Cmd, IsOf, number};
ghost use Rattle.races.specs.Racing.{IsIdle, IsPlayed, AreStarted, AreOk, AllEnded};
ghost use Rattle.races.specs.declared.racing.RaceError.TheVariants.{Counts};
ghost use Rattle.races.specs.declared.racing.RaceError.TheVariants as errors;

use crate::ended::Ended;
use crate::gate::Gate;
use shared_db::{Db, Seat};
use spans::Cmd;
use std::alloc::{AllocError, Global};
use std::snapshot::Snapshot;
use std::sync::Wait;
use std::thread;
use std::thread::{Promise, PromisedHandle, Scope, Threads};

/// Why sessions did not race to their ends. The seats are gone.
#[derive(Clone, Copy, Debug, PartialEq, Eq)]
pub enum RaceError {
    /// There are not as many seats as lists of commands.
    Counts = 1,
    /// A growth of memory was refused.
    NoMemory,
    /// A thread could not be started.
    Thread,
}

impl From<AllocError> for RaceError {
    ghost from_gives = { λ _ e. e ≡ errors.NoMemory };

    fn from(_refused: AllocError) -> RaceError {
        RaceError::NoMemory
    }
}

/// Makes the calls of one session, one after the other, with room for its events made first.
fn play<R: Wait, G: Gate>(
    rt: &R,
    alloc: Global,
    db: &Db,
    gate: &G,
    mut seat: Seat,
    commands: Vec<Cmd>,
) -> Result<Ended, AllocError>
    requires own { IsOf db.now seat }
    requires idle { IsIdle seat }
    ensures { IfOk result (λ ended. IsPlayed db.now seat commands.items ended.events.items ended.spent ended.seat) }
{
    let mut events = Vec::with_capacity(alloc, commands.len())?;
    let number = seat.number();
    let mut call = 0;
    for cmd in commands {
        gate.pass(number, call);
        call += 1;
        match db.call(rt, &mut seat, cmd) {
            Ok(event) => {
                let Ok(()) = events.push(event) else {
                    unreachable!()
                };
            }
            Err(_) => {
                gate.pass(number, call);
                return Ok(Ended {
                    seat,
                    events,
                    spent: true,
                });
            }
        }
    }
    gate.pass(number, call);
    Ok(Ended {
        seat,
        events,
        spent: false,
    })
}

/// The promise of a session's thread.
#[derive(Drop)]
struct Plays {
    db: Snapshot<Db>,
    seat: Snapshot<Seat>,
    commands: Snapshot<Vec<Cmd>>,
}

impl Promise<Result<Ended, AllocError>> for Plays {
    ghost kept_by = { λ p r. IfOk r (λ ended. IsPlayed p.db.value p.seat.value p.commands.value.items ended.events.items ended.spent ended.seat) };
}

/// Starts one session in a thread of the scope.
fn start<'s, E, R: Wait + Sync, G: Gate + Sync>(
    scope: &Scope<'s, E>,
    rt: &'s R,
    alloc: Global,
    db: &'s Db,
    gate: &'s G,
    seat: Seat,
    commands: Vec<Cmd>,
) -> Result<PromisedHandle<Result<Ended, AllocError>, Plays>, RaceError>
    requires own { IsOf db.now seat }
    requires idle { IsIdle seat }
    ensures never { IfErr result (λ e. e ≢ Counts) }
    ensures promised { IfOk result (λ h. (h.promise.db.value ≡ db.now) × (h.promise.seat.value ≡ seat) × (h.promise.commands.value ≡ commands)) }
{
    let promise = Plays {
        db: Snapshot::of(db),
        seat: Snapshot::of(&seat),
        commands: Snapshot::of(&commands),
    };
    match scope.spawn_with(promise, move || play(rt, alloc, db, gate, seat, commands)) {
        Ok(handle) => Ok(handle),
        Err(_) => Err(RaceError::Thread),
    }
}

/// Starts all sessions, each in a thread of its own.
fn start_all<'s, E, R: Wait + Sync, G: Gate + Sync>(
    scope: &Scope<'s, E>,
    rt: &'s R,
    alloc: Global,
    db: &'s Db,
    gate: &'s G,
    seats: Vec<Seat>,
    lists: Vec<Vec<Cmd>>,
) -> Result<Vec<PromisedHandle<Result<Ended, AllocError>, Plays>>, RaceError>
    requires own { All (IsOf db.now) seats.items }
    requires idle { All IsIdle seats.items }
    requires counts { vec_len seats ≡ vec_len lists }
    ensures never { IfErr result (λ e. e ≢ Counts) }
    ensures count { IfOk result (λ handles. vec_len handles ≡ vec_len seats) }
    ensures started { IfOk result (λ handles. AreStarted (λ h. h.promise) db.now seats.items lists.items handles.items) }
{
    let mut handles = Vec::new(alloc);
    let mut others = lists.into_iter();
    for seat in seats {
        let Some(commands) = others.next() else {
            unreachable!()
        };
        let handle = start(scope, rt, alloc, db, gate, seat, commands)?;
        let Ok(()) = handles.push(handle) else {
            return Err(RaceError::NoMemory);
        };
    }
    Ok(handles)
}

/// The lists that all sessions left behind, in the order of their seats.
fn gather(alloc: Global, results: Vec<Result<Ended, AllocError>>) -> Result<Vec<Ended>, RaceError>
    ensures never { IfErr result (λ e. e ≢ Counts) }
    ensures ok { IfOk result (λ all. AreOk results.items all.items) }
{
    let mut all = Vec::new(alloc);
    for result in results {
        let ended = result?;
        let Ok(()) = all.push(ended) else {
            return Err(RaceError::NoMemory);
        };
    }
    Ok(all)
}

/// Starts all sessions, and waits for their ends.
fn run<'s, E, R: Threads + Wait + Sync, G: Gate + Sync>(
    scope: &Scope<'s, E>,
    rt: &'s R,
    alloc: Global,
    db: &'s Db,
    gate: &'s G,
    seats: Vec<Seat>,
    lists: Vec<Vec<Cmd>>,
) -> Result<Vec<Ended>, RaceError>
    requires own { All (IsOf db.now) seats.items }
    requires idle { All IsIdle seats.items }
    requires counts { vec_len seats ≡ vec_len lists }
    ensures never { IfErr result (λ e. e ≢ Counts) }
    ensures ended { IfOk result (AllEnded db.now seats.items lists.items) }
{
    let handles = start_all(scope, rt, alloc, db, gate, seats, lists)?;
    match thread::join_promised(rt, handles) {
        Ok(results) => gather(alloc, results),
        Err(_) => Err(RaceError::NoMemory),
    }
}

/// Has sessions race: each makes the calls of its list, in a thread of its own, with its seat. The
/// sessions stand in the order of the seats. Each passes the gate before each of its calls, with the
/// call's number from 0, and once more after the last.
///
/// Whether it returns is not promised.
pub fn race<R: Threads + Wait + Sync, G: Gate + Sync>(
    rt: &R,
    alloc: Global,
    db: &Db,
    seats: Vec<Seat>,
    lists: Vec<Vec<Cmd>>,
    gate: &G,
) -> Result<Vec<Ended>, RaceError>
    requires own { All (IsOf db.now) seats.items }
    requires idle { All IsIdle seats.items }
    ensures counts { IfErr result (λ e. (e ≡ Counts) ↔ (vec_len seats ≢ vec_len lists)) }
    ensures ended { IfOk result (AllEnded db.now seats.items lists.items) }
{
    if seats.len() != lists.len() {
        return Err(RaceError::Counts);
    }
    thread::scope(
        thread::scope_env(),
        rt,
        |scope| -> Result<Vec<Ended>, RaceError>
            requires { All (IsOf db.now) seats.items × All IsIdle seats.items × (vec_len seats ≡ vec_len lists) }
            ensures { IfOk result (AllEnded db.entry.now seats.items lists.items) × IfErr result (λ e. e ≢ Counts) }
        { run(scope, rt, alloc, db, gate, seats, lists) },
    )
}
