//! The calls of a script, given to sessions that race.
ghost use Rattle.std.specs.Prelude.{◌≡◌, ◌<◌, [], vec_len, IfOk, IfErr, All};
ghost use Rattle.races.specs.Racing.{AreLists, IsRaceOf, IsFreshReason};
ghost use Rattle.races.specs.declared.calls.FreshError.TheVariants as errors;

use crate::gate::Gate;
use crate::racing::{RaceError, race};
use crate::settling::settle;
use shared_db::{Config, Db, OpenError};
use spans::{Cmd, Event};
use std::alloc::{AllocError, Global};
use std::sync::Wait;
use std::thread::Threads;

/// Why a race on a database of its own left nothing.
#[derive(Clone, Copy, Debug, PartialEq, Eq)]
pub enum FreshError {
    /// The database was not opened.
    Open(OpenError),
    /// A growth of memory was refused.
    NoMemory,
    /// A thread could not be started.
    Thread,
}

impl From<OpenError> for FreshError {
    ghost from_gives = { λ reason e. e ≡ errors.Open reason };

    fn from(refused: OpenError) -> FreshError {
        FreshError::Open(refused)
    }
}

impl From<AllocError> for FreshError {
    ghost from_gives = { λ _ e. e ≡ errors.NoMemory };

    fn from(_refused: AllocError) -> FreshError {
        FreshError::NoMemory
    }
}

/// Has the sessions of a script race on a database of their own, whose positions begin at 0: each makes
/// its calls in their order, in a thread of its own. All calls are made, and their events are one history.
///
/// Whether it returns is not promised.
pub fn race_calls<R: Threads + Wait + Sync, G: Gate + Sync>(
    rt: &R,
    alloc: Global,
    sessions: u8,
    ring: u32,
    calls: Vec<(u8, Cmd)>,
    gate: &G,
) -> Result<Vec<Event>, FreshError>
    requires below { All (λ call. call.0 < sessions) calls.items }
    ensures raced { IfOk result (λ events. IsRaceOf sessions calls.items events.items) }
    ensures refused { IfErr result (IsFreshReason (record { seats = sessions; ring = ring; first = 0 })) }
{
    let lists = lists_of(alloc, sessions, calls)?;
    let config = Config {
        seats: u32::from(sessions),
        ring,
        first: 0,
    };
    let (db, seats, _passes) = Db::open(alloc, config)?;
    let ended = match race(rt, alloc, &db, seats, lists, gate) {
        Ok(ended) => ended,
        Err(RaceError::NoMemory) => return Err(FreshError::NoMemory),
        Err(RaceError::Thread) => return Err(FreshError::Thread),
        // each seat has a list
        Err(RaceError::Counts) => unreachable!(),
    };
    let (_engine, events) = settle(alloc, db, ended)?;
    Ok(events)
}

/// The commands of each session, in their order.
fn lists_of(alloc: Global, sessions: u8, calls: Vec<(u8, Cmd)>) -> Result<Vec<Vec<Cmd>>, AllocError>
    requires below { All (λ call. call.0 < sessions) calls.items }
    ensures count { IfOk result (λ lists. vec_len lists ≡ sessions) }
    ensures each { IfOk result (λ lists. AreLists calls.items lists.items) }
{
    let mut lists = empty_lists(alloc, sessions)?;
    for (session, cmd) in calls {
        lists[usize::from(session)].push(cmd)?;
    }
    Ok(lists)
}

/// So many lists with nothing in them.
fn empty_lists(alloc: Global, count: u8) -> Result<Vec<Vec<Cmd>>, AllocError>
    ensures count { IfOk result (λ lists. vec_len lists ≡ count) }
    ensures each { IfOk result (λ lists. All (λ list. list.items ≡ []) lists.items) }
{
    let mut lists = Vec::new(alloc);
    for _place in 0..count {
        lists.push(Vec::new(alloc))?;
    }
    Ok(lists)
}
