//! The events of sessions, put together in the order of their positions.
ghost use Rattle.std.specs.Prelude.{◌≡◌, IfOk, IfErr, IfNone, IfSome};
ghost use Rattle.std.specs.List.Sorted.{IsNonDecreasingBy};
ghost use Rattle.races.specs.Merging.{position_of, events_of, IsMerged, IsUnbroken, IsBreak, IsReason};

use spans::Event;
use std::alloc::{AllocError, Global};

/// Why lists of events aren't one history: the first of the sorted events that isn't one above the one
/// before it.
#[derive(Clone, Copy, Debug, PartialEq, Eq)]
pub enum MergeError {
    /// It stands where the one before it stands.
    Repeated { position: u64 },
    /// A position is missing before it.
    Gap { position: u64 },
    /// A growth of memory was refused.
    NoMemory,
}

/// All events of the lists, sorted by position, where each is one above the one before it.
///
/// Cost: as a sort of what all lists hold. Lists that are sorted cost less.
pub fn merge(alloc: Global, lists: Vec<Vec<Event>>) -> Result<Vec<Event>, MergeError>
    ensures merged { IfOk result (λ all. IsMerged (events_of lists.items) all.items) }
    ensures refused { IfErr result (IsReason (events_of lists.items)) }
{
    let Ok(mut all) = joined(alloc, lists) else {
        return Err(MergeError::NoMemory);
    };
    let Ok(()) = all.sort_by_key(|event| event.position) else {
        return Err(MergeError::NoMemory);
    };
    match first_break(all.as_slice()) {
        None => Ok(all),
        Some(found) => Err(found),
    }
}

/// The events of all lists, one list behind the other.
fn joined(alloc: Global, lists: Vec<Vec<Event>>) -> Result<Vec<Event>, AllocError>
    ensures { IfOk result (λ all. all.items ≡ events_of lists.items) }
{
    let mut all = Vec::new(alloc);
    for mut list in lists {
        all.append(&mut list)?;
    }
    Ok(all)
}

/// The first event that isn't one above the one before it.
fn first_break(events: &[Event]) -> Option<MergeError>
    requires rising { IsNonDecreasingBy position_of events.now }
    ensures none { IfNone result (IsUnbroken events.now) }
    ensures some { IfSome result (IsBreak events.now) }
{
    for at in 1..events.len() {
        let before = events[at - 1].position;
        let here = events[at].position;
        if here == before {
            return Some(MergeError::Repeated { position: here });
        }
        if here - 1 != before {
            return Some(MergeError::Gap { position: here });
        }
    }
    None
}
