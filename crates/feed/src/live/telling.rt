//! What a feed tells next.
ghost use Rattle.std.specs.Prelude.{◌≡◌, ◌≤◌, ◌++◌, IfOk, length, map, take};
ghost use Rattle.timestamps.specs.declared.ts.TheConstants.{MAX};
ghost use Rattle.feed.specs.Standing.{due_at};
ghost use Rattle.feed.specs.Left.{IsTold};

use crate::live::LiveFeed;
use crate::place::{Arrival, place_behind};
use spans::Message;
use std::alloc::{AllocError, Global};
use timestamps::{Row, Ts};
use version_chain::Store;

/// Messages, and the place of a feed that has told them.
#[derive(Drop)]
pub(crate) struct Told {
    pub(crate) messages: Vec<Message>,
    pub(crate) place: Arrival,
}

impl LiveFeed {
    /// Its next messages, at most `max`, and its place behind them.
    pub(crate) fn next_messages(
        &self,
        alloc: Global,
        store: &Store,
        closed: u64,
        max: u64,
    ) -> Result<Told, AllocError>
        requires { closed ≤ MAX }
        ensures { IfOk result (λ told. IsTold store.now self.now closed max told) }
    {
        let rows = self.next_rows(alloc, store, closed, max)?;
        let rows = row_messages(alloc, rows)?;
        let messages = with_due(rows, self.due(closed), max)?;
        let place = place_behind(self.after, messages.as_slice())?;
        Ok(Told { messages, place })
    }
}

/// The messages and the resolved one, as far as `max`.
fn with_due(messages: Vec<Message>, due: Option<Ts>, max: u64) -> Result<Vec<Message>, AllocError>
    requires { length messages.items ≤ max }
    ensures { IfOk result (λ ms. ms.items ≡ take max (messages.items ++ due_at due)) }
{
    let mut messages = messages;
    let Some(ts) = due else {
        return Ok(messages);
    };
    if (messages.len() as u64) < max {
        messages.push(Message::Resolved(ts))?;
    }
    Ok(messages)
}

/// Rows as messages.
fn row_messages(alloc: Global, rows: Vec<Row>) -> Result<Vec<Message>, AllocError>
    ensures { IfOk result (λ ms. ms.items ≡ map Message.Row rows.items) }
{
    let mut messages = Vec::with_capacity(alloc, rows.len())?;
    for row in rows {
        messages.push(Message::Row(row))?;
    }
    Ok(messages)
}
