//! How far messages move the place of a feed.
ghost use Rattle.std.specs.Prelude.{◌≡◌, None, IfOk, option_map};
ghost use Rattle.std.specs.Option.{option_copied};
ghost use Rattle.feed.specs.Prelude.{last_name, last_resolved, name_of};
ghost use Rattle.spans.specs.Collection.{VersionName};

use spans::Message;
use std::alloc::AllocError;
use std::marker::Model;
use timestamps::{Key, Row, Ts};

/// The row that was told: its key and timestamp, and not what it says.
#[derive(Drop)]
pub(crate) struct RowName {
    pub(crate) ts: Ts,
    pub(crate) key: Key,
}

impl Model for RowName {
    ghost Value = { VersionName };

    ghost view = { λ n. record { key = n.key; ts = n.ts } };
}

/// A place behind messages.
#[derive(Drop)]
pub(crate) struct Arrival {
    /// The greatest timestamp up to which all is told.
    pub(crate) after: u64,
    /// The last row of the messages, if there is one.
    pub(crate) row: Option<RowName>,
}

/// The place behind messages, from one at which all is told through `after`.
pub(crate) fn place_behind(after: u64, messages: &[Message]) -> Result<Arrival, AllocError>
    ensures after { IfOk result (λ a. a.after ≡ last_resolved after messages.now) }
    ensures row { IfOk result (λ a. a.row ≡ last_name None messages.now) }
{
    let mut reached = after;
    let mut last = None;
    for message in messages {
        match message {
            Message::Row(row) => last = Some(row),
            Message::Resolved(ts) => reached = reached.max(ts.get()),
        }
    }
    Ok(Arrival {
        after: reached,
        row: named(last)?,
    })
}

/// The name of the row, where there is one.
fn named(row: Option<&Row>) -> Result<Option<RowName>, AllocError>
    ensures { IfOk result (λ name. name ≡ option_map name_of (option_copied row.entry)) }
{
    let Some(row) = row else {
        return Ok(None);
    };
    let key = row.key.copy()?;
    Ok(Some(RowName { ts: row.ts, key }))
}
