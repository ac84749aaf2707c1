//! How many messages of a feed find room in so many bytes. A look reads what a poll would tell, in chunks that grow, so
//! that it goes little further than there is room for, and tells nothing.
//!
//! ```text
//! left for a feed: rows of 20, 30 and 18 bytes, and a resolved message of 17
//! max 9, bytes 85      9      all four find room
//! max 9, bytes 84      3
//! max 9, bytes 49      1      30 don't find room behind 20, so the 18 aren't asked for
//! max 2, bytes 50      2      all that were asked for
//! ```

ghost use Rattle.std.specs.Prelude.{◌≡◌, ◌<◌, ◌≤◌, None, IfOk, IfSome};
ghost use Rattle.timestamps.specs.declared.ts.TheConstants.{MAX};
ghost use Rattle.feed.specs.Left.{IsCountLeft, count_within, message_weight, value_weight};

use crate::live::LiveFeed;
use crate::live::telling::Told;
use spans::Message;
use std::alloc::{AllocError, Global};
use timestamps::Value;
use version_chain::Store;

/// The bytes of a message beside those of a key and a value.
const HEAD: u64 = 17;

/// How many messages are looked at first.
const CHUNK: u64 = 15;

/// How many of a feed's next messages, at most `max`, find room; `max` where all of them do.
pub(crate) fn count_left(
    alloc: Global,
    live: &LiveFeed,
    store: &Store,
    closed: u64,
    max: u64,
    bytes: u64,
) -> Result<u64, AllocError>
    requires { closed ≤ MAX }
    ensures { IfOk result (IsCountLeft store.now closed max bytes live.now) }
{
    let mut chunk = max.min(CHUNK);
    loop {
        if let Some(count) = count_first(alloc, live, store, closed, chunk, max, bytes)? {
            return Ok(count);
        }
        chunk = chunk.saturating_add(chunk).saturating_add(1).min(max);
    }
}

/// The same by the first messages alone, so many as `chunk`, where these are enough to tell.
fn count_first(
    alloc: Global,
    live: &LiveFeed,
    store: &Store,
    closed: u64,
    chunk: u64,
    max: u64,
    bytes: u64,
) -> Result<Option<u64>, AllocError>
    requires closed { closed ≤ MAX }
    requires within { chunk ≤ max }
    ensures count { IfOk result (λ count. IfSome count (IsCountLeft store.now closed max bytes live.now)) }
    ensures more { IfOk result (λ count. count ≡ None → chunk < max) }
{
    let Told { messages, .. } = live.next_messages(alloc, store, closed, chunk)?;
    let count = count_within(messages.as_slice(), bytes);
    let all = messages.len() as u64;
    if count < all {
        return Ok(Some(count));
    }
    if all < chunk || chunk == max {
        return Ok(Some(max));
    }
    Ok(None)
}

/// How many of the messages, from the first on, have at most so many bytes together.
fn count_within(messages: &[Message], bytes: u64) -> u64
    ensures { result ≡ count_within bytes messages.now }
{
    let mut left = bytes;
    let mut count = 0u64;
    for message in messages {
        let weight = message_weight(message);
        if left < weight {
            return count;
        }
        left -= weight;
        count += 1;
    }
    count
}

/// The bytes of a message.
fn message_weight(message: &Message) -> u64
    ensures { result ≡ message_weight message.now }
{
    match message {
        Message::Resolved(_) => HEAD,
        Message::Row(row) => HEAD + row.key.bytes().len() as u64 + value_weight(&row.after),
    }
}

/// The bytes of a value, none of a delete.
fn value_weight(after: &Option<Value>) -> u64
    ensures bytes { result ≡ value_weight after.now }
    ensures few { result ≤ 65536 }
{
    after.as_ref().map_or(0, |value| value.bytes().len() as u64)
}
