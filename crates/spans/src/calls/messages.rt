//! What a feed tells.
ghost use Rattle.std.specs.Prelude.{◌≡◌, List};
ghost use Rattle.spans.specs.declared.calls.messages.Message.{Message};

use std::marker::Model;
use timestamps::{Row, Ts};

/// A message of a feed.
#[derive(Debug, Drop, PartialEq, Eq)]
pub enum Message {
    /// A committed version of the feed's span; of an initial feed first a key's value at the cursor,
    /// as a row at the cursor.
    Row(Row),
    /// Every version of the span above the feed's cursor and at or below this timestamp was told
    /// before, and none comes after; of an initial feed so were all values at the cursor.
    Resolved(Ts),
}

/// The messages of one reply, in order.
#[derive(Debug, Drop)]
pub struct Messages {
    list: Vec<Message>,
}

impl Model for Messages {
    ghost Value = { List Message };

    ghost view = { λ m. m.list.items };
}

impl Messages {
    /// The messages of a list.
    pub fn from_vec(list: Vec<Message>) -> Messages
        ensures { result ≡ list.items }
    {
        Messages { list }
    }

    /// The messages, lent.
    pub fn as_slice(&self) -> &[Message]
        ensures { result.now ≡ self.now }
    {
        self.list.as_slice()
    }
}
