//! Which lines of an input are messages to take.
ghost use Rattle.std.specs.Prelude.{◌≡◌, ◌&&◌, is_none};
ghost use Rattle.follow.specs.Following.{begins_message, polled_in, is_feed, is_taking_after};

use json_lines::numbers::number_of;
use word_lines::words::words_of;

/// The messages that are taken: all, or those that the polls of one feed told.
#[derive(Clone, Copy, PartialEq, Eq)]
pub(crate) struct Choice {
    feed: Option<u64>,
    /// Whether a message that comes now is taken.
    taking: bool,
}

impl Choice {
    pub(crate) fn new(feed: Option<u64>) -> Choice
        ensures feed { result.feed ≡ feed }
        ensures taking { result.taking ≡ is_none feed }
    {
        let taking = feed.is_none();
        Choice { feed, taking }
    }

    /// Whether a line is a message to take. Of a feed only those messages are that follow its poll: any
    /// other line between closes.
    pub(crate) fn takes(&mut self, text: &[u8]) -> bool
        ensures taken { result ≡ (begins_message text.now && self.old.taking) }
        ensures feed { self.new.feed ≡ self.old.feed }
        ensures taking { self.new.taking ≡ is_taking_after self.old.feed self.old.taking text.now }
    {
        if begins_message(text) {
            return self.taking;
        }
        if let Some(feed) = self.feed {
            self.taking = polls(text, feed);
        }
        false
    }
}

/// Whether a line is to be a message's.
fn begins_message(text: &[u8]) -> bool
    ensures { result ≡ begins_message text.now }
{
    matches!(text, [b'{', ..])
}

/// Whether a transcript's line polls a feed.
fn polls(text: &[u8], feed: u64) -> bool
    ensures { result ≡ is_feed feed (polled_in text.now) }
{
    matches!(polled_in(text), Some(polled) if polled == feed)
}

/// The feed that a transcript's line polls: its third word is `poll`, and its fourth the number.
fn polled_in(text: &[u8]) -> Option<u64>
    ensures { result ≡ polled_in text.now }
{
    let mut words = words_of(text).ok()?;
    let _position = words.take_word()?;
    let _seat = words.take_word()?;
    let name = words.take_word()?;
    let feed = words.take_word()?;
    if name != b"poll".as_slice() {
        return None;
    }
    number_of(feed)
}
