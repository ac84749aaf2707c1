//! The kinds of feeds.
ghost use Rattle.std.specs.Prelude.{true, ◌≡◌, ◌<◌};
ghost use Rattle.spans.specs.Feeds.{start_at, is_due};

/// A feed's kind: what it tells first, and how far apart its resolved messages lie.
#[derive(Clone, Copy, Debug, PartialEq, Eq)]
pub struct Kind {
    /// It tells what its span holds at the cursor first, as rows at the cursor, and then the versions above.
    pub initial: bool,
    /// Its resolved timestamps lie this far apart at least. Without a gap each closing may be told.
    pub gap: Option<u64>,
}

impl Kind {
    /// The start of a feed of this kind: all that it tells is above this.
    pub fn start(self, cursor: u64) -> u64
        ensures { result ≡ start_at self cursor }
    {
        if self.initial {
            cursor.saturating_sub(1)
        } else {
            cursor
        }
    }

    /// Whether `closed` is due as a resolved timestamp after `resolved`, the last one or the start.
    pub fn is_due(self, resolved: u64, closed: u64) -> bool
        ensures due { result ≡ is_due self resolved closed }
        ensures above { result ≡ true → resolved < closed }
    {
        resolved < closed && self.gap.unwrap_or(0) <= closed - resolved
    }
}
