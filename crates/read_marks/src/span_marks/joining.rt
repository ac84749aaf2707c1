//! The joining of starts whose latest reader is that of the start before.
ghost use Rattle.std.specs.Prelude.{◌≡◌};
ghost use Rattle.std.specs.BTreeMap.{IsOrdered};
ghost use Rattle.timestamps.specs.Bytes.{key_cmp};
ghost use Rattle.read_marks.specs.Spans.{KeepsLatest, latest_below};

use super::SpanMarks;
use std::ops::Bound;
use timestamps::SmallBytes;

impl SpanMarks {
    /// The latest reader just below a start, or 0.
    fn latest_below(&self, start: &SmallBytes) -> u64
        ensures latest { result ≡ latest_below self.now start.now }
        ensures ordered { IsOrdered key_cmp self.now.starts }
    {
        let below = (Bound::Unbounded, Bound::Excluded(start));
        match self.starts.range(below).next_back() {
            None => 0,
            Some((_, latest)) => *latest,
        }
    }

    /// Joins a start with the one before it, where both have the same reader.
    fn join_at(&mut self, start: &SmallBytes)
        ensures { KeepsLatest self.old self.new }
    {
        if self.starts.get(start).copied() == Some(self.latest_below(start)) {
            self.starts.remove(start);
        }
    }

    /// The greatest start from `lo` on and up to `end` that has the reader of the one before it. It finds none where the
    /// copy of a long start is refused. A later call joins that one.
    fn last_repeated(&self, lo: &SmallBytes, end: Bound<&SmallBytes>) -> Option<SmallBytes> {
        let mut later: Option<(&SmallBytes, u64)> = None;
        for (start, latest) in self.starts.range((Bound::Unbounded, end)).rev() {
            if let Some((next, next_latest)) = later {
                if next_latest == *latest {
                    return next.copy().ok();
                }
            }
            if start < lo {
                return None;
            }
            later = Some((start, *latest));
        }
        match later {
            Some((first, 0)) => first.copy().ok(),
            _ => None,
        }
    }

    /// Joins the starts from `lo` on and up to `hi`, that included, the last of them first. What follows one that goes was
    /// compared with the same reader.
    pub(super) fn join(&mut self, lo: &SmallBytes, hi: Option<&SmallBytes>)
        ensures { KeepsLatest self.old self.new }
    {
        let end = match hi {
            None => Bound::Unbounded,
            Some(hi) => Bound::Included(hi),
        };
        let mut found = self.last_repeated(lo, end);
        for _ in 0..self.starts.len() {
            let Some(start) = found else {
                return;
            };
            self.join_at(&start);
            found = self.last_repeated(lo, Bound::Excluded(&start));
        }
    }
}
