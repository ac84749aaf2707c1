//! The readers of one key.
ghost use Rattle.std.specs.Prelude.{◌≡◌, ◌<◌, ◌≤◌, ◌==◌, ◌&&◌, ℕ, List, [], ◌++◌, OnOk, OnErr, IsTrue, ◌↔◌, false, length, nat_lt, filter, take, drop};
ghost use Rattle.std.specs.List.Sorted.{IsNonDecreasing};
ghost use Rattle.kept.specs.Marks.{IsBetween, IsPiece};

use smallvec::SmallVec;
use std::alloc::{AllocError, Global};
use timestamps::binary_search::BinarySearch;

/// So many readers lie in place: most keys have no more.
const IN_PLACE: usize = 2;

/// The timestamps of those that read a key.
#[derive(Drop)]
pub struct Readers {
    list: SmallVec<u64, IN_PLACE>,
    pub ghost rising: { IsNonDecreasing list.items },
}

/// Takes out what stands between two places. Mostly that is nothing, and a drain of nothing costs too.
#[inline(always)]
fn cut(list: &mut SmallVec<u64, IN_PLACE>, from: usize, to: usize)
    requires rises { from ≤ to }
    requires bound { to ≤ length list.old.items }
    ensures items { list.new.items ≡ take from list.old.items ++ drop to list.old.items }
    ensures capacity { list.new.capacity ≡ list.old.capacity }
{
    if from < to {
        list.drain(from..to);
    }
}

impl Readers {
    ghost use Rattle.read_marks.specs.Readers.{SplitsAt, has_room, is_kept, is_reader, readers_of};

    /// No readers.
    pub fn new(alloc: Global) -> Readers
        ensures { readers_of result ≡ [] }
    {
        Readers {
            list: SmallVec::new(alloc),
        }
    }

    /// One reader, or none where that is 0.
    pub fn of(alloc: Global, latest: u64) -> Readers
        ensures { (j : ℕ) → is_reader (readers_of result) j ≡ (nat_lt 0 j && (j == latest)) }
    {
        let mut list = SmallVec::new(alloc);
        if latest > 0 {
            list.push_reserved(latest);
        }
        Readers { list }
    }

    /// How many readers are at or below a timestamp. The latest is asked first, since a gap without an end has all.
    fn count_through(&self, ts: u64) -> usize
        ensures splits { SplitsAt (readers_of self.now) ts result }
        ensures bound { result ≤ length (readers_of self.now) }
    {
        let list = self.list.as_slice();
        if let Some(latest) = list.last() {
            if *latest <= ts {
                return list.len();
            }
        }
        let mut left = BinarySearch::of(list.len());
        while left.size > 0 {
            left = left.after(list[left.middle()], ts);
        }
        left.low
    }

    /// Whether a reader is above `above` and, where `to` is given, at most that. Mostly the latest tells.
    pub fn any_between(&self, above: u64, to: Option<u64>) -> bool
        ensures { IsTrue result ↔ IsBetween (is_reader (readers_of self.now)) above to }
    {
        let list = self.list.as_slice();
        let Some(latest) = list.last() else {
            return false;
        };
        if *latest <= above {
            return false;
        }
        let Some(top) = to else {
            return true;
        };
        let at = self.count_through(above);
        list[at] <= top
    }

    /// Whether each reader is at or below `through`.
    pub fn are_forgotten(&self, through: u64) -> bool
        ensures { IsTrue result ↔ ((j : ℕ) → is_kept through (readers_of self.now) j ≡ false) }
    {
        !self.any_between(through, None)
    }

    /// Makes room for one more reader.
    pub fn make_room(&mut self) -> Result<(), AllocError>
        ensures readers { readers_of self.new ≡ readers_of self.old }
        ensures room { OnOk result (has_room self.new) }
    {
        self.list.reserve(1)
    }

    /// The readers above `above` and up to `until`, and `ts`, become one: the greatest of them.
    fn merge(&mut self, ts: u64, above: u64, until: u64) -> Result<(), AllocError>
        requires low { above < ts }
        requires high { ts ≤ until }
        ensures ok { OnOk result (IsPiece (is_reader (readers_of self.old)) (is_reader (readers_of self.new)) ts above until) }
        ensures err { OnErr result (readers_of self.new ≡ readers_of self.old) }
        ensures room { OnErr result (has_room self.old → ⊥) }
    {
        let from = self.count_through(above);
        let to = self.count_through(until);
        if from < to {
            let list = self.list.as_mut_slice();
            list[from] = list[to - 1].max(ts);
            cut(&mut self.list, from + 1, to);
            Ok(())
        } else {
            self.list.insert(from, ts)?;
            Ok(())
        }
    }

    /// Of the readers above `above` and up to `until`, and `ts`, the greatest alone stays. Some of those that are forgotten
    /// may stay. Where there is room it takes no memory.
    pub fn note(
        &mut self,
        ts: u64,
        above: u64,
        until: u64,
        forgotten: u64,
    ) -> Result<(), AllocError>
        requires late { forgotten < ts }
        requires low { above < ts }
        requires high { ts ≤ until }
        ensures ok { OnOk result (IsPiece (is_kept forgotten (readers_of self.old)) (is_kept forgotten (readers_of self.new)) ts above until) }
        ensures err { OnErr result (readers_of self.new ≡ readers_of self.old) }
        ensures room { OnErr result (has_room self.old → ⊥) }
    {
        self.trim(forgotten);
        self.merge(ts, above, until)
    }

    /// The readers up to `through` go where they are half, which the one in the middle tells: not at each note, since the
    /// others move. Then there is room.
    fn trim(&mut self, through: u64)
        ensures kept { (j : ℕ) → is_kept through (readers_of self.new) j ≡ is_kept through (readers_of self.old) j }
        ensures room { has_room self.old → has_room self.new }
        ensures full { (has_room self.new → ⊥) → readers_of self.new ≡ readers_of self.old }
    {
        let middle = self.list.len().saturating_sub(1) / 2;
        match self.list.get(middle) {
            Some(reader) if *reader <= through => {
                let count = self.count_through(through);
                cut(&mut self.list, 0, count);
            }
            _ => {}
        }
    }

    /// The readers up to `through` go.
    pub fn forget_through(&mut self, through: u64)
        ensures { readers_of self.new ≡ filter (nat_lt through) (readers_of self.old) }
    {
        let count = self.count_through(through);
        cut(&mut self.list, 0, count);
    }
}
