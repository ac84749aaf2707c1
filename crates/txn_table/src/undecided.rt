//! The iterator over undecided timestamps.
ghost use Rattle.std.specs.Prelude.{length, List, ℕ};
ghost use Rattle.std.specs.Iterator.{at_most};
ghost use Rattle.std.specs.Map.Iter.{TakesFirst, deref};
ghost use Rattle.std.specs.Map.{keys_of};

use std::collections::btree_map::Range;
use std::iter::Iterator;
use std::marker::Model;
use timestamps::TsKey;

/// Undecided timestamps, rising, each as it is asked for.
#[derive(Drop)]
pub struct Undecided<'a> {
    pub(crate) seats: Range<'a, TsKey, u8>,
}

impl<'a> Model for Undecided<'a> {
    ghost Value = { List ℕ };

    ghost view = { λ u. keys_of u.seats };
}

impl<'a> Iterator for Undecided<'a> {
    type Item = &'a TsKey;

    ghost next_gives = { TakesFirst deref };

    ghost remaining = { λ s. at_most (length s) };

    #[inline]
    fn next(&mut self) -> Option<&'a TsKey> {
        let (ts, _) = self.seats.next()?;
        Some(ts)
    }
}
