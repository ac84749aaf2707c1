//! Who may have written each key: the checker's index over its transactions. Nothing is ever taken out of it, so a
//! writer that ran out of memory stays, as one does that was aborted, and whoever asks looks the write up.
ghost use Rattle.std.specs.Prelude.{◌≡◌, ◌≤◌, ℕ, List, [], OnOk, filter, length, true};
ghost use Rattle.std.specs.Iterator.{at_most};
ghost use Rattle.std.specs.Map.{keys_of};
ghost use Rattle.std.specs.Map.Iter.{TakesFirst, deref};
ghost use Rattle.std.specs.Range.Bound.{bound_map};
ghost use Rattle.plain_database.specs.Prelude.{RisingKeys, in_span, start_of};
ghost use Rattle.plain_database.specs.Table.{IsLast, is_listed, Listed};
ghost use Rattle.plain_database.specs.Replies.{AreAhead};

use spans::bound::is_below;
use spans::{Bound, Span};
use std::alloc::{AllocError, Global};
use std::collections::btree_map::Range;
use std::collections::{BTreeMap, BTreeSet};
use std::iter::{DoubleEndedIterator, Iterator};
use std::marker::Model;
use std::ops;
use timestamps::{Key, MAX_KEY_BYTES, TsKey};

/// Each key that a transaction may have written, with the timestamps of these.
#[derive(Drop)]
pub struct Writers {
    alloc: Global,
    map: BTreeMap<Key, BTreeSet<TsKey>>,
}

impl Model for Writers {
    ghost Value = { Listed };

    ghost view = { λ w. w.map.entries };
}

impl Writers {
    /// No key.
    pub fn new(alloc: Global) -> Writers
        ensures { result ≡ [] }
    {
        Writers {
            alloc,
            map: BTreeMap::new(alloc),
        }
    }

    /// Lists a writer of a key. What is listed stays, also where memory is lacking.
    pub fn add(&mut self, key: &Key, ts: u64) -> Result<(), AllocError>
        ensures keeps { (x : List ℕ) (i : ℕ) → is_listed self.old x i ≡ true → is_listed self.new x i ≡ true }
        ensures listed { OnOk result (is_listed self.new key.now ts ≡ true) }
    {
        let alloc = self.alloc;
        let key = key.copy()?;
        let writers = self.map.entry(key)?.or_insert_with(|| BTreeSet::new(alloc));
        writers.insert(TsKey(ts))?;
        Ok(())
    }

    /// The last writer of a key at or below `ts`.
    pub fn last(&self, key: &Key, ts: u64) -> Option<u64>
        ensures { IsLast (is_listed self.now key.now) ts result }
    {
        let writer = self.map.get(key)?.range(..=TsKey(ts)).next_back()?;
        Some(writer.0)
    }

    /// The keys of a span, rising. It goes straight to the first.
    pub(crate) fn keys_in<'a>(&'a self, span: &'a Span) -> KeysIn<'a>
        ensures those { result ≡ filter (in_span span.now) (keys_of self.now) }
        ensures rising { RisingKeys (keys_of self.now) }
    {
        let ahead = self.map.range((start_at(&span.lo), ops::Bound::Unbounded));
        KeysIn { span, ahead }
    }
}

/// The listed keys of a span, rising. It ends at the first key above the span.
#[derive(Drop)]
pub(crate) struct KeysIn<'a> {
    span: &'a Span,
    ahead: Range<'a, Key, BTreeSet<TsKey>>,
}

impl<'a> Model for KeysIn<'a> {
    ghost Value = { List (List ℕ) };

    ghost view = { λ s. filter (in_span s.span.now) (keys_of s.ahead) };

    ghost invariant = { λ s. AreAhead s.span.now.lo (keys_of s.ahead) };
}

impl<'a> Iterator for KeysIn<'a> {
    type Item = &'a Key;

    ghost next_gives = { TakesFirst deref };

    ghost remaining = { λ s. at_most (length s) };

    fn next(&mut self) -> Option<&'a Key> {
        let (key, _) = self.ahead.next()?;
        // so it isn't below the span: a longer one might be, where the span's beginning is longer too
        prove!(key.bytes().len() <= MAX_KEY_BYTES);
        if !is_below(&self.span.hi, key) {
            return None;
        }
        Some(key)
    }
}

/// The bound from which keys are asked for, where there is one.
fn start_at(low: &Option<Bound>) -> ops::Bound<&Key>
    ensures { bound_map (λ k. k.now) result ≡ start_of low.now }
{
    low.as_ref()
        .map_or(ops::Bound::Unbounded, |low| low.start())
}
