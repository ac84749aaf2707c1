//! Keys and their numbers.
ghost use Rattle.std.specs.Prelude.{◌≡◌, ◌↔◌, ◌≤◌, ℕ, List, [], Some, None, IfSome, IfOk, OnErr, true};
ghost use Rattle.std.specs.Option.{option_copied};
ghost use Rattle.std.specs.Map.{keys_of};
ghost use Rattle.std.specs.List.Sorted.{IsStrictlySortedBy};
ghost use Rattle.std.specs.Range.Bound.{bound_map};
ghost use Rattle.std.specs.BTreeMap.Range.{entries_between};
ghost use Rattle.std.specs.declared.ops.Bound.TheVariants.{Unbounded};
ghost use Rattle.timestamps.specs.Bytes.{key_cmp};
ghost use Rattle.key_table.specs.Numbers.{number_in, AreApart, IsNumberedAt, IsOwn, Numbered, AreTied};

use crate::hints::{Hints, PLACES, hash_of};
use slab::Slab;
use std::alloc::{AllocError, Global};
use std::collections::BTreeMap;
use std::collections::btree_map::Range;
use std::marker::Model;
use std::ops::Bound;
use timestamps::Key;

/// Keys, each with its number.
#[derive(Drop)]
pub struct KeyTable {
    alloc: Global,
    numbers: BTreeMap<Key, usize>,
    /// The key of each number.
    keys: Slab<Key>,
    hints: Hints,
}

impl Model for KeyTable {
    ghost Value = { Numbered };

    ghost view = { λ t. t.numbers.entries };

    ghost invariant = { λ t. AreTied t.numbers t.keys };
}

impl KeyTable {
    /// No key.
    pub fn new(alloc: Global) -> KeyTable
        ensures { result ≡ [] }
    {
        KeyTable {
            alloc,
            numbers: BTreeMap::new(alloc),
            keys: Slab::new(alloc),
            hints: Hints::new(alloc),
        }
    }

    /// The number of a key, where it has one. No other key has it.
    pub fn number_of(&self, key: &Key) -> Option<usize>
        ensures number { result ≡ number_in self.now key.now }
        ensures own { IfSome result (λ n. IsOwn self.now key.now n) }
    {
        let numbers = &self.numbers;
        let hinted = self.number_by_hints(key);
        hinted.or_else(|| numbers.get(key).copied())
    }

    /// The number of a key once more, where it has one, after it had the number `before`, or none. That is tried in place of the
    /// hints.
    pub fn number_again(&self, key: &Key, before: Option<usize>) -> Option<usize>
        ensures number { result ≡ number_in self.now key.now }
        ensures own { IfSome result (λ n. IsOwn self.now key.now n) }
    {
        match before {
            Some(number) if self.is_at(key, number) => Some(number),
            _ => self.numbers.get(key).copied(),
        }
    }

    /// The number of a key, where a hint leads to it.
    #[inline(always)]
    fn number_by_hints(&self, key: &Key) -> Option<usize>
        ensures { IfSome result (λ n. number_in self.now key.now ≡ Some n) }
    {
        let hash = hash_of(key);
        for which in 0..PLACES {
            if let Some(number) = self.hints.at(hash, which)
                && self.is_at(key, number)
            {
                return Some(number);
            }
        }
        None
    }

    /// Whether a number is that of a key.
    #[inline(always)]
    fn is_at(&self, key: &Key, number: usize) -> bool
        ensures { result ≡ true → number_in self.now key.now ≡ Some number }
    {
        match self.keys.get(number) {
            None => false,
            Some(own) => own == key,
        }
    }

    /// The key of a number, where it is one.
    pub fn key_of(&self, number: usize) -> Option<&Key>
        ensures { (x : List ℕ) → (number_in self.now x ≡ Some number) ↔ (option_copied result ≡ Some x) }
    {
        self.keys.get(number)
    }

    /// The keys from a start on, rising, each with its number. It goes straight to the first.
    pub fn range_from<'a>(&'a self, start: Bound<&'a Key>) -> Range<'a, Key, usize>
        ensures rest { result ≡ entries_between key_cmp (bound_map (λ k. k.now) start.entry) Unbounded self.now }
        ensures rising { IsStrictlySortedBy key_cmp (keys_of self.now) }
        ensures apart { AreApart self.now }
    {
        self.numbers.range((start, Bound::Unbounded))
    }

    /// Gives a number to a key that has none. It is one that was freed, or the one above all that there have been. So it is
    /// never above `most`, where a caller has a place for each number below that, and else it is refused.
    pub fn add(&mut self, key: &Key, most: usize) -> Result<usize, AllocError>
        requires new { number_in self.old key.now ≡ None }
        ensures number { IfOk result (λ n. IsNumberedAt self.old self.new key.now (Some n)) }
        ensures own { IfOk result (λ n. IsOwn self.new key.now n) }
        ensures low { IfOk result (λ n. n ≤ most) }
        ensures err { OnErr result (self.new ≡ self.old) }
    {
        let number = self.keys.vacant_key();
        // a slab's own contract doesn't say that it counts on
        if number > most {
            return Err(AllocError);
        }
        let own = key.copy()?;
        let placed = key.copy()?;
        self.keys.reserve(1)?;
        self.numbers.insert(placed, number)?;
        let _ = self.keys.insert_reserved(own);
        self.hints.note(self.alloc, &self.keys, key, number);
        Ok(number)
    }

    /// Takes its number from a key. It takes no memory.
    pub fn free(&mut self, key: &Key, number: usize)
        requires { number_in self.old key.now ≡ Some number }
        ensures { IsNumberedAt self.old self.new key.now None }
    {
        self.free_at(number);
    }

    /// Takes its number from the key that has it. It takes no memory.
    pub fn free_at(&mut self, number: usize)
        requires { (x : List ℕ) × (number_in self.old x ≡ Some number) }
        ensures { (x : List ℕ) → number_in self.old x ≡ Some number → IsNumberedAt self.old self.new x None }
    {
        let key = self.keys.remove(number);
        self.hints.take(&key, number);
        self.numbers.remove(&key);
    }
}
