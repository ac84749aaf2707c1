//! The keys of a set.
ghost use Rattle.std.specs.Prelude.{◌≡◌, ◌∷◌, ◌↔◌, ◌<◌, ◌^◌, ℕ, List, [], IsTrue, IfOk, OnOk, OnErr, bytes_eq, true, false, filter, if◌then◌else◌, length, not};
ghost use Rattle.std.specs.BTreeMap.{is_at};
ghost use Rattle.std.specs.Fn.{CalledAt};
ghost use Rattle.std.specs.List.Retain.{IsFiltered};
ghost use Rattle.std.specs.Iterator.{at_most};
ghost use Rattle.std.specs.Map.Iter.{TakesFirst, deref};
ghost use Rattle.std.specs.Set.{remove_key};
ghost use Rattle.std.specs.declared.cmp.Ordering.TheVariants.{Less};
ghost use Rattle.spans.proofs.Keyed.{RisingKeys};
ghost use Rattle.spans.specs.KeyOrder.{key_lt};
ghost use Rattle.timestamps.specs.Bytes.{key_cmp};
ghost use Rattle.spans.specs.Keys.{insert_key};
ghost use Rattle.spans.proofs.WriteSets.{has};
ghost use Rattle.key_set.specs.Sets.{AreInOrder, keys_in};
ghost use Rattle.std.specs.Option.{option_copied};

use std::alloc::{AllocError, Global};
use std::cmp::Ordering;
use std::collections::BTreeSet;
use std::collections::btree_set::Range;
use std::iter::Iterator;
use std::marker::Model;
use std::mem;
use std::ops::Bound;
use timestamps::Key;

/// Keys in rising order, each once.
#[derive(Drop)]
pub struct KeySet {
    least: Option<Key>,
    others: BTreeSet<Key>,
}

impl Model for KeySet {
    ghost Value = { List (List ℕ) };

    ghost view = { λ s. keys_in s.least s.others.keys };

    ghost invariant = { λ s. AreInOrder s.least s.others.keys };
}

impl KeySet {
    /// No key.
    pub fn new(alloc: Global) -> KeySet
        ensures { result ≡ [] }
    {
        KeySet {
            least: None,
            others: BTreeSet::new(alloc),
        }
    }

    /// One key. It takes no memory.
    pub fn of(alloc: Global, key: Key) -> KeySet
        ensures { result ≡ key ∷ [] }
    {
        KeySet {
            least: Some(key),
            others: BTreeSet::new(alloc),
        }
    }

    /// How many keys there are.
    pub fn len(&self) -> usize
        ensures count { result ≡ length self.now }
        ensures rising { RisingKeys self.now }
    {
        match self.least {
            None => 0,
            Some(_) => 1 + self.others.len(),
        }
    }

    /// Whether it has no key.
    pub fn is_empty(&self) -> bool
        ensures { IsTrue result ↔ (self.now ≡ []) }
    {
        self.least.is_none()
    }

    /// Adds a copy of a key, unless it is there, and answers whether it is new. Adding a key that is there never wants
    /// memory, nor does adding a first key of up to 24 bytes.
    pub fn add(&mut self, key: &Key) -> Result<bool, AllocError>
        ensures new { IfOk result (λ new. new ≡ not (has key.now self.old)) }
        ensures ok { OnOk result (self.new ≡ insert_key key.now self.old) }
        ensures known { IfOk result (λ new. new ≡ false → self.new ≡ self.old) }
        ensures err { OnErr result (self.new ≡ self.old) }
        ensures absent { OnErr result (has key.now self.old ≡ false) }
        ensures alone { OnErr result (self.old ≡ [] → 24 < length key.now) }
    {
        let Some(least) = &mut self.least else {
            let key = key.copy()?;
            self.least = Some(key);
            return Ok(true);
        };
        match key.cmp(least) {
            Ordering::Less => add_below(least, &mut self.others, key),
            Ordering::Equal => Ok(false),
            Ordering::Greater => add_to(&mut self.others, key),
        }
    }

    /// Takes a key out, and answers whether it was there.
    pub fn remove(&mut self, key: &Key) -> bool
        ensures keys { self.new ≡ remove_key (λ y. bytes_eq y key.now) self.old }
        ensures other_keys { (y : List ℕ) → has y self.new ≡ (if bytes_eq key.now y then false else has y self.old) }
        ensures found { result ≡ has key.now self.old }
    {
        let Some(least) = &self.least else {
            return false;
        };
        match key.cmp(least) {
            Ordering::Less => false,
            Ordering::Equal => {
                put_next(&mut self.least, &mut self.others);
                true
            }
            Ordering::Greater => {
                let found = self.others.remove(key);
                free_empty(&mut self.others);
                found
            }
        }
    }

    /// Keeps the keys for which the test answers `true`. The test is asked once of each key, in rising order.
    pub fn retain<F: FnMut(&Key) -> bool>(&mut self, mut test: F)
        requires { F.IsAlwaysCallable test }
        ensures { IsFiltered (CalledAt F.FnMut) test self.old self.new }
    {
        let Some(least) = &self.least else {
            return;
        };
        let stays = test(least);
        self.others.retain(test);
        free_empty(&mut self.others);
        if !stays {
            put_next(&mut self.least, &mut self.others);
        }
    }

    /// All keys, rising.
    pub fn iter(&self) -> Keys<'_>
        ensures keys { result ≡ self.now }
        ensures rising { RisingKeys result }
        ensures fits { length result < 2 ^ 64 }
    {
        Keys {
            least: self.least.as_ref(),
            others: self.others.range(..),
        }
    }

    /// The keys above this one, rising.
    pub fn above(&self, key: &Key) -> Keys<'_>
        ensures keys { result ≡ filter (key_lt key.now) self.now }
        ensures rising { RisingKeys result }
    {
        let least = self.least.as_ref().filter(|least| key < *least);
        let others = self.others.range((Bound::Excluded(key), Bound::Unbounded));
        Keys { least, others }
    }
}

/// Keys of a set, rising, each as it is asked for.
#[derive(Drop)]
pub struct Keys<'a> {
    least: Option<&'a Key>,
    others: Range<'a, Key>,
}

impl<'a> Model for Keys<'a> {
    ghost Value = { List (List ℕ) };

    ghost view = { λ k. keys_in (option_copied k.least) k.others };
}

impl<'a> Iterator for Keys<'a> {
    type Item = &'a Key;

    ghost next_gives = { TakesFirst deref };

    ghost remaining = { λ s. at_most (length s) };

    #[inline]
    fn next(&mut self) -> Option<&'a Key> {
        match self.least.take() {
            None => self.others.next(),
            Some(key) => Some(key),
        }
    }
}

// The next of the others, if there is one, comes into the place of the least.
fn put_next(least: &mut Option<Key>, others: &mut BTreeSet<Key>)
    requires { RisingKeys others.old.keys }
    ensures keys { keys_in least.new others.new.keys ≡ others.old.keys }
    ensures order { AreInOrder least.new others.new.keys }
{
    *least = others.pop_first();
    free_empty(others);
}

// Frees the node that a set of std keeps when its last key has gone.
fn free_empty(keys: &mut BTreeSet<Key>)
    ensures { keys.new.keys ≡ keys.old.keys }
{
    if keys.is_empty() {
        keys.clear();
    }
}

// Puts a copy of a lower key in the place of the least, which goes to the others.
fn add_below(least: &mut Key, others: &mut BTreeSet<Key>, key: &Key) -> Result<bool, AllocError>
    requires rising { RisingKeys (least.old ∷ others.old.keys) }
    requires below { key_cmp key.now least.old ≡ Less }
    ensures new { IfOk result (λ new. new ≡ true) }
    ensures ok { OnOk result (least.new ∷ others.new.keys ≡ key.now ∷ least.old ∷ others.old.keys) }
    ensures err { OnErr result (least.new ∷ others.new.keys ≡ least.old ∷ others.old.keys) }
{
    let key = key.copy()?;
    let above = mem::replace(least, key);
    match others.insert(above) {
        Ok(_) => Ok(true),
        Err(refused) => {
            *least = refused.value;
            Err(AllocError)
        }
    }
}

// Adds a copy of a key to a set of std, unless it is there, and answers whether it is new.
fn add_to(keys: &mut BTreeSet<Key>, key: &Key) -> Result<bool, AllocError>
    requires rising { RisingKeys keys.old.keys }
    ensures new { IfOk result (λ new. new ≡ not (has key.now keys.old.keys)) }
    ensures ok { OnOk result (keys.new.keys ≡ insert_key key.now keys.old.keys) }
    ensures known { IfOk result (λ new. new ≡ false → keys.new.keys ≡ keys.old.keys) }
    ensures err { OnErr result (keys.new.keys ≡ keys.old.keys) }
    ensures absent { OnErr result (has key.now keys.old.keys ≡ false) }
{
    if keys.contains(key) {
        return Ok(false);
    }
    let key = key.copy()?;
    keys.insert(key)?;
    Ok(true)
}
