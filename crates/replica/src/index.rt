//! The index by value beneath the rows: which keys have each value.
ghost use Rattle.std.specs.Prelude.{◌≡◌, ◌&&◌, ◌||◌, ◌↔◌, ℕ, List, Some, false, true, refl, bytes_eq, if◌then◌else◌, OnOk, OnErr, IfOk};
ghost use Rattle.std.specs.Cmp.{partial_equiv_from_equiv};
ghost use Rattle.std.specs.Cmp.Lexicographic.{nat_list_eq_equiv, nat_list_cmp_total, texts_ties, texts_po};
ghost use Rattle.replica.specs.Prelude.{IsIn, RisingKeys, key_cmp};
ghost use Rattle.replica.specs.Rows.{is_listed, Keyed, AreSome};

use std::alloc::{AllocError, Global};
use std::cmp::Ordering;
use std::collections::{BTreeMap, BTreeSet};
use std::marker::Model;
use timestamps::{Key, Value};

/// The keys of each value that some key has. A value without a key is not kept.
#[derive(Debug, Drop)]
pub(crate) struct Index {
    alloc: Global,
    keys: BTreeMap<Content, BTreeSet<Key>>,
}

impl Model for Index {
    ghost Value = { Keyed };

    ghost view = { λ i. i.keys.entries };

    ghost invariant = { λ i. AreSome i.keys.entries };
}

impl Index {
    /// No key.
    pub(crate) fn new(alloc: Global) -> Index
        ensures { (x v : List ℕ) → is_listed result x v ≡ false }
    {
        Index {
            alloc,
            keys: BTreeMap::new(alloc),
        }
    }

    /// Adds a key under a value, where it may be.
    pub(crate) fn add(&mut self, value: &Value, key: &Key) -> Result<(), AllocError>
        ensures ok { OnOk result ((x v : List ℕ) → is_listed self.new x v
            ≡ ((bytes_eq value.now v && bytes_eq key.now x) || is_listed self.old x v)) }
        ensures err { OnErr result ((x v : List ℕ) → is_listed self.new x v ≡ is_listed self.old x v) }
    {
        let key = key.copy()?;
        let content = Content(value.copy()?);
        match self.keys.get_mut(&content) {
            Some(keys) => {
                keys.insert(key)?;
            }
            None => {
                let mut keys = BTreeSet::new(self.alloc);
                keys.insert(key)?;
                self.keys.insert(content, keys)?;
            }
        }
        Ok(())
    }

    /// Takes a key, where it is there, out under a value. It takes no memory.
    pub(crate) fn remove(&mut self, value: Value, key: &Key)
        ensures { (x v : List ℕ) → is_listed self.new x v
            ≡ (if bytes_eq value v && bytes_eq key.now x then false else is_listed self.old x v) }
    {
        let content = Content(value);
        let Some(keys) = self.keys.get_mut(&content) else {
            return;
        };
        keys.remove(key);
        if keys.is_empty() {
            self.keys.remove(&content);
        }
    }

    /// Copies of the keys under a value, rising.
    pub(crate) fn keys_of(&self, alloc: Global, value: &Value) -> Result<Vec<Key>, AllocError>
        ensures rising { IfOk result (λ keys. RisingKeys keys.items) }
        ensures exact { IfOk result (λ keys. (x : List ℕ) → IsIn x keys.items ↔ (is_listed self.now x value.now ≡ true)) }
    {
        let content = Content(value.copy()?);
        let Some(keys) = self.keys.get(&content) else {
            return Ok(Vec::new(alloc));
        };
        copies(alloc, keys)
    }
}

/// Copies of the keys of a set, rising.
fn copies(alloc: Global, keys: &BTreeSet<Key>) -> Result<Vec<Key>, AllocError>
    ensures all { IfOk result (λ copies. copies.items ≡ keys.now.keys) }
    ensures rising { IfOk result (λ copies. RisingKeys copies.items) }
{
    let mut copies = Vec::new(alloc);
    for key in keys.iter() {
        copies.push(key.copy()?)?;
    }
    Ok(copies)
}

/// A value, ordered byte by byte.
#[derive(Debug, Drop)]
struct Content(Value);

impl Model for Content {
    ghost Value = { List ℕ };

    ghost view = { λ c. c.0 };
}

impl PartialEq for Content {
    ghost eq = { bytes_eq };

    ghost laws = { partial_equiv_from_equiv nat_list_eq_equiv };

    fn eq(&self, other: &Content) -> bool {
        self.0.bytes() == other.0.bytes()
    }
}

impl Eq for Content {
    ghost laws = { nat_list_eq_equiv };
}

impl PartialOrd for Content {
    ghost partial_cmp = { λ a b. Some (key_cmp a b) };

    ghost laws = { texts_po };

    fn partial_cmp(&self, other: &Content) -> Option<Ordering> {
        Some(self.cmp(other))
    }
}

impl Ord for Content {
    ghost cmp = { key_cmp };

    ghost total = { nat_list_cmp_total };

    ghost matches_partial_cmp = { λ a b. refl };

    ghost matches_eq = { texts_ties };

    fn cmp(&self, other: &Content) -> Ordering {
        self.0.bytes().cmp(other.0.bytes())
    }
}
