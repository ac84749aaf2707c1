//! The rows beneath a replica, by key and with an index by value in step.
ghost use Rattle.std.specs.Prelude.{◌≡◌, ℕ, List, [], None, Some, IsSome, OnOk, OnErr, IfOk, length};
ghost use Rattle.std.specs.Option.{option_copied};
ghost use Rattle.replica.specs.Prelude.{put};
ghost use Rattle.replica.specs.Rows.{value_at, AreRowsOf, AreKeysWith, IsIndexOf};

use crate::index::Index;
use std::alloc::{AllocError, Global};
use std::collections::BTreeMap;
use std::collections::btree_map::Iter;
use std::marker::Model;
use timestamps::{Key, Value};

/// The value of each key that has one, and the keys of each value.
#[derive(Debug, Drop)]
pub(crate) struct Table {
    rows: BTreeMap<Key, Value>,
    index: Index,
}

impl Model for Table {
    ghost Value = { List (List ℕ × List ℕ) };

    ghost view = { λ t. t.rows.entries };

    ghost invariant = { λ t. IsIndexOf t.rows.entries t.index };
}

impl Table {
    /// No row.
    pub(crate) fn new(alloc: Global) -> Table
        ensures { result ≡ [] }
    {
        Table {
            rows: BTreeMap::new(alloc),
            index: Index::new(alloc),
        }
    }

    /// Puts a value at a key. Where it is out of memory nothing has changed: what was listed is taken out again,
    /// which wants none.
    fn put(&mut self, key: &Key, value: Value) -> Result<(), AllocError>
        ensures ok { OnOk result ((x : List ℕ) → value_at self.new x ≡ put (value_at self.old) key.now (Some value) x) }
        ensures err { OnErr result (self.new ≡ self.old) }
    {
        if self.rows.get(key).is_some_and(|held| *held == value) {
            return Ok(());
        }
        let own = key.copy()?;
        self.index.add(&value, key)?;
        match self.rows.insert(own, value) {
            Err(refused) => {
                let (_, value) = refused.value;
                self.index.remove(value, key);
                Err(AllocError)
            }
            Ok(None) => Ok(()),
            Ok(Some(before)) => {
                self.index.remove(before, key);
                Ok(())
            }
        }
    }

    /// Takes in what a row left at a key.
    pub(crate) fn change(&mut self, key: &Key, after: Option<Value>) -> Result<(), AllocError>
        ensures ok { OnOk result ((x : List ℕ) → value_at self.new x ≡ put (value_at self.old) key.now after x) }
        ensures err { OnErr result (self.new ≡ self.old) }
        ensures memory { OnErr result (IsSome after) }
    {
        match after {
            None => {
                if let Some(before) = self.rows.remove(key) {
                    self.index.remove(before, key);
                }
                Ok(())
            }
            Some(value) => self.put(key, value),
        }
    }

    /// The value of a key.
    pub(crate) fn get(&self, key: &Key) -> Option<&Value>
        ensures { option_copied result ≡ value_at self.now key.now }
    {
        self.rows.get(key)
    }

    /// How many rows there are.
    pub(crate) fn len(&self) -> usize
        ensures all { result ≡ length self.now }
        ensures rows { AreRowsOf (value_at self.now) self.now }
    {
        self.rows.len()
    }

    /// The rows, keys rising.
    pub(crate) fn iter(&self) -> Iter<'_, Key, Value>
        ensures all { result ≡ self.now }
        ensures rows { AreRowsOf (value_at self.now) result }
    {
        self.rows.iter()
    }

    /// Copies of the keys that have a value, rising.
    pub(crate) fn keys_with(&self, alloc: Global, value: &Value) -> Result<Vec<Key>, AllocError>
        ensures { IfOk result (λ keys. AreKeysWith (value_at self.now) value.now keys.items) }
    {
        self.index.keys_of(alloc, value)
    }
}
