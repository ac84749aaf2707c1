//! What one of the checker's transactions wrote.
ghost use Rattle.std.specs.Prelude.{◌≡◌, [], OnErr, OnOk, length, ℕ, List};
ghost use Rattle.std.specs.BTreeMap.{insert_entry, is_at};
ghost use Rattle.std.specs.Map.{lookup};
ghost use Rattle.std.specs.Option.{option_copied};
ghost use Rattle.plain_database.specs.Prelude.{key_cmp, After};

use std::alloc::{AllocError, Global};
use std::collections::BTreeMap;
use std::marker::Model;
use timestamps::{Key, Value};

/// Each key that a transaction wrote, with the value that it wrote last, or `None` for a delete.
#[derive(Drop)]
pub struct Writes {
    pub(crate) map: BTreeMap<Key, Option<Value>>,
}

impl Model for Writes {
    ghost Value = { List (List ℕ × After) };

    ghost view = { λ w. w.map.entries };
}

impl Writes {
    /// Nothing.
    pub fn new(alloc: Global) -> Writes
        ensures { result ≡ [] }
    {
        Writes {
            map: BTreeMap::new(alloc),
        }
    }

    /// How many keys there are.
    pub fn len(&self) -> u64
        ensures { result ≡ length self.now }
    {
        self.map.len() as u64
    }

    /// The write of a key, if there is one.
    pub fn get(&self, key: &Key) -> Option<&Option<Value>>
        ensures { option_copied result ≡ lookup (is_at (key_cmp key.now)) self.now }
    {
        self.map.get(key)
    }

    /// Takes in a write, in the place of an earlier one of the same key.
    pub fn write(&mut self, key: &Key, after: Option<Value>) -> Result<(), AllocError>
        ensures ok { OnOk result (self.new ≡ insert_entry key_cmp self.old key.now after) }
        ensures err { OnErr result (self.new ≡ self.old) }
    {
        self.map.insert(key.copy()?, after)?;
        Ok(())
    }
}
