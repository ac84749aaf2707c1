//! The reads of one transaction that the checker keeps: of keys and of spans, each with where its values came from.
//!
//! A scan reads every key of its span, also a key that no one has written yet. A write of such a key below
//! the scan would change what the scan has seen.
ghost use Rattle.std.specs.Prelude.{◌≡◌, ◌++◌, ◌∷◌, ℕ, List, [], OnErr, OnOk, bytes_eq, if◌then◌else◌};
ghost use Rattle.std.specs.List.{list_any};
ghost use Rattle.plain_database.specs.declared.versions.reads.Read.{Read};
ghost use Rattle.plain_database.specs.Table.{is_across, source_found};

use spans::Span;
use std::alloc::{AllocError, Global};
use std::collections::BTreeMap;
use std::marker::Model;
use timestamps::Key;

/// A read, with the timestamp of the version that it was given.
#[derive(Drop)]
pub enum Read {
    Key { key: Key, source: u64 },
    Span { span: Span, sources: FoundKeys },
}

/// The keys that a scan found, each with the timestamp of the version that it was given.
#[derive(Drop)]
pub struct FoundKeys {
    map: BTreeMap<Key, u64>,
}

/// The reads of one transaction.
#[derive(Drop)]
pub struct ReadList {
    list: Vec<Read>,
}

impl Model for FoundKeys {
    ghost use Rattle.std.specs.Prelude.{ℕ, List};

    ghost Value = { List (List ℕ × ℕ) };

    ghost view = { λ s. s.map.entries };
}

impl Model for ReadList {
    ghost use Rattle.std.specs.Prelude.{List};
    ghost use Rattle.plain_database.specs.declared.versions.reads.Read.{Read};

    ghost Value = { List Read };

    ghost view = { λ r. r.list.items };
}

impl Read {
    /// Whether it was given a version of the key from below `ts`.
    fn is_across(&self, key: &Key, ts: u64) -> bool
        ensures { result ≡ is_across key.now ts self.now }
    {
        match self {
            Read::Key { key: read, source } => read == key && *source < ts,
            Read::Span { span, sources } => span.contains(key) && sources.of(key) < ts,
        }
    }
}

impl FoundKeys {
    /// No key.
    pub fn new(alloc: Global) -> FoundKeys
        ensures { result ≡ [] }
    {
        FoundKeys {
            map: BTreeMap::new(alloc),
        }
    }

    /// Takes in a key.
    #[tactic(auto, using(crate::proofs::ReadSteps::found_put))]
    pub fn add(&mut self, key: &Key, ts: u64) -> Result<(), AllocError>
        ensures { OnOk result ((x : List ℕ) →
            source_found self.new x ≡ (if bytes_eq key.now x then ts else source_found self.old x)) }
    {
        self.map.insert(key.copy()?, ts)?;
        Ok(())
    }

    /// The timestamp of the version that the scan was given of a key; 0 where it didn't find the key.
    pub fn of(&self, key: &Key) -> u64
        ensures { result ≡ source_found self.now key.now }
    {
        self.map.get(key).map_or(0, |ts| *ts)
    }
}

impl ReadList {
    /// No read.
    pub fn new(alloc: Global) -> ReadList
        ensures { result ≡ [] }
    {
        ReadList {
            list: Vec::new(alloc),
        }
    }

    /// Takes in a read.
    pub fn add(&mut self, read: Read) -> Result<(), AllocError>
        ensures ok { OnOk result (self.new ≡ self.old ++ read ∷ []) }
        ensures err { OnErr result (self.new ≡ self.old) }
    {
        self.list.push(read)?;
        Ok(())
    }

    /// Whether some read was given a version of the key from below `ts`.
    pub fn any_across(&self, key: &Key, ts: u64) -> bool
        ensures { result ≡ list_any (is_across key.now ts) self.now }
    {
        self.list.iter().any(|read| read.is_across(key, ts))
    }
}
