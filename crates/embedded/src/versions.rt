//! The versions of several keys at a timestamp, which an operator or a cache asks for beside the commands. No call is made.
//!
//! ```text
//! key "a" was written by 10 and by 30, key "b" by 20, which is undecided
//!
//! at   keys                      told         count   result
//! 30   1 0 a  1 0 b  1 0 c       30 0 0       3       Ok
//! 29   1 0 a  1 0 b              10 0         2       Ok
//! 30   1 0 a  0 0                30           1       KeyLength: the second key has no byte
//! 30   1 0 a  2 0 b              30           1       KeyLength: the bytes end within the second key
//! ```
ghost use Rattle.std.specs.Prelude.{List, MatchOption, IfOk, OnErr, length, drop, ◌≡◌, ◌+◌, ◌<◌, ◌≤◌};
ghost use Rattle.embedded.specs.Prelude.{Event, effects_of, horizon_of, value_version};
ghost use Rattle.embedded.specs.Embedded.{StandsFor};
ghost use Rattle.embedded.specs.Looks.{AreVersionsAt, IsKey, Leads, NoneLeads, version_number};

use crate::database::Database;
use std::alloc::AllocError;
use timestamps::{Key, KeyError, MAX_KEY_BYTES};

/// Why no further version is told.
#[derive(Clone, Copy, Debug)]
pub enum VersionFault {
    /// A key has no byte or more than 256, or the keys end within one.
    KeyLength,
    /// The timestamp is below the horizon, so versions may be gone. None was told.
    BelowHorizon,
    /// A key of more than 24 bytes ran out of memory.
    NoMemory,
}

impl Database {
    /// Tells the version of each key at `t`: the timestamp of its newest committed version at or below `t`, 0 where it has
    /// no value there. Keys stand one behind another, each behind its length in two bytes, the lowest first. It tells how
    /// many keys were told, no more than there is room for, and why no further.
    pub fn versions_at(
        &self,
        t: u64,
        keys: &[u8],
        versions: &mut [u64],
    ) -> (usize, Result<(), VersionFault>)
        ensures { (h : List Event) → StandsFor self.now h → AreVersionsAt (effects_of h) t keys.now versions.old versions.new result.0 result.1 }
    {
        let horizon = self.engine.horizon();
        if t < horizon {
            return (0, Err(VersionFault::BelowHorizon));
        }
        let mut count = 0;
        let mut at = 0;
        while count < versions.len() && at < keys.len() {
            let Some(key) = first_key(&keys[at..]) else {
                return (count, Err(VersionFault::KeyLength));
            };
            let Ok(version) = self.version_at(t, key) else {
                return (count, Err(VersionFault::NoMemory));
            };
            versions[count] = version;
            count += 1;
            at += 2 + key.len();
        }
        (count, Ok(()))
    }

    /// The version of a key, 0 where it has no value.
    fn version_at(&self, t: u64, key: &[u8]) -> Result<u64, AllocError>
        requires key { IsKey key.now }
        ensures ok { (h : List Event) → StandsFor self.now h → horizon_of (effects_of h) ≤ t → IfOk result (λ version. version ≡ version_number (value_version (effects_of h) key.now t)) }
        ensures many { OnErr result (24 < length key.now) }
    {
        match Key::new(self.alloc, key) {
            Ok(key) => Ok(self.engine.version_at(t, &key).unwrap_or(0)),
            Err(_) => Err(AllocError),
        }
    }
}

/// The key at the front of bytes, behind its length.
fn first_key(bytes: &[u8]) -> Option<&[u8]>
    ensures { MatchOption result (NoneLeads bytes.now) (λ key. Leads key.now (drop (2 + length key.now) bytes.now) bytes.now) }
{
    if bytes.len() < 2 {
        return None;
    }
    let length = u16::from_le_bytes([bytes[0], bytes[1]]) as usize;
    if length == 0 || length > MAX_KEY_BYTES || length > bytes.len() - 2 {
        return None;
    }
    Some(&bytes[2..2 + length])
}
