//! A list of bytes that only proofs read: nothing of it is there at run time.
//!
//! A contract that speaks of all bytes that a reader gave, or a writer took, needs those bytes by name, and nothing at
//! run time keeps them. A [`ByteLog`] is such a list, and a [`Growth`] makes it longer. The adapters of `sessions` over
//! any reader and writer are its callers.
//!
//! 1. The log of `new` is empty. `and` gives a log that is longer by exactly the bytes of the growth.
//! 2. A log by itself says nothing of a device. The function that grows the log ties it to the device: its contract
//!    says that the growth is the bytes of that read or write.
//!
//! ```text
//! let log = ByteLog::new();                           bytes: []
//! let log = log.and(&Growth { bytes: b"ab" });        bytes: [97, 98]
//! let log = log.and(&Growth { bytes: b"c" });         bytes: [97, 98, 99]
//! ```
//!
//! Costs: nothing at run time, and no memory. Tests: none, because none of it runs.
#![tactic(auto)]

ghost use Rattle.std.specs.Prelude.{◌≡◌, ◌++◌, [], List, ℕ};
ghost use base.Fml.{ftrue};
ghost use Rattle.byte_log.specs.Coded.{bytes_code};

use std::marker::Model;

/// A list of bytes that only proofs read.
#[derive(Drop)]
pub struct ByteLog {
    pub ghost bytes: { List ℕ } by { bytes_code },
}

impl Model for ByteLog {
    ghost also_owns = { λ _. ftrue };
}

/// Bytes by which a log grows.
#[derive(Clone, Copy)]
pub struct Growth<'a> {
    pub bytes: &'a [u8],
}

impl ByteLog {
    /// No bytes.
    pub fn new() -> ByteLog
        ensures { result.bytes ≡ [] }
    {
        ByteLog {}
    }

    /// These bytes, and behind them those of the growth.
    #[inline(always)]
    pub fn and(&self, _growth: &Growth<'_>) -> ByteLog
        ensures { result.bytes ≡ self.now.bytes ++ _growth.now.bytes.now }
    {
        ByteLog {}
    }
}
