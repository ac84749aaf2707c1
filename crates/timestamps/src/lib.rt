//! The smallest words of the database: timestamps, keys, values and the rows that join them.
//!
//! A [`Timestamp`](ts::Ts) is a number from 1 to 9223372036854775807, so that 0 can mean "before all" and one more still
//! fits a `u64`. A key is 1 to 256 bytes, ordered byte by byte; a value is 0 to 65536 bytes. Contracts see a timestamp as
//! its number, a key or a value as its list of bytes. Both keep these as [`SmallBytes`](small_bytes::SmallBytes). Threads
//! that want timestamps of their own lease them, 32 at a time, from an [`Oracle`](oracle::Oracle). A rising list of
//! timestamps is searched by [`BinarySearch`](binary_search::BinarySearch), and a map by [`TsKey`](ts_key::TsKey)s.
//!
//! ```text
//! Ts::new(0)            None                  Key::new(alloc, b"")      Err(KeyLength)
//! Ts::new(10)           Some(10)              Key::new(alloc, b"a")     Ok("a")
//! Ts::new(1 << 63)      None                  "a" < "aa" < "b"          a beginning first
//! oracle.draw(&mut pass)    Ok([33 ..= 64])       the same pass again       Ok([65 ..= 96])
//! ```
//!
//! All other crates but `ticket_lock` and `byte_log` stand on it. Costs:
//!
//! - `new`, `copy` of a key or a value: its bytes, once; up to 24 lie in place and take no memory
//! - `cmp` of keys: at most three numbers where both have up to 24 bytes, else their bytes
//! - `draw`: 32 timestamps by two steps on one word; it takes no memory
//!
//! Tests: `unit_tests`; leases also in `session_tests`.
#![tactic(auto)]

pub mod binary_search;
mod blocks;
mod few_bytes;
pub mod key;
pub mod lease;
pub mod oracle;
pub mod row;
pub mod small_bytes;
pub mod ts;
pub mod ts_key;
pub mod value;

pub use key::{Key, KeyError, MAX_KEY_BYTES};
pub use row::Row;
pub use small_bytes::SmallBytes;
pub use ts::Ts;
pub use ts_key::TsKey;
pub use value::{MAX_VALUE_BYTES, Value, ValueError};
