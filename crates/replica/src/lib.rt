//! A consumer of one feed that keeps the rows of its span, and knows at which timestamp it has all of them.
//!
//! A [`Replica`] begins with the rows of a span at a cursor, or empty for an initial feed. It takes the messages of a
//! feed one at a time, and refuses those that no feed tells: a row or a resolved timestamp that comes too early, or a
//! row outside its span. `follow` and `embedded_replica` are the callers.
//!
//! 1. The index has a key under a value exactly where the rows have that value at the key.
//! 2. A message that is refused changes nothing, also where it is out of memory.
//! 3. After a resolved message of its feed the rows are those of the database at its timestamp, for the whole span.
//! 4. Between resolved messages it knows through where it was told all, and before which rows its rows are the map.
//!
//! ```text
//! message                 ready   rows                 by value           resolved   complete at   through
//! (new, of all keys)                                                      0          0             0
//! b = 1 at 10             9       b 1                  1: b               0          -             9
//! a = 1 at 10             -       refused: it doesn't come after b at 10
//! a = 1 at 20             19      a 1, b 1             1: a b             0          -             19
//! resolved 19             -       refused: a row of 20 was told
//! resolved 20             -       a 1, b 1             1: a b             20         20            20
//! b = 2 at 25             24      a 1, b 2             1: a, 2: b         20         -             24
//! c = 1 at 25             -       a 1, b 2, c 1        1: a c, 2: b       20         -             24
//! a deleted at 26         25      b 2, c 1             1: c, 2: b         20         -             25
//! ```
//!
//! `Follows` in `specs/` says which rows a replica has after some messages. [`law::law_of_replicas`] says that they are
//! right, for every feed of every legal history.
//!
//! Costs, where the replica has n rows:
//!
//! - `new`: O(n log n)
//! - `apply`, `get`, each step of `rows`: O(log n)
//! - `keys_with`: O(log n), and a copy of each key that it answers
//! - `new_initial`, `at_resolved`, `complete_through`, `ready`, `span`, `len`, `is_empty`: O(1)
//!
//! `new` and `apply` take memory for a row's key twice, and for its value once more where no other key has it;
//! `keys_with` takes it for its answer. A delete, a resolved message and the other calls take none.
//!
//! Tests: `unit_tests`.
#![tactic(auto)]

mod fault;
mod index;
pub mod law;
mod place;
mod replica;
mod seed;
mod table;

pub use fault::Fault;
pub use replica::{KeysAndValues, Replica};
