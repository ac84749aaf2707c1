//! A set of keys in order, of which the least lies in place.
//!
//! `version_chain` keeps in such a set the keys of a timestamp, which are what its transaction wrote. Often that is one
//! key, and a node of std's ordered set has room for fifteen, some 500 bytes. So a set has room for one key in itself.
//!
//! A [`KeySet`] is seen as its keys, rising.
//!
//! 1. The least key lies in the set itself, and the others in an ordered set of std.
//! 2. Where no key lies in place there are no others.
//!
//! ```text
//!                in place    others
//! new            none        none
//! add c          c           none      takes no memory
//! add d          c           d         takes a node, the first of the others
//! add a          a           c d       c moves to the others
//! remove a       c           d         c moves back
//! remove d       c           none      the node is freed
//! ```
//!
//! Costs, with n keys:
//!
//! - `add`, `remove`: O(log n)
//! - `iter`, `above`: O(log n), and then O(1) a key on average
//! - `retain`: O(n)
//! - `len`, `is_empty`: O(1)
//!
//! `add` alone takes memory: for a copy of a key of more than 24 bytes, and for nodes of the others. Where it finds no
//! memory, the set stays as it was.
//!
//! Tests: `layer_tests`.
#![tactic(auto)]

mod set;

pub use set::{KeySet, Keys};
