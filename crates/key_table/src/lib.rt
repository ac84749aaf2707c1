//! Keys by number: each key of a table has one, until it is freed.
//!
//! A [`KeyTable`] is an ordered map from keys to numbers, and beside it a slab with the key of each number. `version_chain`
//! calls it: what it has of a key lies in a list by number, so a command finds its key once and goes on by the number.
//!
//! 1. A key has a number exactly where the slab has the key at that number. So no two keys share one.
//! 2. A hint is a number in a place of its key's hash. It is believed only where the slab has the key there, so a wrong or
//!    a missing hint costs a search of the map and nothing else, and no contract speaks of hints. The number that a caller
//!    had before is such a hint too.
//!
//! ```text
//! hashes: pear 5, apple 1, fig 5, plum 4       hints are tried from the place of the hash on, by `hash ^ 0` to `hash ^ 3`
//!
//!              map                     slab              hints 0 1 2 3 4 5 6 7
//! add pear     pear 0                  pear                    - - - - - 0 - -
//! add apple    apple 1, pear 0         pear apple              - 1 - - - 0 - -
//! add fig      apple 1, fig 2, pear 0  pear apple fig          - 1 - - 2 0 - -    fig is tried at 5, where pear stands
//! free pear    apple 1, fig 2          -    apple fig          - 1 - - 2 - - -
//! add plum     apple 1, fig 2, plum 0  plum apple fig          - 1 - - 2 0 - -    its place has fig, and so the next one
//! ```
//!
//! Costs, with n keys:
//!
//! - `number_of`: O(1) by a hint, and else O(log n), whoever chose the keys
//! - `number_again`: one comparison of keys where the key still has its number, and else O(log n)
//! - `key_of`: O(1)
//! - `add`: O(log n), and O(n) where slab or hints have doubled, which is O(1) an `add`
//! - `free`, `free_at`: O(log n)
//! - `range_from`: O(log n), and then each key as it is asked for
//!
//! `add` alone takes memory, and the room for hints is no part of what it wants: where that is refused, keys go without.
//! Slab and hints keep their room for keys that come later.
//!
//! Tests: `layer_tests`.
#![tactic(auto)]

mod hints;
mod table;

pub use table::KeyTable;
