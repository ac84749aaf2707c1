//! Which transactions read which keys.
//!
//! A reader is the timestamp of a transaction. [`Readers`] are those of one key that is looked up by itself; `version_chain`
//! keeps them beside the key's versions. [`SpanMarks`] have the latest reader of each other key: one that has no version
//! was found without one by all that read it, so the latest of them stands for all.
//!
//! 1. The readers of a key rise, and so do the starts of spans.
//! 2. A key's latest reader is that of the greatest start that is not above it, and 0 where there is none.
//! 3. Of a key's readers above the version that was read and up to the next version, only the greatest can refuse a write,
//!    so that one stands for all.
//!
//! ```text
//! readers of "b"                                       spans: the latest reader from each start on
//! new                        none                      no start: no key has a reader
//! note 10, above 0           10                        raise [b, d) to 10      b 10   d 0
//! note 30, above 20, to 40   10 30                     raise [c, ..) to 20     b 10   c 20
//! note 50, above 40          10 30 50                  raise [a, c) to 15      a 15   c 20
//! note 45, above 40          10 30 50                  raise [a, b) to 5       a 15   c 20
//! forget through 30          50                        forget through 15       c 20
//! ```
//!
//! Costs, with m readers of a key and n starts:
//!
//! - `any_between`: O(log m); `note`: the same, and the readers above the gap move
//! - `latest`: O(log n)
//! - `raise`: O(log n) for each start from the span's lower bound to its upper one
//! - `forget_through`: O(log m) and a move of those that stay; of spans O(log n) for each start
//!
//! Up to two readers of a key lie in place. A note of one more takes memory, unless `make_room` has made room for it. A
//! raise takes it for two starts: one of up to 24 bytes lies in the map, and a longer one takes memory of its own. The other
//! calls take none, but that a long start is copied where neighbours are joined; where that is refused they are joined later.
//!
//! Tests: `layer_tests`.
#![tactic(auto)]

mod readers;
mod span_marks;

pub use readers::Readers;
pub use span_marks::SpanMarks;
