//! Live feeds: where each has got to, and its next messages. `engine` is the caller.
//!
//! A feed tells committed rows of its span, from its cursor on, and resolved messages, which say through which
//! timestamp all was told. A feed is its place alone, so a commit or a closing touches none: each poll reads the rows
//! beyond the place in the store, and moves the place behind what it tells.
//!
//! 1. A place has the timestamp through which all was told, and the row that was told last.
//! 2. The floor of a feed is the timestamp below which it needs no older version. The floors stand in an order, each
//!    with the number of its feed, so the least is at hand.
//! 3. A number is given once. A feed that is cancelled is gone, and its floor too.
//!
//! ```text
//!                                 feed 1: span - -            feed 2: span b c            floors
//! open 1, open 2 at 0             at 0                        at 0                        0 1, 0 2
//! stored: 10 b, 20 a; closed 20
//! poll 2, at most 9               at 0                        at 20   10 b, resolved 20   0 1, 20 2
//! stored: 30 a; closed 30
//! poll 1, at most 2               at 20 a   10 b, 20 a        at 20                       19 1, 20 2
//! poll 1, at most 9               at 30     30 a, resolved 30 at 20                       20 2, 30 1
//! cancel 2                        at 30                                                   30 1
//! ```
//!
//! Costs, where f feeds live:
//!
//! - `count`, `opened`, `seat`, `floor`: O(1)
//! - `open`, `cancel`, `least_floor`: O(log f), the first two taken over many
//! - `poll`: O(log f), the messages told, and the searches of the store that `catch_up` makes
//! - `count_within`: as a few polls, of up to twice as many messages as find room, but 15 at least
//! - `report`: O(f log f) and the bytes of its answer
//!
//! `open`, `poll`, `count_within` and `report` take memory. The other calls take none.
//!
//! Tests: `unit_tests`, `job_tests`; numbers above the greatest timestamp in `layer_tests`.
#![tactic(auto)]

mod feeds;
mod live;
mod place;
mod poll_error;
mod report;
mod room;

pub use feeds::Feeds;
pub use poll_error::PollError;
