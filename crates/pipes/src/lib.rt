//! Theorems: what one part of the program writes, the next one takes. Nothing here runs.
//!
//! `mvfeed run | mvfeed check` and `mvfeed race | mvfeed check` say `yes`. So does `check` of the texts that an embedded
//! database gave, behind the header of format two. [`laws::law_of_pipes`] has these, and they rest on
//! [`laws::law_of_texts`]: of each history whose commands keep a format's limits, each event has a text that keeps them
//! too. `specs/` says which histories these are.
//!
//! The calls of one seat, as a run writes them in format two:
//!
//! ```text
//! the text                            why it is read again
//! mvfeed 2                            the header of format two, so the reader goes by its limits
//! 0 0 begin 10 => started             position 0, and seat 0 of 64
//! 1 0 put 10 a%0A 1 => written        the key and the value keep the limits, since the command does
//! 2 0 scan 10 - - => rows 1           no more rows than writes
//! row a%0A 1                          its key and its value are those of the `put`
//! 3 0 commit 10 => committed 1        no more keys than writes
//! 4 0 close 10 => closed 10 0         closed is no higher than the timestamps that commands asked for
//! 5 0 openinitial - - 10 => opened 1  no more feeds than events
//! 6 0 poll 1 9 => messages 2          no more messages than the poll asked for
//! {"after":"MQ==","key":"YQo=", ..    a key and a value that were written, and a timestamp from 1 on
//! {"resolved":"10"}                   closed, which has risen and so isn't 0
//! ```
//!
//! [`laws::law_of_followers`]: `mvfeed follow --initial 10 --feed 1 --view --format 2` takes the two messages of this text,
//! and no other line. It writes `resolved 10 1` and `row a%0A 1`, the rows of the map at 10.
//!
//! [`laws::law_of_consumers`]: a consumer that began by `0 openinitial - - 10` takes the line of each of the two messages,
//! or is out of memory.
//!
//! [`laws::law_of_going_on`]: a consumer that shows `row a%0A 1` and was told all through 10 is gone on with by one that
//! begins by `0 open - - 10` and this row.
//!
//! 1. All keys and values that an answer shows were written by commands.
//! 2. All numbers that an answer shows are timestamps, or counts of 64 bits.
//! 3. The longest first line is that of a `put`, or of a `readat` that finds a value: 3,325 bytes of 4,096 in format one,
//!    and 197,437 of 200,000 in format two.
//!
//! What isn't said: that there is a `yes`. `check` says it unless memory, its input or its output fails it.
//!
//! No other crate calls this one. Tests: none.
#![tactic(auto)]

pub mod laws;
