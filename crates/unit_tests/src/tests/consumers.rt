//! With which rows a consumer begins that is called by text.

use embedded_replica::{Consumer, SeedingError};
use std::alloc::Global;

/// The line, the rows, and what is told: 0 where it begins, else which test isn't passed, of the line, its feed, the text
/// of the rows, their order, and their span.
const CASES: [(&str, &str, u8); 22] = [
    ("0 open - - 7\n", "", 0),
    ("0 open - - 7\n", "row a 1\nrow b%0A %20\n", 0),
    ("63 openevery a c 7 10\n", "row a 1\nrow b 2\n", 0),
    ("0 open - - 0\n", "row a 1\n", 0),
    ("0 open - - 9223372036854775807\n", "row a 1\n", 0),
    ("0 open - - 07\n", "row", 1),
    ("0 open - - 7", "row a 1\n", 1),
    ("64 open - - 7\n", "row a 1\n", 1),
    ("0 openinitial - - 7\n", "row", 2),
    ("0 openinitialevery - - 7 10\n", "", 2),
    ("0 open - - 9223372036854775808\n", "", 2),
    ("0 scan 7 - -\n", "row a 1\n", 2),
    ("0 stats\n", "", 2),
    ("0 open a c 7\n", "row d 1\nrow a", 3),
    ("0 open a c 7\n", "row d 1\n\n", 3),
    ("0 open a c 7\n", "row a 1 2\n", 3),
    ("0 open a c 7\n", "del a\n", 3),
    ("0 open a c 7\n", "row %41 1\n", 3),
    ("0 open a c 7\n", "row d 1\nrow b 1\n", 4),
    ("0 open a c 7\n", "row b 1\nrow b 1\n", 4),
    ("0 open a c 7\n", "row a 1\nrow c 1\n", 5),
    ("0 open b c 7\n", "row a 1\nrow b 1\n", 5),
];

#[test]
fn consumers_begin_with_rows(rt: HostRuntime) {
    for at in 0..CASES.len() {
        let (line, rows, wanted) = CASES[at];
        assert!(rt;
            told(rt.alloc(), line, rows) == wanted,
            "{line} with {rows}"
        );
    }
}

/// The outcome of a line and rows. A consumer that begins with rows shows them.
fn told(alloc: Global, line: &str, rows: &str) -> u8 {
    match Consumer::begin(alloc, line.as_bytes(), rows.as_bytes()) {
        Ok(consumer) => shown(&consumer, rows.as_bytes()),
        Err(SeedingError::Fault(_)) => 1,
        Err(SeedingError::NoFeed) => 2,
        Err(SeedingError::Rows(_)) => 3,
        Err(SeedingError::NotAfter) => 4,
        Err(SeedingError::OutsideSpan) => 5,
        Err(SeedingError::NoMemory) => 6,
    }
}

/// 0 where the consumer shows these rows, and was told all through where it says that it is complete.
fn shown(consumer: &Consumer, rows: &[u8]) -> u8 {
    let mut out = [0; 64];
    let Ok(length) = consumer.rows(&mut out) else {
        return 7;
    };
    if length != rows.len() || !out.starts_with(rows) {
        return 8;
    }
    if consumer.complete_through() != consumer.at_resolved() {
        return 9;
    }
    0
}
