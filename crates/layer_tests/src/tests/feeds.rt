//! Feeds that open above the greatest timestamp, and polls with a closed timestamp above it: as at the greatest.
use super::script::{Asked, Words, put_number};
use super::versions::change;
use feed::Feeds;
use spans::{Kind, Message, Span};
use std::alloc::Global;
use version_chain::Store;

/// A committed version, openings at a cursor, least floors, and polls. Each `tell` ends with what is closed.
pub(super) const SCRIPT: &str = "write 10 a=
commit 10=1
open 9223372036854775808=1
floor=9223372036854775807
tell 1 18446744073709551615=
open 18446744073709551615=2
floor=9223372036854775807
tell 2 18446744073709551615=
open 9=3
floor=9
tell 3 9223372036854775808= version 10 resolved 9223372036854775807
tell 3 18446744073709551615=
floor=9223372036854775807
";

/// Feeds, and the store that they read.
#[derive(Drop)]
pub(super) struct Served {
    store: Store,
    feeds: Feeds,
}

impl Served {
    pub(super) fn new(alloc: Global) -> Served {
        Served {
            store: Store::new(alloc),
            feeds: Feeds::new(alloc),
        }
    }
}

impl Asked for Served {
    fn ask(&mut self, alloc: Global, mut words: Words<'_>, out: &mut Vec<u8>) -> Option<()> {
        match words.word().first() {
            Some(b'o') => open(alloc, &mut self.feeds, &mut words, out),
            Some(b't') => tell(alloc, self, &mut words, out),
            Some(b'f') => put_number(alloc, out, self.feeds.least_floor()?),
            Some(letter) => change(alloc, &mut self.store, *letter, &mut words, out),
            None => None,
        }
    }
}

fn open(alloc: Global, feeds: &mut Feeds, words: &mut Words<'_>, out: &mut Vec<u8>) -> Option<()> {
    if feeds.opened() == u64::MAX {
        return None;
    }
    let kind = Kind {
        initial: false,
        gap: None,
    };
    let span = Span { lo: None, hi: None };
    let feed = feeds.open(0, kind, &span, words.number()).ok()?;
    put_number(alloc, out, feed)
}

fn tell(
    alloc: Global,
    served: &mut Served,
    words: &mut Words<'_>,
    out: &mut Vec<u8>,
) -> Option<()> {
    let feed = words.number();
    let closed = words.number();
    let messages = served.feeds.poll(&served.store, 0, feed, closed, 9).ok()?;
    for message in messages.as_slice() {
        let (word, ts) = match message {
            Message::Row(row) => (b" version ".as_slice(), row.ts),
            Message::Resolved(ts) => (b" resolved ".as_slice(), *ts),
        };
        out.extend_from_slice(word).ok()?;
        put_number(alloc, out, ts.get())?;
    }
    Some(())
}
