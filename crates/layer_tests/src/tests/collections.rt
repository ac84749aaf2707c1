//! What a collection drops, and what holds it back.
use super::rules::{put_reply, reply_to};
use super::script::{Asked, Words, put_number};
use feed::Feeds;
use mvto_rules::Rules;
use spans::{Kind, Span};
use std::alloc::Global;

/// Transactions, hard closings, protections, feeds from a cursor (`open`, `shut`), how far a collection can go (`limit`),
/// the floors of feeds (`floor`), and collections (`drop`): their horizons, and how many versions each dropped. `without`
/// writes a delete.
pub(super) const SCRIPT: &str = "begin 10=started
put 10 a 1=written
begin 20=started
put 20 a 2=written
begin 30=started
put 30 a 3=written
begin 40=started
put 40 a 4=written
without 40 b=written
commit 10=committed 1
commit 20=committed 1
commit 30=committed 1
commit 40=committed 2
drop 50=collected 0 0
limit=0
hard 40=closed 40 0
limit=40
keep 15=protected 1
open 25=1
floor 1=25
limit=15
drop 50=collected 15 0
end 1=released
limit=25
drop 17=collected 17 0
keep 18=protected 2
drop 50=collected 18 0
end 2=released
drop 9223372036854775808=range
drop 50=collected 25 1
shut 1=
drop 35=collected 35 1
drop 50=collected 40 2
drop 10=collected 40 0
";

/// The rules, and the feeds that hold their collections back.
#[derive(Drop)]
pub(super) struct Held {
    rules: Rules,
    feeds: Feeds,
}

impl Held {
    pub(super) fn new(alloc: Global) -> Held {
        Held {
            rules: Rules::new(alloc),
            feeds: Feeds::new(alloc),
        }
    }
}

impl Asked for Held {
    fn ask(&mut self, alloc: Global, mut words: Words<'_>, out: &mut Vec<u8>) -> Option<()> {
        match words.word().first() {
            Some(b'o') => open(alloc, self, &mut words, out),
            Some(b's') => self.feeds.cancel(words.number()).then_some(()),
            Some(b'f') => put_number(alloc, out, self.feeds.floor(words.number())?),
            Some(b'l') => put_number(alloc, out, self.rules.limit(self.feeds.least_floor())),
            Some(b'd') => {
                let floor = self.feeds.least_floor();
                put_reply(alloc, out, &self.rules.collect(words.number(), floor))
            }
            Some(b'w') => {
                let ts = words.number();
                let key = words.key(alloc)?;
                put_reply(alloc, out, &self.rules.write(0, ts, &key, None))
            }
            Some(letter) => {
                let reply = reply_to(alloc, &mut self.rules, *letter, &mut words)?;
                put_reply(alloc, out, &reply)
            }
            None => None,
        }
    }
}

fn open(alloc: Global, held: &mut Held, words: &mut Words<'_>, out: &mut Vec<u8>) -> Option<()> {
    if held.feeds.opened() == u64::MAX {
        return None;
    }
    let cursor = words.number();
    let kind = Kind {
        initial: false,
        gap: None,
    };
    let span = Span { lo: None, hi: None };
    let feed = held.feeds.open(0, kind, &span, cursor).ok()?;
    put_number(alloc, out, feed)
}
