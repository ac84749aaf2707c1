//! The table of transactions: which stand and how, and which are undecided.
use super::script::{Asked, Words, put_number};
use spans::State;
use std::alloc::Global;
use timestamps::TsKey;
use txn_table::{Outcome, Txns};

/// `begin` has a timestamp and a seat, and says whether the timestamp was free. `stands` has the seat of a transaction, and
/// how it stands. `oldest` is the oldest undecided one, `greatest` the greatest of all, `undecided` how many there are, and
/// `through` has those up to a timestamp.
pub(super) const SCRIPT: &str = "greatest=none
oldest=none
begin 20 1=yes
begin 10 0=yes
begin 30 2=yes
begin 20 2=no
stands 20=1 undecided
stands 15=none
oldest=10
greatest=30
undecided=3
through 9=
through 20= 10 20
commit 10=
stands 10=0 committed
begin 10 0=no
abort 30=
stands 30=2 aborted
oldest=20
greatest=30
undecided=1
through 99= 20
forget 10=
stands 10=none
stands 20=1 undecided
forget 25=
stands 20=none
stands 30=2 aborted
undecided=0
oldest=none
greatest=30
begin 40 3=yes
forget 99=
greatest=none
undecided=0
";

impl Asked for Txns {
    fn ask(&mut self, alloc: Global, mut words: Words<'_>, out: &mut Vec<u8>) -> Option<()> {
        match words.word().first() {
            Some(b'b') => begin(self, &mut words, out),
            Some(b's') => stands(alloc, self, &mut words, out),
            Some(b'c') => decide(self, &mut words, Outcome::Committed),
            Some(b'a') => decide(self, &mut words, Outcome::Aborted),
            Some(b'o') => put_or_none(alloc, out, self.oldest_undecided()),
            Some(b'g') => put_or_none(alloc, out, self.greatest()),
            Some(b'u') => put_number(alloc, out, self.undecided()),
            Some(b't') => through(alloc, self, &mut words, out),
            Some(b'f') => {
                self.forget_through(words.number());
                Some(())
            }
            _ => None,
        }
    }
}

fn begin(txns: &mut Txns, words: &mut Words<'_>, out: &mut Vec<u8>) -> Option<()> {
    let ts = words.ts()?;
    let seat = u8::try_from(words.number()).ok()?;
    let word = if txns.begin(ts, seat).ok()? {
        b"yes".as_slice()
    } else {
        b"no".as_slice()
    };
    out.extend_from_slice(word).ok()
}

fn decide(txns: &mut Txns, words: &mut Words<'_>, outcome: Outcome) -> Option<()> {
    txns.decide(words.ts()?, outcome);
    Some(())
}

fn stands(alloc: Global, txns: &Txns, words: &mut Words<'_>, out: &mut Vec<u8>) -> Option<()> {
    let Some((seat, state)) = txns.standing(words.number()) else {
        return out.extend_from_slice(b"none").ok();
    };
    put_number(alloc, out, u64::from(seat))?;
    let word = match state {
        State::Undecided => b" undecided".as_slice(),
        State::Committed => b" committed".as_slice(),
        State::Aborted => b" aborted".as_slice(),
    };
    out.extend_from_slice(word).ok()
}

fn through(alloc: Global, txns: &Txns, words: &mut Words<'_>, out: &mut Vec<u8>) -> Option<()> {
    for TsKey(ts) in txns.undecided_through(words.number()) {
        out.push(b' ').ok()?;
        put_number(alloc, out, *ts)?;
    }
    Some(())
}

fn put_or_none(alloc: Global, out: &mut Vec<u8>, number: Option<u64>) -> Option<()> {
    match number {
        None => out.extend_from_slice(b"none").ok(),
        Some(number) => put_number(alloc, out, number),
    }
}
