//! The read and write rules in worked histories: who is blocked, who comes too late, which spans are marked.
use super::script::{Asked, Words, put_number};
use mvto_rules::Rules;
use spans::{Refusal, Reply};
use std::alloc::Global;
use timestamps::{Key, Value};

/// Scripts, each of rules whose transactions are of seat 0. `x` has the timestamps where a write of a key comes too late, of
/// those that are neither closed nor of a transaction that has ended. `transactions` are those that are undecided, each with how many keys it wrote. `forget` closes and `hard`
/// closes hard, each with where closed then stands and how many it aborted. `look` and `over` read at a closed timestamp,
/// `keep` protects one, `end` ends a protection, and `jump` collects. `newest` tells a key's version at a timestamp,
/// `waits` the oldest undecided transaction, and `young` the greatest timestamp that began or was closed.
pub(super) const SCRIPTS: [&str; 10] = [
    // an own read leaves no mark
    "begin 10=started
begin 20=started
put 20 a 1=written
get 20 a=found 1
x a=
put 10 a 2=written
scan 20 a b=rows a1
del 10 a=written
del 10 ab=toolate
",
    // a blocked read leaves no mark; the least blocked key names its writer
    "begin 10=started
begin 15=started
begin 20=started
put 10 b 1=written
get 20 b=blocked 10
scan 20 - -=blocked 10
x b=
put 15 a 2=written
scan 20 - -=blocked 15
abort 10=aborted
get 20 b=none
",
    // readers of two versions are told apart: of those of one version only the greatest is kept. What the refused
    // write's transaction wrote before is gone
    "begin 10=started
begin 25=started
begin 30=started
begin 35=started
begin 40=started
begin 45=started
begin 50=started
begin 60=started
put 10 b 1=written
commit 10=committed 1
scan 30 a -=rows b1
get 40 b=found 1
x b= 11-39
put 50 b 2=written
commit 50=committed 1
get 60 b=found 2
put 45 b 3=written
put 35 c 4=written
put 35 b 5=toolate
put 25 c 6=toolate
get 60 c=none
",
    // a later reader keeps pieces apart: 10 has read the version of 8, and 7 found none, so only b has both
    "begin 7=started
begin 8=started
begin 10=started
put 8 b 1=written
commit 8=committed 1
get 10 b=found 1
scan 7 a c=rows
x a= 1-6
x b= 1-6 9-9
x b\0= 1-6
",
    // a scan marks the keys that it did not find
    "begin 10=started
begin 11=started
begin 12=started
begin 20=started
scan 20 c b=rows
scan 20 b b=rows
put 10 b 1=written
abort 10=aborted
scan 20 b d=rows
x b= 1-9 11-19
x c= 1-9 11-19
x d=
put 11 c 1=toolate
put 12 d 1=written
put 20 c 1=written
",
    // a scan joins readers at each key by that key's own versions: only of h are two scans told apart
    "begin 10=started
begin 15=started
begin 20=started
begin 30=started
begin 40=started
begin 50=started
begin 60=started
put 10 a 1=written
put 10 h 2=written
put 10 z 3=written
commit 10=committed 3
scan 20 - -=rows a1 h2 z3
x a= 11-19
x b= 1-9 11-19
put 30 h 4=written
commit 30=committed 1
scan 40 - -=rows a1 h4 z3
x a= 11-29 31-39
x b= 1-9 11-29 31-39
x h= 11-19 31-39
x y= 1-9 11-29 31-39
x z= 11-29 31-39
scan 15 - -=rows a1 h2 z3
put 50 h 5=written
commit 50=committed 1
scan 60 - -=rows a1 h5 z3
x a= 11-29 31-49 51-59
x h= 11-19 31-39 51-59
x z= 11-29 31-49 51-59
",
    // a closing forgets the readers through its timestamp, and no version. All above it stand
    "begin 10=started
begin 15=started
begin 20=started
begin 30=started
begin 40=started
put 20 a 1=written
transactions= 10 0 15 0 20 1 30 0 40 0
commit 20=committed 1
get 15 a=none
get 30 a=found 1
get 40 b=none
abort 10=aborted
commit 15=committed 0
commit 30=committed 0
x a= 1-9 11-14 21-29
x b= 1-9 11-14 16-19 21-29 31-39
transactions= 40 0
forget 20=closed 20 0
x a= 21-29
x b= 21-29 31-39
transactions= 40 0
forget 15=closed 20 0
x a= 21-29
transactions= 40 0
forget 30=closed 30 0
x a=
x b= 31-39
transactions= 40 0
undecided=1
versions=1
put 15 a 2=ended
put 50 a 2=notxn
",
    // a closing stops below the oldest undecided transaction, a hard one aborts it, and its versions go. What is closed
    // is read between horizon and closed, and has ended
    "begin 10=started
begin 20=started
begin 30=started
put 10 a 1=written
put 20 a 2=written
put 30 b 3=written
commit 10=committed 1
forget 25=closed 19 0
look 15 a=found 1
look 9 a=none
look 25 a=notclosed 19
over 19 - -=rows a1
over 20 - -=notclosed 19
begin 19=belowclosed 19
begin 20=used
commit 10=ended
keep 12=protected 1
hard 25=closed 25 1
look 25 a=found 1
commit 20=ended
undecided=1
versions=2
put 30 a 4=written
versions=3
x b=
keep 26=protected 2
end 1=released
end 1=noprotection
jump 9223372036854775808=range
jump 14=collected 14 0
look 13 a=belowhorizon 14
look 14 a=found 1
over 13 - -=belowhorizon 14
keep 13=belowhorizon 14
keep 14=protected 3
keep 18446744073709551615=range
hard 18446744073709551615=range
forget 18446744073709551615=range
begin 0=range
hard 30=closed 30 1
over 30 - -=rows a1
transactions=
",
    // the version of a key is committed and a value, whatever is undecided above it. A timestamp that began is used, also
    // where its transaction was aborted
    "young=0
waits=-
begin 10=started
put 10 a 1=written
newest 50 a=-
waits=10
commit 10=committed 1
newest 10 a=10
newest 9 a=-
begin 30=started
begin 20=started
put 20 a 2=written
put 30 a 3=written
newest 50 a=10
waits=20
young=30
commit 30=committed 1
newest 50 a=30
newest 29 a=10
begin 40=started
del 40 a=written
newest 50 a=30
commit 40=committed 1
newest 50 a=-
newest 39 a=30
newest 50 b=-
abort 20=aborted
waits=-
young=40
forget 35=closed 35 0
young=40
forget 60=closed 60 0
young=60
",
    // a delete has no row
    "begin 10=started
begin 20=started
begin 30=started
put 10 a 1=written
put 10 b 2=written
put 10 b 3=written
transactions= 10 2 20 0 30 0
commit 10=committed 2
del 20 a=written
transactions= 20 1 30 0
commit 20=committed 1
get 30 a=none
scan 30 - -=rows b3
",
];

/// Rules, with the script whose lines they were played so far.
#[derive(Drop)]
pub(super) struct Played<'a> {
    rules: Rules,
    script: &'a str,
    lines: usize,
}

impl<'a> Played<'a> {
    pub(super) fn new(alloc: Global, script: &'a str) -> Played<'a> {
        Played {
            rules: Rules::new(alloc),
            script,
            lines: 0,
        }
    }
}

impl<'a> Asked for Played<'a> {
    fn ask(&mut self, alloc: Global, mut words: Words<'_>, out: &mut Vec<u8>) -> Option<()> {
        let before = self.lines;
        self.lines = before.saturating_add(1);
        let letter = *words.word().first()?;
        if letter == b'x' {
            return put_crossed(alloc, self.script, before, &words.key(alloc)?, out);
        }
        ask(alloc, &mut self.rules, letter, words, out)
    }
}

/// Makes any call but `x`.
fn ask(
    alloc: Global,
    rules: &mut Rules,
    letter: u8,
    mut words: Words<'_>,
    out: &mut Vec<u8>,
) -> Option<()> {
    match letter {
        b'u' => put_number(alloc, out, rules.undecided_count()),
        b'v' => put_number(alloc, out, rules.version_count()),
        b't' => put_transactions(alloc, rules, out),
        b'n' => {
            let t = words.number();
            put_or_none(alloc, out, rules.version_at(t, &words.key(alloc)?))
        }
        b'w' => put_or_none(alloc, out, rules.oldest_undecided()),
        b'y' => put_number(alloc, out, rules.reached()),
        letter => {
            let reply = reply_to(alloc, rules, letter, &mut words)?;
            put_reply(alloc, out, &reply)
        }
    }
}

/// Writes the timestamps below 100 where a write of a key comes too late after so many lines of a script, from the first to
/// the last of each run. Each is tried on rules of its own, because the write ends its transaction.
fn put_crossed(
    alloc: Global,
    script: &str,
    lines: usize,
    key: &Key,
    out: &mut Vec<u8>,
) -> Option<()> {
    let mut first = None;
    let mut last = 0;
    for t in 1..100 {
        let mut rules = rules_after(alloc, script, lines)?;
        if is_too_late(&mut rules, key, t) {
            first = Some(first.unwrap_or(t));
            last = t;
        } else if let Some(from) = first {
            let text = format!(in alloc; " {from}-{last}").ok()?;
            out.extend_from_slice(text.as_bytes()).ok()?;
            first = None;
        }
    }
    Some(())
}

/// Rules after so many lines of a script.
fn rules_after(alloc: Global, script: &str, lines: usize) -> Option<Rules> {
    let mut rules = Rules::new(alloc);
    for line in script.lines().take(lines) {
        let mut words = Words::of(line);
        let letter = *words.word().first()?;
        if letter != b'x' {
            ask(alloc, &mut rules, letter, words, &mut Vec::new(alloc))?;
        }
    }
    Some(rules)
}

/// Whether a write of a key comes too late, by the transaction of a timestamp, which begins where it hasn't.
fn is_too_late(rules: &mut Rules, key: &Key, t: u64) -> bool {
    rules.begin(0, t);
    let reply = rules.write(0, t, key, None);
    matches!(&reply, Reply::Refused(Refusal::TooLate))
}

pub(super) fn reply_to(
    alloc: Global,
    rules: &mut Rules,
    letter: u8,
    words: &mut Words<'_>,
) -> Option<Reply> {
    let ts = words.number();
    match letter {
        b'b' => Some(rules.begin(0, ts)),
        b'c' => Some(rules.commit(0, ts)),
        b'a' => Some(rules.abort(0, ts)),
        b's' => Some(rules.scan(0, ts, &words.span(alloc)?)),
        b'g' => Some(rules.get(0, ts, &words.key(alloc)?)),
        b'd' => Some(rules.write(0, ts, &words.key(alloc)?, None)),
        b'p' => put(alloc, rules, ts, words),
        _ => closed_reply_to(alloc, rules, letter, ts, words),
    }
}

fn put(alloc: Global, rules: &mut Rules, ts: u64, words: &mut Words<'_>) -> Option<Reply> {
    let key = words.key(alloc)?;
    let value = Value::new(alloc, words.word()).ok()?;
    Some(rules.write(0, ts, &key, Some(&value)))
}

/// The reply to a command that closes, or asks for what is closed.
fn closed_reply_to(
    alloc: Global,
    rules: &mut Rules,
    letter: u8,
    t: u64,
    words: &mut Words<'_>,
) -> Option<Reply> {
    match letter {
        b'f' => Some(rules.close(t)),
        b'h' => Some(rules.close_hard(t)),
        b'l' => Some(rules.read_at(t, &words.key(alloc)?)),
        b'o' => Some(rules.scan_at(t, &words.span(alloc)?)),
        b'e' => Some(rules.release(t)),
        b'j' => Some(rules.collect(t, None)),
        b'k' if rules.closing().made() < u64::MAX => Some(rules.protect(t)),
        _ => None,
    }
}

/// Writes the timestamps of the undecided transactions, each with how many keys it wrote.
fn put_transactions(alloc: Global, rules: &Rules, out: &mut Vec<u8>) -> Option<()> {
    for transaction in rules.undecided_report().ok()?.as_slice() {
        put_named(alloc, out, b" ", transaction.timestamp)?;
        put_named(alloc, out, b" ", transaction.keys)?;
    }
    Some(())
}

/// Writes a number; `-` where there is none.
fn put_or_none(alloc: Global, out: &mut Vec<u8>, number: Option<u64>) -> Option<()> {
    match number {
        None => out.push(b'-').ok(),
        Some(number) => put_number(alloc, out, number),
    }
}

pub(super) fn put_reply(alloc: Global, out: &mut Vec<u8>, reply: &Reply) -> Option<()> {
    match reply {
        Reply::Started => out.extend_from_slice(b"started").ok(),
        Reply::Written => out.extend_from_slice(b"written").ok(),
        Reply::Aborted => out.extend_from_slice(b"aborted").ok(),
        Reply::Found(None) => out.extend_from_slice(b"none").ok(),
        Reply::Released => out.extend_from_slice(b"released").ok(),
        Reply::Found(Some(value)) => {
            out.extend_from_slice(b"found ").ok()?;
            out.extend_from_slice(value.bytes()).ok()
        }
        Reply::Committed { keys } => put_named(alloc, out, b"committed ", *keys),
        Reply::Protected { id } => put_named(alloc, out, b"protected ", *id),
        Reply::Closed { at, aborted } => {
            put_named(alloc, out, b"closed ", *at)?;
            put_named(alloc, out, b" ", *aborted)
        }
        Reply::Collected { horizon, removed } => {
            put_named(alloc, out, b"collected ", *horizon)?;
            put_named(alloc, out, b" ", *removed)
        }
        Reply::Rows(rows) => put_rows(out, rows.as_slice()),
        Reply::Refused(refusal) => put_refusal(alloc, out, refusal),
        _ => None,
    }
}

fn put_refusal(alloc: Global, out: &mut Vec<u8>, refusal: &Refusal) -> Option<()> {
    match refusal {
        Refusal::TooLate => out.extend_from_slice(b"toolate").ok(),
        Refusal::NoTxn => out.extend_from_slice(b"notxn").ok(),
        Refusal::Ended => out.extend_from_slice(b"ended").ok(),
        Refusal::TsUsed => out.extend_from_slice(b"used").ok(),
        Refusal::TsRange => out.extend_from_slice(b"range").ok(),
        Refusal::NoProtection => out.extend_from_slice(b"noprotection").ok(),
        Refusal::Blocked { by } => put_named(alloc, out, b"blocked ", *by),
        Refusal::BelowClosed { closed } => put_named(alloc, out, b"belowclosed ", *closed),
        Refusal::NotClosed { closed } => put_named(alloc, out, b"notclosed ", *closed),
        Refusal::BelowHorizon { horizon } => put_named(alloc, out, b"belowhorizon ", *horizon),
        _ => None,
    }
}

/// Writes a word and a number.
fn put_named(alloc: Global, out: &mut Vec<u8>, word: &[u8], number: u64) -> Option<()> {
    out.extend_from_slice(word).ok()?;
    put_number(alloc, out, number)
}

fn put_rows(out: &mut Vec<u8>, rows: &[(Key, Value)]) -> Option<()> {
    out.extend_from_slice(b"rows").ok()?;
    for (key, value) in rows {
        out.push(b' ').ok()?;
        out.extend_from_slice(key.bytes()).ok()?;
        out.extend_from_slice(value.bytes()).ok()?;
    }
    Some(())
}
