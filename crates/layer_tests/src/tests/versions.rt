//! Versions of keys: what a write, a commit, an abort and a collection leave, and what a search finds.
use super::script::{Asked, Words, put_number};
use std::alloc::Global;
use timestamps::{Key, Ts, Value};
use version_chain::{Store, VersionsAfter, Wrote};

/// Scripts, each of a store. A `write` is of a delete. `commit` and `abort` are of all versions at a
/// timestamp. `commit` says how many these are, and so does `holds`. `many` makes so many changes, from a timestamp on and so far apart. `newest` has the newest version of a key up to a timestamp,
/// `least` the least timestamp of a version above, `in` the last bytes of a span's keys, and `follows` the committed
/// versions after a place, up to a timestamp. A `drop` says how many versions it dropped as dead.
pub(super) const SCRIPTS: [&str; 10] = [
    // a key has a version at each write
    "write 20 apple=
write 10 apple=
write 30 apple=
versions=3
newest 9 apple=none
newest 10 apple=10
newest 29 apple=20
newest 99 apple=30
newest 99 pear=none
least 0 apple=10
least 10 apple=20
least 29 apple=30
least 30 apple=none
least 0 pear=none
",
    // a commit marks what was written at its timestamp, and an abort drops it
    "write 10 apple=
write 10 pear=
write 20 apple=
holds 10=2
holds 15=0
commit 15=0
commit 10=2
newest 15 apple=10 committed
newest 15 pear=10 committed
newest 25 apple=20
abort 25=
abort 20=
holds 20=0
newest 25 apple=10 committed
write 20 plum=
write 30 plum=
write 30 pear=
write 30 fig=
versions=6
abort 30=
newest 35 plum=20
newest 35 pear=10 committed
newest 35 fig=none
holds 10=2
holds 30=0
versions=3
",
    // a later write of a transaction takes the place of an earlier
    "write 10 apple=
put 10 apple 7=
newest 10 apple=10 is 7
least 10 apple=none
versions=1
",
    // what is dead goes: 10 and 20 lie below 40; 30 is undecided, 60 above the horizon, and the delete is dead.
    // A late commit is dead at once
    "put 10 apple 7=
put 20 apple 7=
put 30 apple 7=
put 40 apple 7=
put 60 apple 7=
write 35 pear=
commit 10=1
commit 20=1
commit 40=1
commit 60=1
commit 35=1
drop 5=0
drop 15=0
drop 50=3
versions=3
newest 29 apple=none
newest 39 apple=30 is 7
newest 50 apple=40 is 7 committed
newest 99 apple=60 is 7 committed
newest 99 pear=none
drop 50=0
drop 10=0
commit 30=1
drop 50=1
drop 60=1
versions=1
",
    // what goes at the front leaves the rest
    "put 10 apple 7=
put 20 apple 7=
put 30 apple 7=
put 40 apple 7=
put 50 apple 7=
put 60 apple 7=
commit 10=1
commit 20=1
commit 30=1
commit 40=1
commit 50=1
commit 60=1
drop 10=0
least 0 apple=10
drop 30=2
least 0 apple=30
drop 30=0
drop 40=1
least 0 apple=40
drop 60=2
least 0 apple=60
versions=1
newest 99 apple=60 is 7 committed
",
    // versions go in before those that a collection left
    "put 10 apple 7=
put 20 apple 7=
put 30 apple 7=
put 40 apple 7=
put 50 apple 7=
put 60 apple 7=
commit 10=1
commit 20=1
commit 30=1
commit 40=1
commit 50=1
commit 60=1
drop 30=2
write 17 apple=
least 0 apple=17
newest 29 apple=17
write 16 apple=
least 0 apple=16
newest 29 apple=17
write 15 apple=
least 0 apple=15
newest 29 apple=17
abort 15=
least 0 apple=16
newest 99 apple=60 is 7 committed
versions=6
",
    // a long chain is written and aborted in its middle, and loses first its dead versions and then all
    "many 1000 2 2 write apple=
versions=1000
newest 1 apple=none
newest 2 apple=2
newest 1001 apple=1000
newest 9999 apple=2000
least 0 apple=2
least 1000 apple=1002
least 2000 apple=none
many 400 3 4 write apple=
versions=1400
newest 998 apple=998
newest 999 apple=999
least 999 apple=1000
many 400 3 4 abort=
versions=1000
newest 999 apple=998
many 1000 2 2 commit=1000
newest 513 apple=512 committed
put 513 apple 7=
newest 513 apple=513 is 7
write 1001 apple=
drop 600=300
versions=702
least 0 apple=513
drop 1500=450
versions=252
least 0 apple=513
least 513 apple=1001
least 1001 apple=1502
abort 513=
abort 1001=
many 250 1502 2 abort=
versions=0
newest 9999 apple=none
write 5 apple=
newest 9999 apple=5
",
    // the keys of a span, from its start to its end
    "write 10 c=
write 10 a=
write 10 e=
write 10 b=
write 10 d=
write 20 ab=
in - -=abbcde
in b d=bc
in aa b=b
in d -=de
in d d=
in d b=
in f -=
write 10 kkkkkkkkl=
write 10 kkkkkkkk=
write 10 m=
in kkkkkkkk -=klm
in kkkkkkkkk -=lm
in f kkkkkkkkk=k
in f kkkkkkkk=
in m -=m
in n -=
",
    // what is committed follows by timestamp and then by key; the greater timestamp is committed first
    "write 10 b=
write 10 a=
write 12 c=
write 20 a=
write 20 c=
write 30 d=
abort 12=
commit 30=1
follows 0 - 99= 30 d
commit 10=2
follows 9 b 30= 10 a 10 b 30 d
follows 10 a 30= 10 b 30 d
follows 10 b 99= 30 d
follows 10 - 29=
follows 0 - 10= 10 a 10 b
follows 10 b 9=
",
    // the greatest timestamp follows; the key of a place needs no version
    "follows 0 - 18446744073709551615=
write 9223372036854775807 b=
commit 9223372036854775807=1
follows 9223372036854775807 a 18446744073709551615= 9223372036854775807 b
follows 9223372036854775807 - 18446744073709551615=
follows 18446744073709551615 a 18446744073709551615=
",
];

impl Asked for Store {
    fn ask(&mut self, alloc: Global, mut words: Words<'_>, out: &mut Vec<u8>) -> Option<()> {
        match words.word().first() {
            Some(b'v') => put_number(alloc, out, self.versions()),
            Some(b'd') => put_number(alloc, out, self.drop_dead(words.number())),
            Some(b'h') => put_number(alloc, out, self.written_at(words.number())),
            Some(b'n') => newest(alloc, self, &mut words, out),
            Some(b'l') => least(alloc, self, &mut words, out),
            Some(b'i') => keys_in(alloc, self, &mut words, out),
            Some(b'f') => follows(alloc, self, &mut words, out),
            Some(b'm') => many(alloc, self, &mut words, out),
            Some(word) => change(alloc, self, *word, &mut words, out),
            None => None,
        }
    }
}

/// Writes a version of a key, or ends those of a timestamp.
pub(super) fn change(
    alloc: Global,
    store: &mut Store,
    letter: u8,
    words: &mut Words<'_>,
    out: &mut Vec<u8>,
) -> Option<()> {
    let ts = words.ts()?;
    let committed = change_at(alloc, store, letter, ts, words)?;
    put_committed(alloc, letter, committed, out)
}

/// Makes one change at each of so many timestamps.
fn many(alloc: Global, store: &mut Store, words: &mut Words<'_>, out: &mut Vec<u8>) -> Option<()> {
    let count = words.number();
    let mut ts = words.number();
    let step = words.number();
    let letter = *words.word().first()?;
    let mut committed = 0u64;
    for _ in 0..count {
        let more = change_at(alloc, store, letter, Ts::new(ts)?, &mut words.again())?;
        committed = committed.saturating_add(more);
        ts = ts.saturating_add(step);
    }
    put_committed(alloc, letter, committed, out)
}

/// Makes a change, and answers how many versions it committed.
fn change_at(
    alloc: Global,
    store: &mut Store,
    letter: u8,
    ts: Ts,
    words: &mut Words<'_>,
) -> Option<u64> {
    match letter {
        b'w' => put_version(store, &words.key(alloc)?, ts, None)?,
        b'p' => {
            let key = words.key(alloc)?;
            let value = Value::new(alloc, words.word()).ok()?;
            put_version(store, &key, ts, Some(&value))?;
        }
        b'c' => return Some(store.commit(ts)),
        b'a' => store.abort(ts),
        _ => return None,
    }
    Some(0)
}

/// Writes a version, which no reader crosses.
fn put_version(store: &mut Store, key: &Key, ts: Ts, after: Option<&Value>) -> Option<()> {
    match store.write(key, ts, after).ok()? {
        Wrote::Crossed => None,
        Wrote::Done => Some(()),
    }
}

/// Writes how many versions a change committed, where it is a commit.
fn put_committed(alloc: Global, letter: u8, committed: u64, out: &mut Vec<u8>) -> Option<()> {
    if letter != b'c' {
        return Some(());
    }
    put_number(alloc, out, committed)
}

fn newest(alloc: Global, store: &Store, words: &mut Words<'_>, out: &mut Vec<u8>) -> Option<()> {
    let t = words.number();
    let key = words.key(alloc)?;
    let Some(version) = store.newest_at(&key, t) else {
        return out.extend_from_slice(b"none").ok();
    };
    put_number(alloc, out, version.ts.get())?;
    if let Some(value) = &version.after {
        out.extend_from_slice(b" is ").ok()?;
        out.extend_from_slice(value.bytes()).ok()?;
    }
    if version.committed {
        out.extend_from_slice(b" committed").ok()?;
    }
    Some(())
}

fn least(alloc: Global, store: &Store, words: &mut Words<'_>, out: &mut Vec<u8>) -> Option<()> {
    let t = words.number();
    let key = words.key(alloc)?;
    match store.next_above(&key, t) {
        None => out.extend_from_slice(b"none").ok(),
        Some(ts) => put_number(alloc, out, ts),
    }
}

fn keys_in(alloc: Global, store: &Store, words: &mut Words<'_>, out: &mut Vec<u8>) -> Option<()> {
    let span = words.span(alloc)?;
    for (key, _) in store.in_span(&span) {
        out.push(*key.bytes().last()?).ok()?;
    }
    Some(())
}

/// The committed versions after a place, whose key `-` is none: of each its timestamp and its key.
fn follows(alloc: Global, store: &Store, words: &mut Words<'_>, out: &mut Vec<u8>) -> Option<()> {
    let ts = words.number();
    let first = words.key(alloc)?;
    let through = words.number();
    let key = if first.bytes() == b"-".as_slice() {
        None
    } else {
        Some(&first)
    };
    put_following(alloc, store, store.versions_after(ts, key, through), out)
}

fn put_following(
    alloc: Global,
    store: &Store,
    mut versions: VersionsAfter<'_>,
    out: &mut Vec<u8>,
) -> Option<()> {
    for _ in 0..19 {
        let Some((at, found)) = versions.next() else {
            return Some(());
        };
        if store.committed_at(found, at).is_none() {
            continue;
        }
        out.push(b' ').ok()?;
        put_number(alloc, out, at)?;
        out.push(b' ').ok()?;
        out.extend_from_slice(found.bytes()).ok()?;
    }
    None
}
