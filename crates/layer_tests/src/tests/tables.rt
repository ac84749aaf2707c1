//! Tables of keys: which number each key has, and that many keys find theirs while others come and go.
use super::script::{Asked, Words, put_number};
use key_table::KeyTable;
use std::alloc::Global;
use std::ops::Bound;
use timestamps::Key;

/// `add` tells the number of a new key, which has to be at most the number behind it, and `number` that of any key. `again`
/// asks for it once more, after the number behind it, or `-`.
/// `free` frees it. `key` has the key of a number, and `from` all keys from one on. `many` says how many keys came, were
/// found and went again.
pub(super) const SCRIPT: &str = "number b=-
key 0=-
add b 0=0
number b=0
key 0=b
add b 9=-
add a 0=-
number a=-
add a 1=1
add d 9=2
again b 0=0
again b 1=0
again b 7=0
again b -=0
again c 0=-
from 0=abd
from b=bd
from c=d
from e=
free c=-
free b=0
number b=-
again b 0=-
key 0=-
number d=2
from 0=ad
add c 0=0
number c=0
key 0=c
again b 0=-
again c 0=0
number b=-
add b 3=3
from 0=abcd
free a=1
free d=2
number a=-
number d=-
number c=0
number b=3
add d 9=2
add a 9=1
from a=abcd
many 3=3
many 40=40
many 3000=3000
number a=1
number b=3
number c=0
number d=2
from d=d";

impl Asked for KeyTable {
    fn ask(&mut self, alloc: Global, mut words: Words<'_>, out: &mut Vec<u8>) -> Option<()> {
        match words.word() {
            b"key" => put_bytes(alloc, out, self.key_of(words.number() as usize)),
            b"many" => put_number(alloc, out, many(alloc, self, words.number())?),
            name => {
                let key = words.key(alloc)?;
                ask_of_key(alloc, self, name, &key, words.number_or_none(), out)
            }
        }
    }
}

/// Makes a call about a key, and a number if there is one.
fn ask_of_key(
    alloc: Global,
    table: &mut KeyTable,
    name: &[u8],
    key: &Key,
    number: Option<u64>,
    out: &mut Vec<u8>,
) -> Option<()> {
    match name {
        b"from" => put_from(out, table, key),
        _ => put_place(alloc, out, place_of(table, name, key, number)?),
    }
}

fn place_of(
    table: &mut KeyTable,
    name: &[u8],
    key: &Key,
    number: Option<u64>,
) -> Option<Option<usize>> {
    match name {
        b"number" => Some(table.number_of(key)),
        b"again" => Some(table.number_again(key, as_place(number))),
        b"add" => Some(added(table, key, number.unwrap_or(0) as usize)),
        b"free" => Some(freed(table, key)),
        _ => None,
    }
}

fn as_place(number: Option<u64>) -> Option<usize> {
    Some(number? as usize)
}

fn put_from(out: &mut Vec<u8>, table: &KeyTable, start: &Key) -> Option<()> {
    for (key, _) in table.range_from(Bound::Included(start)) {
        out.extend_from_slice(key.bytes()).ok()?;
    }
    Some(())
}

fn put_bytes(alloc: Global, out: &mut Vec<u8>, key: Option<&Key>) -> Option<()> {
    match key {
        None => put_place(alloc, out, None),
        Some(key) => out.extend_from_slice(key.bytes()).ok(),
    }
}

fn put_place(alloc: Global, out: &mut Vec<u8>, place: Option<usize>) -> Option<()> {
    match place {
        None => out.push(b'-').ok(),
        Some(number) => put_number(alloc, out, number as u64),
    }
}

fn added(table: &mut KeyTable, key: &Key, most: usize) -> Option<usize> {
    match table.number_of(key) {
        None => table.add(key, most).ok(),
        Some(_) => None,
    }
}

fn freed(table: &mut KeyTable, key: &Key) -> Option<usize> {
    let number = table.number_of(key)?;
    table.free(key, number);
    Some(number)
}

/// Makes so many keys come, and every second go, in three turns, and frees all. It says how many they were, where each was
/// found by its number while all were there.
fn many(alloc: Global, table: &mut KeyTable, count: u64) -> Option<u64> {
    for turn in 0..3 {
        for i in 0..count {
            added(table, &key_at(alloc, i)?, usize::MAX);
        }
        for i in 0..count {
            if !is_found(table, &key_at(alloc, i)?) {
                return None;
            }
        }
        for i in 0..count {
            if turn == 2 || i % 2 == turn {
                freed(table, &key_at(alloc, i)?)?;
            }
        }
    }
    Some(count)
}

fn is_found(table: &KeyTable, key: &Key) -> bool {
    let Some(number) = table.number_of(key) else {
        return false;
    };
    match table.key_of(number) {
        None => false,
        Some(own) => own == key,
    }
}

/// A short key, or one that is too long to be held in place for every third number.
fn key_at(alloc: Global, i: u64) -> Option<Key> {
    let text = if i % 3 == 0 {
        format!(in alloc; "key of thirty letters, or more {i}")
    } else {
        format!(in alloc; "k{i}")
    };
    Key::new(alloc, text.ok()?.as_bytes()).ok()
}
