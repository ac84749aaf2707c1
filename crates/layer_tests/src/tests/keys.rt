//! Sets of keys: which keys come, go and stay, and in which order they are told.
use super::script::{Asked, Words, put_number};
use key_set::{KeySet, Keys};
use std::alloc::Global;

/// `put` says whether a key is new, and `remove` whether it was there. `keys` has all, `count` says how many, and
/// `above` has those above a key. `leave` keeps all but a key, by a test that is asked of each.
pub(super) const SCRIPT: &str = "count=0
keys=
remove c=no
leave c=
put c=yes
put c=no
keys=c
above b=c
above c=
put e=yes
put a=yes
put d=yes
put a=no
put d=no
count=4
keys=acde
above 0=acde
above a=cde
above b=cde
above d=e
above e=
remove b=no
remove a=yes
remove a=no
keys=cde
remove d=yes
keys=ce
put b=yes
leave c=
keys=be
leave b=
keys=e
leave b=
count=1
remove e=yes
count=0
keys=
put d=yes
keys=d";

impl Asked for KeySet {
    fn ask(&mut self, alloc: Global, mut words: Words<'_>, out: &mut Vec<u8>) -> Option<()> {
        match words.word().first() {
            Some(b'c') => put_number(alloc, out, self.len() as u64),
            Some(b'k') => put_keys(out, self.iter()),
            Some(b'a') => put_keys(out, self.above(&words.key(alloc)?)),
            Some(b'p') => put_truth(out, self.add(&words.key(alloc)?).ok()?),
            Some(b'r') => put_truth(out, self.remove(&words.key(alloc)?)),
            Some(b'l') => {
                let left_out = words.key(alloc)?;
                self.retain(|key| *key != left_out);
                Some(())
            }
            _ => None,
        }
    }
}

fn put_keys(out: &mut Vec<u8>, keys: Keys<'_>) -> Option<()> {
    for key in keys {
        out.extend_from_slice(key.bytes()).ok()?;
    }
    Some(())
}

fn put_truth(out: &mut Vec<u8>, truth: bool) -> Option<()> {
    let word = if truth { "yes" } else { "no" };
    out.extend_from_slice(word.as_bytes()).ok()
}
