//! Numbers that are tried before a map is searched.
use slab::Slab;
use std::alloc::{AllocError, Global};
use timestamps::Key;

/// How many places of a hash are tried. They lie side by side.
pub(crate) const PLACES: usize = 4;

/// The hint that is no number.
const NONE: u32 = u32::MAX;

/// The fewest places that there are, once there are some.
const LEAST: usize = 64;

/// An odd number with ones and zeros in no order, so that a product by it has a part of each byte in its upper half.
const FACTOR: usize = 0x9E37_79B9_7F4A_7C15;

/// Numbers in places of hashes, tried before a map is searched. There are a power of two of them, so a hash is cut to a
/// place by its last digits.
#[derive(Drop)]
pub(crate) struct Hints {
    numbers: Vec<u32>,
}

impl Hints {
    /// No room for any.
    pub(crate) fn new(alloc: Global) -> Hints {
        Hints {
            numbers: Vec::new(alloc),
        }
    }

    /// A place of a hash.
    #[inline(always)]
    fn place(&self, hash: usize, which: usize) -> usize {
        (hash ^ which) & self.numbers.len().wrapping_sub(1)
    }

    /// The number there, where there is one.
    #[inline(always)]
    pub(crate) fn at(&self, hash: usize, which: usize) -> Option<usize> {
        match self.numbers.get(self.place(hash, which)) {
            Some(number) if *number != NONE => Some(*number as usize),
            _ => None,
        }
    }

    /// Twice as many places, all empty.
    fn widen(&mut self, alloc: Global) -> Result<(), AllocError> {
        let count = self.numbers.len().saturating_mul(2).max(LEAST);
        self.numbers = vec![in alloc; NONE; count]?;
        Ok(())
    }

    /// The first place of a hash that has this in it.
    fn place_of(&self, hash: usize, wanted: u32) -> Option<usize> {
        (0..PLACES)
            .map(|which| self.place(hash, which))
            .find(|place| self.numbers.get(*place) == Some(&wanted))
    }

    fn set(&mut self, place: usize, number: u32) {
        if let Some(there) = self.numbers.get_mut(place) {
            *there = number;
        }
    }

    /// Puts a number into the first empty place of a hash, or else over the one in its first place.
    fn put(&mut self, hash: usize, number: usize) {
        if number < NONE as usize {
            let empty = self.place_of(hash, NONE);
            self.set(empty.unwrap_or(self.place(hash, 0)), number as u32);
        }
    }

    /// Notes the number of a key. Where half of the places are too few, all keys are noted anew in more of them.
    pub(crate) fn note(&mut self, alloc: Global, keys: &Slab<Key>, key: &Key, number: usize) {
        if keys.len() <= self.numbers.len() / 2 || self.widen(alloc).is_err() {
            return self.put(hash_of(key), number);
        }
        for (number, key) in keys.iter() {
            self.put(hash_of(key), number);
        }
    }

    /// Takes the number of a key out, where it is noted.
    pub(crate) fn take(&mut self, key: &Key, number: usize) {
        if number < NONE as usize
            && let Some(place) = self.place_of(hash_of(key), number as u32)
        {
            self.set(place, NONE);
        }
    }
}

/// The hash of a key. Whoever chooses keys can choose their hashes, and has then the searches of a map.
#[inline]
pub(crate) fn hash_of(key: &Key) -> usize {
    let (words, rest) = key.bytes().as_chunks();
    let mut hash = rest.len();
    for word in words {
        hash = mixed(hash, usize::from_le_bytes(*word));
    }
    for byte in rest {
        hash = mixed(hash, *byte as usize);
    }
    // The last byte of a word reaches the lower digits, which are a place, by a second product alone.
    mixed(hash, 0)
}

/// A hash of what was hashed so far and of a word.
#[inline(always)]
fn mixed(hash: usize, word: usize) -> usize {
    let product = (hash ^ word).wrapping_mul(FACTOR);
    product ^ (product >> 32)
}
