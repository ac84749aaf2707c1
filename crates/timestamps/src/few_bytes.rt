//! A few bytes, which lie in place.
ghost use Rattle.std.specs.Prelude.{◌≡◌, ◌<◌, ◌≤◌, ◌*◌, ◌++◌, ◌∷◌, ◌↔◌, [], length, drop, IsTrue, ℕ, List, take};
ghost use Rattle.timestamps.specs.Bytes.{key_cmp, AreBytes, front_of, IsPadded};

use std::cmp::Ordering;
use std::marker::Model;

/// The most bytes that lie in place.
pub(crate) const FEW: usize = 24;

/// How many bytes a word has.
const WORD_BYTES: usize = 8;

/// Up to [`FEW`] bytes, ordered byte by byte, a beginning before what it begins.
///
/// Zeros stand behind the last byte. So two of them are compared as words, which are numbers of eight bytes with the
/// first byte as the greatest digit, and only where all words are the same do the lengths decide.
#[derive(Debug, Drop)]
pub(crate) struct FewBytes {
    len: u8,
    bytes: [u8; FEW],
}

impl Model for FewBytes {
    ghost Value = { List ℕ };

    ghost view = { λ f. take f.len f.bytes };

    ghost invariant = { λ f. IsPadded f.len f.bytes };
}

impl FewBytes {
    /// These bytes.
    pub(crate) fn new(bytes: &[u8]) -> FewBytes
        requires { length bytes.now ≤ FEW }
        ensures { result ≡ bytes.now }
    {
        let mut place = [0; FEW];
        place[..bytes.len()].copy_from_slice(bytes);
        FewBytes {
            len: bytes.len() as u8,
            bytes: place,
        }
    }

    /// The bytes.
    pub(crate) fn as_slice(&self) -> &[u8]
        ensures bytes { result.now ≡ self.now }
        ensures few { length self.now ≤ FEW }
    {
        &self.bytes[..self.len as usize]
    }

    /// The same bytes once more.
    pub(crate) fn copy(&self) -> FewBytes
        ensures { result ≡ self.now }
    {
        FewBytes {
            len: self.len,
            bytes: self.bytes,
        }
    }

    /// The same bytes and a zero behind them, where there is a place for it. It is there already.
    pub(crate) fn with_zero(&self) -> FewBytes
        requires { length self.now < FEW }
        ensures { result ≡ self.now ++ 0 ∷ [] }
    {
        FewBytes {
            len: self.len + 1,
            bytes: self.bytes,
        }
    }

    /// Whether they are others and a zero behind them. Zeros stand behind all of them, so that the lengths tell.
    pub(crate) fn is_successor_of(&self, other: &FewBytes) -> bool
        ensures { IsTrue result ↔ (self.now ≡ other.now ++ 0 ∷ []) }
    {
        self.len == other.len + 1 && self.bytes == other.bytes
    }

    /// How they compare with others.
    #[inline]
    pub(crate) fn order(&self, other: &FewBytes) -> Ordering
        ensures { result ≡ key_cmp self.now other.now }
    {
        for i in 0..FEW / WORD_BYTES {
            let word = self.word(i);
            let others = other.word(i);
            if word != others {
                return word.cmp(&others);
            }
        }
        self.len.cmp(&other.len)
    }

    /// One of their words.
    #[inline]
    fn word(&self, i: usize) -> u64
        requires { i < 3 }
        ensures word { result ≡ front_of (drop (8 * i) self.now) }
        ensures bytes { AreBytes self.now }
    {
        // so many bytes are there
        let bytes = self.bytes[WORD_BYTES * i..].first_chunk().unwrap();
        u64::from_be_bytes(*bytes)
    }
}
