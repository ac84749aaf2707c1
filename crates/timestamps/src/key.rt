//! Keys: 1 to 256 bytes, in byte order.
ghost use Rattle.std.specs.Prelude.{◌≡◌, ℕ, List, [], ◌∷◌, ◌++◌, ◌<◌, ◌≤◌, ◌⊎◌, Some, refl, length, bytes_eq, IfOk, IfErr, OnErr, OnOk};
ghost use Rattle.std.specs.Cmp.{on_equiv, on_total, on_po, on_per, partial_equiv_from_equiv};
ghost use Rattle.std.specs.Cmp.Lexicographic.{nat_list_eq_equiv, nat_list_cmp_total, texts_ties, texts_po};
ghost use Rattle.timestamps.specs.Bytes.{key_cmp};
ghost use Rattle.timestamps.specs.declared.key.TheConstants.{MAX_KEY_BYTES};
ghost use Rattle.timestamps.specs.declared.key.KeyError.TheVariants.{KeyLength, NoMemory};

use crate::small_bytes::SmallBytes;
use std::alloc::{AllocError, Global};
use std::cmp::Ordering;
use std::marker::Model;

/// The most bytes that a key has.
pub const MAX_KEY_BYTES: usize = 256;

/// A key, under which a value is stored: 1 to [`MAX_KEY_BYTES`] bytes, ordered byte by byte, a beginning
/// before what it begins. The bytes of a key of up to 24 lie in the key, and take no memory of their own.
#[derive(Debug, Drop)]
pub struct Key {
    bytes: SmallBytes,
}

impl Model for Key {
    ghost Value = { List ℕ };

    ghost view = { λ k. k.bytes };

    ghost invariant = { λ k. (1 ≤ length k.bytes) × (length k.bytes ≤ MAX_KEY_BYTES) };
}

/// Why bytes are no key.
#[derive(Clone, Copy, Debug, PartialEq, Eq)]
pub enum KeyError {
    /// There is no byte, or there are more than [`MAX_KEY_BYTES`].
    KeyLength = 1,
    /// A growth of memory was refused.
    NoMemory,
}

impl Key {
    /// The key of these bytes. It copies them.
    pub fn new(alloc: Global, bytes: &[u8]) -> Result<Key, KeyError>
        ensures bytes { IfOk result (λ k. k ≡ bytes.now) }
        ensures in_range { OnOk result ((1 ≤ length bytes.now) × (length bytes.now ≤ MAX_KEY_BYTES)) }
        ensures refused { IfErr result (λ e. e ≡ KeyLength → (length bytes.now ≡ 0) ⊎ (MAX_KEY_BYTES < length bytes.now)) }
        ensures limit { MAX_KEY_BYTES ≡ 256 }
        ensures memory { IfErr result (λ e. e ≡ NoMemory → (1 ≤ length bytes.now) × (length bytes.now ≤ MAX_KEY_BYTES)) }
        ensures many { IfErr result (λ e. e ≡ NoMemory → 24 < length bytes.now) }
    {
        if bytes.is_empty() || bytes.len() > MAX_KEY_BYTES {
            return Err(KeyError::KeyLength);
        }
        match SmallBytes::new(alloc, bytes) {
            Ok(bytes) => Ok(Key { bytes }),
            Err(_) => Err(KeyError::NoMemory),
        }
    }

    /// Its bytes.
    pub fn bytes(&self) -> &[u8]
        ensures bytes { result.now ≡ self.now }
        ensures in_range { (1 ≤ length self.now) × (length self.now ≤ MAX_KEY_BYTES) }
    {
        self.bytes.as_slice()
    }

    /// Its bytes, as maps that are ordered by bytes are searched by them.
    #[inline]
    pub fn as_small_bytes(&self) -> &SmallBytes
        ensures { result.now ≡ self.now }
    {
        &self.bytes
    }

    /// The same key once more.
    pub fn copy(&self) -> Result<Key, AllocError>
        ensures bytes { IfOk result (λ k. k ≡ self.now) }
        ensures many { OnErr result (24 < length self.now) }
    {
        let bytes = self.bytes.copy()?;
        Ok(Key { bytes })
    }

    /// The least key above this one, its bytes and a zero behind them, where that is no byte too many.
    pub fn successor(&self, alloc: Global) -> Result<Key, AllocError>
        requires { length self.now < MAX_KEY_BYTES }
        ensures bytes { IfOk result (λ k. k ≡ self.now ++ 0 ∷ []) }
        ensures many { OnErr result (24 ≤ length self.now) }
    {
        let bytes = self.bytes.with_zero(alloc)?;
        Ok(Key { bytes })
    }
}

impl PartialEq for Key {
    ghost eq = { bytes_eq };

    ghost laws = { partial_equiv_from_equiv nat_list_eq_equiv };

    fn eq(&self, other: &Key) -> bool {
        self.bytes == other.bytes
    }
}

impl Eq for Key {
    ghost laws = { nat_list_eq_equiv };
}

impl PartialOrd for Key {
    ghost partial_cmp = { λ a b. Some (key_cmp a b) };

    ghost laws = { texts_po };

    // by `cmp`, which compares numbers, where a derived one would walk the bytes
    fn partial_cmp(&self, other: &Key) -> Option<Ordering> {
        Some(self.cmp(other))
    }
}

impl Ord for Key {
    ghost cmp = { key_cmp };

    ghost total = { nat_list_cmp_total };

    ghost matches_partial_cmp = { λ a b. refl };

    ghost matches_eq = { texts_ties };

    fn cmp(&self, other: &Key) -> Ordering {
        self.bytes.cmp(&other.bytes)
    }
}
