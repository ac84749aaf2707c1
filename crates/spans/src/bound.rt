//! Bounds of spans: 1 to 257 bytes, so that the place just above any key is one.
ghost use Rattle.std.specs.Prelude.{◌≡◌, ℕ, suc, List, Some, ◌<◌, ◌≤◌, ◌⊎◌, length, take, bytes_eq, IfOk, IfErr, OnOk, OnErr};
ghost use Rattle.std.specs.Cmp.{partial_equiv_from_equiv};
ghost use Rattle.std.specs.Cmp.Lexicographic.{nat_list_eq_equiv};
ghost use Rattle.spans.specs.KeyOrder.{from_low, below_high, key_lt, start_of, successor, IsCut, all_bytes};
ghost use Rattle.std.specs.Range.Bound.{bound_map};
ghost use Rattle.spans.specs.declared.bound.TheConstants.{MAX_BOUND_BYTES};
ghost use Rattle.spans.specs.declared.bound.BoundError.TheVariants.{BoundLength, NoMemory};

use std::alloc::{AllocError, Global};
use std::marker::Model;
use std::ops;
use timestamps::{Key, MAX_KEY_BYTES, SmallBytes};

/// The most bytes that a bound has: one more than a key.
pub const MAX_BOUND_BYTES: usize = 257;

/// A place among the keys: 1 to [`MAX_BOUND_BYTES`] bytes, compared with keys byte by byte.
///
/// Its first bytes, as many as a key may have, are kept as a key, so that no search of a map of keys makes one. The few
/// bounds that have one byte more keep all their bytes beside that.
#[derive(Debug, Drop)]
pub struct Bound {
    bytes: BoundBytes,
}

impl Model for Bound {
    ghost Value = { List ℕ };

    ghost view = { λ b. all_bytes b.bytes };

    ghost invariant = { λ b. IsCut b.bytes };
}

/// The bytes of a bound. Those of the longest are in a box, since every command of a span has room for two bounds.
#[derive(Debug)]
enum BoundBytes {
    /// As many as a key may have.
    Short(Key),
    /// One more.
    Long(Box<LongBytes>),
}

/// One byte more than a key has, and the key of all but the last.
#[derive(Debug, Drop)]
struct LongBytes {
    first: Key,
    all: SmallBytes,
}

// for the proof, which has no case for each place of its bytes where a bound is dropped
impl Drop for BoundBytes {
    fn drop(self) {
        let (BoundBytes::Short(_) | BoundBytes::Long(_)) = self;
    }
}

/// Why bytes are no bound.
#[derive(Clone, Copy, Debug, PartialEq, Eq)]
pub enum BoundError {
    /// There is no byte, or there are more than [`MAX_BOUND_BYTES`].
    BoundLength = 1,
    /// A growth of memory was refused.
    NoMemory,
}

impl Bound {
    /// The bound of these bytes. It copies them.
    pub fn new(alloc: Global, bytes: &[u8]) -> Result<Bound, BoundError>
        ensures bytes { IfOk result (λ b. b ≡ bytes.now) }
        ensures in_range { OnOk result ((1 ≤ length bytes.now) × (length bytes.now ≤ MAX_BOUND_BYTES)) }
        ensures refused { IfErr result (λ e. e ≡ BoundLength → (length bytes.now ≡ 0) ⊎ (MAX_BOUND_BYTES < length bytes.now)) }
        ensures limit { MAX_BOUND_BYTES ≡ 257 }
        ensures memory { IfErr result (λ e. e ≡ NoMemory → (1 ≤ length bytes.now) × (length bytes.now ≤ MAX_BOUND_BYTES)) }
        ensures many { IfErr result (λ e. e ≡ NoMemory → 24 < length bytes.now) }
    {
        if bytes.is_empty() || bytes.len() > MAX_BOUND_BYTES {
            return Err(BoundError::BoundLength);
        }
        Bound::of(alloc, bytes).map_err(|_| BoundError::NoMemory)
    }

    /// The bound of so many bytes.
    fn of(alloc: Global, bytes: &[u8]) -> Result<Bound, AllocError>
        requires some { 1 ≤ length bytes.now }
        requires few { length bytes.now ≤ MAX_BOUND_BYTES }
        ensures bytes { IfOk result (λ b. b ≡ bytes.now) }
        ensures many { OnErr result (24 < length bytes.now) }
    {
        if bytes.len() <= MAX_KEY_BYTES {
            return Ok(Bound::short(key_of(alloc, bytes)?));
        }
        let first = key_of(alloc, &bytes[..MAX_KEY_BYTES])?;
        Bound::long(alloc, first, SmallBytes::new(alloc, bytes)?)
    }

    /// The bound of as many bytes as a key may have.
    fn short(key: Key) -> Bound
        ensures { result ≡ key }
    {
        let bytes = BoundBytes::Short(key);
        Bound { bytes }
    }

    /// The bound of one byte more. `first` are all but the last.
    fn long(alloc: Global, first: Key, all: SmallBytes) -> Result<Bound, AllocError>
        requires more { length all ≡ suc MAX_KEY_BYTES }
        requires first { first ≡ take MAX_KEY_BYTES all }
        ensures { IfOk result (λ b. b ≡ all) }
    {
        let bytes = BoundBytes::Long(Box::new(alloc, LongBytes { first, all })?);
        Ok(Bound { bytes })
    }

    /// The bound at which a key begins: its bytes.
    pub fn of_key(key: &Key) -> Result<Bound, AllocError>
        ensures { IfOk result (λ b. b ≡ key.now) }
    {
        Ok(Bound::short(key.copy()?))
    }

    /// The least bound above the key: its bytes and a zero byte.
    pub fn successor(alloc: Global, key: &Key) -> Result<Bound, AllocError>
        ensures bytes { IfOk result (λ b. b ≡ successor key.now) }
        ensures least { IfOk result (λ b. (x : List ℕ) → from_low (Some b) x ≡ key_lt key.now x) }
    {
        if key.bytes().len() < MAX_KEY_BYTES {
            return Ok(Bound::short(key.successor(alloc)?));
        }
        let all = key.as_small_bytes().with_zero(alloc)?;
        let above = Bound::long(alloc, key.copy()?, all)?;
        Ok(above)
    }

    /// Its bytes.
    pub fn bytes(&self) -> &[u8]
        ensures bytes { result.now ≡ self.now }
        ensures in_range { (1 ≤ length self.now) × (length self.now ≤ MAX_BOUND_BYTES) }
    {
        match &self.bytes {
            BoundBytes::Short(key) => key.bytes(),
            BoundBytes::Long(long) => long.all.as_slice(),
        }
    }

    /// Its bytes, as maps that are ordered by bytes are searched by them.
    #[inline]
    pub fn as_small_bytes(&self) -> &SmallBytes
        ensures { result.now ≡ self.now }
    {
        match &self.bytes {
            BoundBytes::Short(key) => key.as_small_bytes(),
            BoundBytes::Long(long) => &long.all,
        }
    }

    /// The beginning of the keys at or above the bound, as a map of keys is asked for a range. Of a bound with one byte more
    /// than a key they are those above its first bytes.
    pub fn start(&self) -> ops::Bound<&Key>
        ensures { bound_map (λ k. k.now) result ≡ start_of (Some self.now) }
    {
        match &self.bytes {
            BoundBytes::Short(key) => ops::Bound::Included(key),
            BoundBytes::Long(long) => ops::Bound::Excluded(&long.first),
        }
    }

    /// Whether it is above the key. Few bytes, as most bounds have, are compared in place.
    pub fn is_above(&self, key: &Key) -> bool
        ensures { result ≡ key_lt key.now self.now }
    {
        key.as_small_bytes().cmp(self.as_small_bytes()).is_lt()
    }

    /// The same bound once more.
    pub fn copy(&self) -> Result<Bound, AllocError>
        ensures { IfOk result (λ b. b ≡ self.now) }
    {
        match &self.bytes {
            BoundBytes::Short(key) => Bound::of_key(key),
            BoundBytes::Long(long) => {
                Bound::long(*Box::allocator(long), long.first.copy()?, long.all.copy()?)
            }
        }
    }
}

impl PartialEq for Bound {
    ghost eq = { bytes_eq };

    ghost laws = { partial_equiv_from_equiv nat_list_eq_equiv };

    fn eq(&self, other: &Bound) -> bool {
        self.bytes() == other.bytes()
    }
}

impl Eq for Bound {
    ghost laws = { nat_list_eq_equiv };
}

/// The key of so many bytes.
fn key_of(alloc: Global, bytes: &[u8]) -> Result<Key, AllocError>
    requires some { 1 ≤ length bytes.now }
    requires few { length bytes.now ≤ MAX_KEY_BYTES }
    ensures bytes { IfOk result (λ k. k ≡ bytes.now) }
    ensures many { OnErr result (24 < length bytes.now) }
{
    Key::new(alloc, bytes).map_err(|_| AllocError)
}

/// Whether the key is at or above the bound, where there is one.
pub fn is_from(low: &Option<Bound>, key: &Key) -> bool
    ensures { result ≡ from_low low.now key.now }
{
    low.as_ref().is_none_or(|low| !low.is_above(key))
}

/// Whether the key is below the bound, where there is one.
pub fn is_below(high: &Option<Bound>, key: &Key) -> bool
    ensures { result ≡ below_high high.now key.now }
{
    high.as_ref().is_none_or(|high| high.is_above(key))
}

/// The same bound once more, where there is one.
pub fn copy_bound(bound: &Option<Bound>) -> Result<Option<Bound>, AllocError>
    ensures { IfOk result (λ copy. copy ≡ bound.now) }
{
    match bound {
        None => Ok(None),
        Some(bound) => Ok(Some(bound.copy()?)),
    }
}
