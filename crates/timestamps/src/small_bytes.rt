//! Bytes of any length, in place where they are few.
ghost use Rattle.std.specs.Prelude.{◌≡◌, ◌<◌, ◌++◌, ◌∷◌, ◌↔◌, [], ◌≤◌, Some, refl, length, bytes_eq, IfOk, OnErr, IsTrue, ℕ, List};
ghost use Rattle.std.specs.Cmp.{partial_equiv_from_equiv};
ghost use Rattle.std.specs.Cmp.Lexicographic.{nat_list_eq_equiv, nat_list_cmp_total, texts_ties, texts_po};
ghost use Rattle.timestamps.specs.Bytes.{key_cmp};
ghost use Rattle.timestamps.specs.SmallBytes.{IsPlaced, bytes_in};

use crate::few_bytes::{FEW, FewBytes};
use std::alloc::{AllocError, Global};
use std::cmp::Ordering;
use std::marker::Model;

/// Bytes of any length, ordered byte by byte, a beginning before what it begins. Only more than 24 take memory.
#[derive(Debug, Drop)]
pub struct SmallBytes {
    place: Place,
}

impl Model for SmallBytes {
    ghost Value = { List ℕ };

    ghost view = { λ b. bytes_in b.place };

    ghost invariant = { λ b. IsPlaced b.place };
}

/// The bytes, in place or in a vector.
#[derive(Debug)]
enum Place {
    Few(FewBytes),
    Many(Vec<u8>),
}

// for the proof, which has no case for each place of them where bytes are dropped
impl Drop for Place {
    fn drop(self) {
        let (Place::Few(_) | Place::Many(_)) = self;
    }
}

impl SmallBytes {
    /// No byte. It takes no memory.
    #[inline]
    pub fn empty() -> SmallBytes
        ensures { result ≡ [] }
    {
        let place = Place::Few(FewBytes::new(&[]));
        SmallBytes { place }
    }

    /// These bytes. It copies them.
    pub fn new(alloc: Global, bytes: &[u8]) -> Result<SmallBytes, AllocError>
        ensures bytes { IfOk result (λ b. b ≡ bytes.now) }
        ensures many { OnErr result (24 < length bytes.now) }
    {
        let place = if bytes.len() <= FEW {
            Place::Few(FewBytes::new(bytes))
        } else {
            Place::Many(bytes.to_vec(alloc)?)
        };
        Ok(SmallBytes { place })
    }

    /// The bytes.
    #[inline]
    pub fn as_slice(&self) -> &[u8]
        ensures { result.now ≡ self.now }
    {
        match &self.place {
            Place::Few(few) => few.as_slice(),
            Place::Many(many) => many.as_slice(),
        }
    }

    /// The same bytes once more.
    pub fn copy(&self) -> Result<SmallBytes, AllocError>
        ensures bytes { IfOk result (λ b. b ≡ self.now) }
        ensures many { OnErr result (24 < length self.now) }
    {
        let place = match &self.place {
            Place::Few(few) => Place::Few(few.copy()),
            Place::Many(many) => Place::Many(many.clone()?),
        };
        Ok(SmallBytes { place })
    }

    /// The same bytes and a zero behind them.
    pub fn with_zero(&self, alloc: Global) -> Result<SmallBytes, AllocError>
        ensures bytes { IfOk result (λ b. b ≡ self.now ++ 0 ∷ []) }
        ensures many { OnErr result (24 ≤ length self.now) }
    {
        if let Place::Few(few) = &self.place
            && few.as_slice().len() < FEW
        {
            let place = Place::Few(few.with_zero());
            return Ok(SmallBytes { place });
        }
        let bytes = self.as_slice();
        let mut longer = Vec::with_capacity(alloc, bytes.len() + 1)?;
        longer.extend_from_slice(bytes)?;
        longer.push(0)?;
        let place = Place::Many(longer);
        Ok(SmallBytes { place })
    }

    /// Whether they are others and a zero behind them.
    pub fn is_successor_of(&self, other: &SmallBytes) -> bool
        ensures { IsTrue result ↔ (self.now ≡ other.now ++ 0 ∷ []) }
    {
        if let (Place::Few(few), Place::Few(others)) = (&self.place, &other.place) {
            return few.is_successor_of(others);
        }
        match self.as_slice().strip_prefix(other.as_slice()) {
            None => false,
            Some(behind) => behind.len() == 1 && behind[0] == 0,
        }
    }
}

impl PartialEq for SmallBytes {
    ghost eq = { bytes_eq };

    ghost laws = { partial_equiv_from_equiv nat_list_eq_equiv };

    #[inline]
    fn eq(&self, other: &SmallBytes) -> bool {
        self.cmp(other).is_eq()
    }
}

impl Eq for SmallBytes {
    ghost laws = { nat_list_eq_equiv };
}

impl PartialOrd for SmallBytes {
    ghost partial_cmp = { λ a b. Some (key_cmp a b) };

    ghost laws = { texts_po };

    // by `cmp`, which compares numbers, where a derived one would walk the bytes
    fn partial_cmp(&self, other: &SmallBytes) -> Option<Ordering> {
        Some(self.cmp(other))
    }
}

impl Ord for SmallBytes {
    ghost cmp = { key_cmp };

    ghost total = { nat_list_cmp_total };

    ghost matches_partial_cmp = { λ a b. refl };

    ghost matches_eq = { texts_ties };

    // few bytes, as most keys have, are compared in place
    #[inline]
    fn cmp(&self, other: &SmallBytes) -> Ordering {
        match (&self.place, &other.place) {
            (Place::Few(few), Place::Few(others)) => few.order(others),
            _ => self.as_slice().cmp(other.as_slice()),
        }
    }
}
