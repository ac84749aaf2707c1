//! Values: 0 to 65536 bytes.
ghost use Rattle.std.specs.Prelude.{◌≡◌, ℕ, List, ◌<◌, ◌≤◌, length, bytes_eq, IfOk, IfErr, OnErr, OnOk};
ghost use Rattle.std.specs.Cmp.{partial_equiv_from_equiv};
ghost use Rattle.std.specs.Cmp.Lexicographic.{nat_list_eq_equiv};
ghost use Rattle.timestamps.specs.declared.value.TheConstants.{MAX_VALUE_BYTES};
ghost use Rattle.timestamps.specs.declared.value.ValueError.TheVariants.{ValueLength, NoMemory};

use crate::small_bytes::SmallBytes;
use std::alloc::{AllocError, Global};
use std::marker::Model;

/// The most bytes that a value has.
pub const MAX_VALUE_BYTES: usize = 65536;

/// A value, stored under a key: 0 to [`MAX_VALUE_BYTES`] bytes. Up to 24 lie in the value, and take no memory of their
/// own.
#[derive(Debug, Drop)]
pub struct Value {
    bytes: SmallBytes,
}

impl Model for Value {
    ghost Value = { List ℕ };

    ghost view = { λ v. v.bytes };

    ghost invariant = { λ v. length v.bytes ≤ MAX_VALUE_BYTES };
}

/// Why bytes are no value.
#[derive(Clone, Copy, Debug, PartialEq, Eq)]
pub enum ValueError {
    /// There are more than [`MAX_VALUE_BYTES`] bytes.
    ValueLength = 1,
    /// A growth of memory was refused.
    NoMemory,
}

impl Value {
    /// The value of these bytes. It copies them.
    pub fn new(alloc: Global, bytes: &[u8]) -> Result<Value, ValueError>
        ensures bytes { IfOk result (λ v. v ≡ bytes.now) }
        ensures in_range { OnOk result (length bytes.now ≤ MAX_VALUE_BYTES) }
        ensures refused { IfErr result (λ e. e ≡ ValueLength → MAX_VALUE_BYTES < length bytes.now) }
        ensures limit { MAX_VALUE_BYTES ≡ 65536 }
        ensures memory { IfErr result (λ e. e ≡ NoMemory → length bytes.now ≤ MAX_VALUE_BYTES) }
        ensures many { IfErr result (λ e. e ≡ NoMemory → 24 < length bytes.now) }
    {
        if bytes.len() > MAX_VALUE_BYTES {
            return Err(ValueError::ValueLength);
        }
        match SmallBytes::new(alloc, bytes) {
            Ok(bytes) => Ok(Value { bytes }),
            Err(_) => Err(ValueError::NoMemory),
        }
    }

    /// Its bytes.
    pub fn bytes(&self) -> &[u8]
        ensures bytes { result.now ≡ self.now }
        ensures in_range { length self.now ≤ MAX_VALUE_BYTES }
    {
        self.bytes.as_slice()
    }

    /// The same value once more.
    pub fn copy(&self) -> Result<Value, AllocError>
        ensures bytes { IfOk result (λ v. v ≡ self.now) }
        ensures many { OnErr result (24 < length self.now) }
    {
        let bytes = self.bytes.copy()?;
        Ok(Value { bytes })
    }
}

impl PartialEq for Value {
    ghost eq = { bytes_eq };

    ghost laws = { partial_equiv_from_equiv nat_list_eq_equiv };

    fn eq(&self, other: &Value) -> bool {
        self.bytes() == other.bytes()
    }
}

impl Eq for Value {
    ghost laws = { nat_list_eq_equiv };
}
