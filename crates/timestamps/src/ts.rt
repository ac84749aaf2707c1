//! Timestamps of transactions.
ghost use Rattle.std.specs.Prelude.{◌≡◌, ℕ, ◌<◌, ◌≤◌, ◌↔◌, IsSome, IfSome};
ghost use Rattle.timestamps.specs.declared.ts.TheConstants.{MAX};

use std::marker::Model;

/// The greatest timestamp.
pub const MAX: u64 = 9223372036854775807;

/// When a transaction takes place in the one order of all transactions: 1 to [`MAX`].
#[derive(Clone, Copy, Debug, PartialEq, Eq, Hash, PartialOrd, Ord)]
pub struct Ts {
    number: u64,
}

impl Model for Ts {
    ghost Value = { ℕ };

    ghost view = { λ t. t.number };

    ghost invariant = { λ t. (1 ≤ t.number) × (t.number ≤ 9223372036854775807) };

    ghost inverse = { λ n. record { number = n } };
}

impl Ts {
    /// The timestamp of this number, or `None` where it is 0 or above [`MAX`].
    pub fn new(number: u64) -> Option<Ts>
        ensures in_range { IsSome result ↔ ((1 ≤ number) × (number ≤ MAX)) }
        ensures number { IfSome result (λ t. t ≡ number) }
        ensures limit { MAX ≡ 9223372036854775807 }
    {
        if number == 0 || number > MAX {
            return None;
        }
        Some(Ts { number })
    }

    /// Its number, from 1 to [`MAX`].
    pub fn get(self) -> u64
        ensures number { result ≡ self }
        ensures in_range { (1 ≤ result) × (result ≤ MAX) }
    {
        self.number
    }
}
