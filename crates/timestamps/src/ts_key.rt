//! Numbers as the keys of maps that are ordered by timestamp.
ghost use Rattle.std.specs.Prelude.{◌≡◌, ◌≤◌, ℕ, Some};
ghost use Rattle.std.specs.Ordering.{nat_cmp};
ghost use Rattle.std.specs.Cmp.Rules.{comparing};
ghost use Rattle.std.proofs.Common.{rules};

use std::cmp::Ordering;
use std::marker::Model;

/// A timestamp as the key of an ordered map, or any other number that such a map is asked for.
///
/// Its order is that of `u64`. A search asks at each key whether what it looks for is above. `u64`'s order computes which
/// of three answers it is. This one compares once and branches, so a search takes less than half the instructions.
#[derive(Clone, Copy, Debug, PartialEq, Eq)]
pub struct TsKey(pub u64);

impl Model for TsKey {
    ghost Value = { ℕ };

    ghost view = { λ m. m.0 };

    ghost inverse = { λ n. record { 0 = n } };
}

impl TsKey {
    // The order of one that isn't above, in a call of its own: a search computes no order for a key that it passes.
    #[inline(never)]
    fn unless_above(&self, other: &TsKey) -> Ordering
        requires { self.now ≤ other.now }
        ensures { result ≡ nat_cmp self.now other.now }
    {
        if self.0 == other.0 {
            Ordering::Equal
        } else {
            Ordering::Less
        }
    }
}

impl PartialOrd for TsKey {
    ghost partial_cmp = { λ x y. Some (nat_cmp x y) };

    ghost laws = { Prim.search (comparing, rules) };

    #[inline]
    fn partial_cmp(&self, other: &TsKey) -> Option<Ordering> {
        Some(self.cmp(other))
    }
}

impl Ord for TsKey {
    ghost cmp = { nat_cmp };

    ghost total = { Prim.search rules };

    ghost matches_partial_cmp = { Prim.search rules };

    ghost matches_eq = { Prim.search rules };

    #[inline]
    fn cmp(&self, other: &TsKey) -> Ordering {
        if self.0 > other.0 {
            return Ordering::Greater;
        }
        self.unless_above(other)
    }
}
