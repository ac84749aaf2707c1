//! What the value behind a lock has to be: it stands for the list of all that was done to it, and has a floor.
ghost use Rattle.std.specs.Prelude.{◌≡◌, ◌≤◌, ◌++◌, ℕ, List};

/// A value that stands for the list of everything that was done to it, and has a floor: a number
/// that never falls as the list grows.
///
/// A counter of marks, for instance, stands for a list of marks if its count is their number. It
/// is its own floor:
///
/// ```text
/// struct Counter { count: u64 }
/// struct Mark { seat: u8 }
///
/// impl Chronicle for Counter {
///     type Entry = Mark;
///     ghost stands = { λ counter first marks. counter.count ≡ length marks };
///     ghost seat_of = { λ mark. mark.seat };
///     ghost floor_of = { λ counter. counter.count };
///     fn floor(&self) -> u64 { self.count }
///     ghost floor_rises = { λ x y first before after p q. Prim.omega (arith, length-append before after) };
/// }
/// ```
pub trait Chronicle {
    /// The entry that one turn adds to the list.
    type Entry;

    /// The value stands for this list, whose first entry has this number.
    ghost stands: { Self → ℕ → List Self.Entry → Type 0 };

    /// The number of the seat that an entry names.
    ghost seat_of: { Self.Entry → ℕ };

    /// The floor, as contracts speak of it.
    ghost floor_of: { Self → ℕ };

    /// The floor.
    fn floor(&self) -> u64
        ensures { result ≡ floor_of self.now };

    /// The law: a longer list from the same first number has no lower floor.
    ghost floor_rises: { (x y : Self) (first : ℕ) (h more : List Self.Entry) → stands x first h → stands y first (h ++ more) → floor_of x ≤ floor_of y };
}
