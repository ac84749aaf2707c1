//! The rows that are left for a feed, in the two parts in which a store finds them.
ghost use Rattle.std.specs.Prelude.{List, [], ℕ, Some, false, ◌++◌, ◌≡◌, ◌<◌, ◌≤◌};
ghost use Rattle.kept.specs.Prelude.{Event, Kept, Place, Row, VersionName, start_at};
ghost use Rattle.kept.specs.StandsFor.{StandsFor};
ghost use Rattle.kept.specs.Places.{AreFirsts, AreLeftAt, AreNext, AreParts, first_of};

/// The rows left for a feed are first those that an initial feed has left of the values at its cursor, and then the stored
/// rows beyond its place. A poll for at most `max` rows asks for the second part only as far as the first leaves room. The
/// last four clauses say where the first part is empty, and from where on all is told.
#[tactic(auto, using(crate::proofs::LeftRows::parts_left, crate::proofs::LeftRows::parts_next, crate::proofs::LeftRows::another_none, crate::proofs::LeftRows::resolved_none, crate::proofs::LeftRows::past_none, crate::proofs::LeftRows::placed_above))]
pub fn rows_left()
    ensures joined { (k : Kept) (place : Place) (first more : List Row) → AreParts k place first more → AreLeftAt k place (first ++ more) }
    ensures next { (k : Kept) (place : Place) (max : ℕ) (first more : List Row) → AreParts k place first more → AreNext k place max (first_of max first more) }
    ensures another_kind { (k : Kept) (place : Place) → place.kind.initial ≡ false → AreFirsts k.version place [] }
    ensures resolved { (k : Kept) (place : Place) → place.cursor ≤ place.after → AreFirsts k.version place [] }
    ensures past { (k : Kept) (place : Place) (n : VersionName) → place.row ≡ Some n → place.cursor < n.ts → AreFirsts k.version place [] }
    ensures placed { (k : Kept) (h : List Event) (f : ℕ) (place : Place) → StandsFor k h → k.feed f ≡ Some place → start_at place.kind place.cursor ≤ place.after }
{}
