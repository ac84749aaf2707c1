//! The law of limits: the limit that a report names is how far a collection goes, as the contract of one function.
ghost use Rattle.std.specs.Prelude.{List, ◌≡◌};
ghost use Rattle.plain_database.specs.Prelude.{Event, IsLegal, closed_of, collection_horizon, effects_of, limit_of};

/// After a legal history a collection up to closed, or above, goes to the limit: what a report names holds it, and
/// nothing else.
#[tactic(auto, using(crate::proofs::Limits::limit_reached))]
pub fn law_of_limits()
    ensures { (h : List Event) → IsLegal h → (limit_of (effects_of h)).at ≡ collection_horizon (effects_of h) (closed_of (effects_of h)) }
{}
