//! The law of seats: what the calls of a shared database leave is lawful, as the contract of one function.
ghost use Rattle.std.specs.Prelude.{ℕ, List, reverse};
ghost use Rattle.shared_db.specs.Prelude.{Cmd, Engine, Event, Seat, seen, Served, Db};
ghost use Rattle.spans.specs.Law.{IsLawful};
ghost use Rattle.shared_db.specs.contracts.served.ServedChronicle.TheImpl.{ghosts};
ghost use Rattle.shared_db.specs.Calls.{IsAnswered};
ghost use Rattle.shared_db.specs.Seats.{IsWhole};

/// A seat's view after a call is lawful, and so is the whole history once all seats are back: each clause of
/// `spans::law::law_of_histories` holds of both. The function does nothing: its contract is the theorem.
pub fn law_of_seats()
    ensures answered { (first : ℕ) (old new : Seat Served Event ghosts) (cmd : Cmd) (event : Event) → IsAnswered first old cmd event new → IsLawful (reverse (seen new)) }
    ensures whole { (db : Db) (seats : List (Seat Served Event ghosts)) (engine : Engine) (w : IsWhole db seats engine) → IsLawful (reverse w.history) }
{}
