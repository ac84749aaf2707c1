//! The law of replicas: what holds of the replicas of every legal history's feeds, as the contract of one function.
ghost use Rattle.std.specs.Prelude.{List, ℕ, true, ◌≡◌};
ghost use Rattle.spans.specs.declared.calls.events.Event.{Event};
ghost use Rattle.replica.specs.Prelude.{AreRows, Effect, Feed, Map, Span, effects_of};
ghost use Rattle.spans.specs.Legal.{IsLegal};
ghost use Rattle.replica.specs.Starts.{Pairs, seeded_by, initial_start, MayBegin, IsSeedAt, IsStartOf};
ghost use Rattle.replica.specs.Right.{ReplicasAreRight};

/// Of a feed that was opened in a legal history, newest event first: a replica that began as its consumer is to
/// begin refuses none of the feed's messages, unless it is out of memory. After each resolved message it is complete at
/// its timestamp, and where it is complete there or before the first message, or is ready for the next row, it has the
/// span's part of the map at that timestamp. All that is told later is above what it says that it was told all through.
///
/// A replica that goes on with its rows, of a feed that was opened there, refuses none either, is complete at each
/// resolved timestamp, and was told all through what it says. (The first messages may repeat what it has, so where it
/// goes on from is no timestamp at which it is ready, or complete.)
///
/// A consumer of an initial feed is to begin empty, and any other with the rows of a scan at the cursor, which no
/// replica refuses. The function does nothing: its contract is the theorem.
pub fn law_of_replicas()
    ensures right { (h : List Event) (f : ℕ) → IsLegal h → ReplicasAreRight (effects_of h) f }
    ensures initial { (p : List Effect) (feed : Feed) → feed.kind.initial ≡ true → IsStartOf p feed (initial_start feed.span feed.cursor) }
    ensures seeded { (p : List Effect) (feed : Feed) (rows : Pairs) → IsSeedAt p feed rows → IsStartOf p feed (seeded_by feed rows) }
    ensures begins { (span : Span) (m : Map) (rows : Pairs) → AreRows span m rows → MayBegin span rows }
{}
