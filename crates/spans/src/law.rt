//! The law of histories: what holds of every legal history, as the contract of one function.
ghost use Rattle.std.specs.Prelude.{List, ◌∷◌, ◌++◌, ℕ, ◌≡◌, ◌↔◌, true, Some};
ghost use Rattle.spans.specs.declared.calls.events.Event.{Event};
ghost use Rattle.spans.specs.Effects.{effects_of};
ghost use Rattle.spans.specs.Legal.{IsLegal};
ghost use Rattle.spans.specs.Reads.{IsReadAcross, ReadNewest, too_late};
ghost use Rattle.spans.specs.Feeds.{Feed, feed_of};
ghost use Rattle.spans.specs.FeedRight.{FeedIsRight};
ghost use Rattle.spans.specs.Consumer.{ConsumerIsRight};
ghost use Rattle.spans.specs.Completeness.{CompleteIsRight};
ghost use Rattle.spans.specs.Promises.{ReadsOwn, NeverFalls, MapsStand, IsHorizonHeld, SnapshotsStand, AreVersionsCounted};
ghost use Rattle.spans.specs.Law.{IsLawful};
ghost use Rattle.spans.specs.Serial.{IsOneCopy};

/// A legal history, its newest event first, is that of a database with one copy, run in timestamp order; each feed tells
/// the right messages; a consumer of a feed takes them all, has after each resolved message the map at its timestamp, and
/// knows between them too through where it was told all. Beside it: the write rule that the answers test is the one of
/// Bernstein, Hadzilacos and Goodman, for every list of events; and every read, also by a transaction that aborts later,
/// returns its own transaction's write, or else the newest committed version below its timestamp, and no later commit
/// changes which version that is.
///
/// It keeps what the guide promises too: a transaction reads its own writes; closed and the horizon never fall; nothing that
/// comes later changes the map at a closed timestamp; the horizon passes neither closed, nor a protection before its
/// release, nor the floor of a feed before its cancellation; what a collection drops changes no snapshot from the horizon
/// on; and `stats` counts each version that isn't dead once. `lawful` says all of one history in one word.
///
/// Legal says of a history that each reply is the one that `answer_of` computes, or out of memory where a command may want
/// it. Nothing else is assumed. The function does nothing: its contract is the theorem.
pub fn law_of_histories()
    ensures one_copy { (h : List Event) → IsLegal h → IsOneCopy (effects_of h) }
    ensures write_rule { (h : List Event) (x : List ℕ) (i : ℕ) → (too_late (effects_of h) x i ≡ true) ↔ IsReadAcross (effects_of h) x i }
    ensures reads_from { (h : List Event) → IsLegal h → ReadNewest (effects_of h) }
    ensures feeds { (h : List Event) → IsLegal h → (f : ℕ) (feed : Feed) → feed_of (effects_of h) f ≡ Some feed → FeedIsRight (effects_of h) f feed }
    ensures consumers { (h : List Event) → IsLegal h → (f : ℕ) (feed : Feed) → feed_of (effects_of h) f ≡ Some feed → ConsumerIsRight (effects_of h) f feed }
    ensures completes { (h : List Event) → IsLegal h → (f : ℕ) (feed : Feed) → feed_of (effects_of h) f ≡ Some feed → CompleteIsRight (effects_of h) f feed }
    ensures own { (h : List Event) → IsLegal h → ReadsOwn (effects_of h) }
    ensures rises { (e : Event) (h : List Event) → IsLegal (e ∷ h) → NeverFalls (effects_of h) (effects_of (e ∷ h)) }
    ensures for_ever { (later h : List Event) → IsLegal (later ++ h) → MapsStand (effects_of (later ++ h)) (effects_of h) }
    ensures horizon { (h : List Event) → IsLegal h → IsHorizonHeld (effects_of h) }
    ensures snapshots { (h : List Event) → IsLegal h → SnapshotsStand (effects_of h) }
    ensures counts { (h : List Event) → IsLegal h → AreVersionsCounted (effects_of h) }
    ensures lawful { (h : List Event) → IsLegal h → IsLawful h }
{}
