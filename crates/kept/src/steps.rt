//! What each event changes of what is kept.
ghost use Rattle.std.specs.Prelude.{List, [], ℕ};
ghost use Rattle.kept.specs.Prelude.{Aborts, After, Begins, Cancels, Closes, Cmd, Collects, Commits, Event, HardCloses, Kept, Kind, Message, NoEffect, Opens, Polls, Protects, Reads, Releases, Reply, Scans, SnapshotReads, SnapshotScans, Span, Writes};
ghost use Rattle.kept.specs.Answered.{IsStep};
ghost use Rattle.kept.specs.StandsFor.{StandsFor, nothing_kept, LeadsTo, LeadsOn, Pairs};
ghost use Rattle.kept.specs.Changes.{IsAlike, IsBegun, IsReadBy, IsScannedBy, IsWritten, IsCommittedBy, IsAbortedBy, IsClosedAt, IsHardClosedAt, IsCollectedTo, IsProtectedBy, IsReleasedFrom, IsOpenedAt, IsMovedBy, IsCancelledFrom};

/// Simulation: if `k` stands for a history, an event is legal after it, and `k'` is `k` changed by the event's effect, then
/// `k'` stands for the history with the event. The clause `step` is all of them at once: a command that is answered by what
/// is kept, and changes it by its effect, or wants memory, leads on.
#[tactic(auto, using(crate::proofs::AfterBegins::new_is_kept, crate::proofs::Standing::alike_stands, crate::proofs::Staying::alike_self, crate::proofs::Answering::changed_stands, crate::proofs::Answering::step_stands))]
pub fn kept_steps()
    ensures new { StandsFor nothing_kept [] }
    ensures alike { (k k' : Kept) (h : List Event) → StandsFor k h → IsAlike k k' → StandsFor k' h }
    ensures no_effect { (k : Kept) → LeadsTo k NoEffect k }
    ensures snapshot_read { (k : Kept) (t : ℕ) (x : List ℕ) (v : After) → LeadsTo k (SnapshotReads t x v) k }
    ensures snapshot_scan { (k : Kept) (t : ℕ) (span : Span) (rows : Pairs) → LeadsTo k (SnapshotScans t span rows) k }
    ensures begin { (k k' : Kept) (t seat : ℕ) → IsBegun k k' t seat → LeadsTo k (Begins t seat) k' }
    ensures read { (k k' : Kept) (t : ℕ) (x : List ℕ) (v : After) → IsReadBy k k' t x → LeadsTo k (Reads t x v) k' }
    ensures scan { (k k' : Kept) (t : ℕ) (span : Span) (rows : Pairs) → IsScannedBy k k' t span → LeadsTo k (Scans t span rows) k' }
    ensures write { (k k' : Kept) (t : ℕ) (x : List ℕ) (a : After) → IsWritten k k' t x a → LeadsTo k (Writes t x a) k' }
    ensures commit { (k k' : Kept) (t : ℕ) → IsCommittedBy k k' t → LeadsTo k (Commits t) k' }
    ensures abort { (k k' : Kept) (t : ℕ) → IsAbortedBy k k' t → LeadsTo k (Aborts t) k' }
    ensures close { (k k' : Kept) (n : ℕ) → IsClosedAt k k' n → LeadsTo k (Closes n) k' }
    ensures hard_close { (k k' : Kept) (to n : ℕ) → IsHardClosedAt k k' to n → LeadsTo k (HardCloses to n) k' }
    ensures collect { (k k' : Kept) (n : ℕ) → IsCollectedTo k k' n → LeadsTo k (Collects n) k' }
    ensures protect { (k k' : Kept) (id t : ℕ) → IsProtectedBy k k' id t → LeadsTo k (Protects id t) k' }
    ensures release { (k k' : Kept) (id : ℕ) → IsReleasedFrom k k' id → LeadsTo k (Releases id) k' }
    ensures open { (k k' : Kept) (f seat : ℕ) (kind : Kind) (span : Span) (c : ℕ) → IsOpenedAt k k' f seat kind span c → LeadsTo k (Opens f seat kind span c) k' }
    ensures poll { (k k' : Kept) (f max : ℕ) (ms : List Message) → IsMovedBy k k' f ms → LeadsTo k (Polls f max ms) k' }
    ensures cancel { (k k' : Kept) (f : ℕ) → IsCancelledFrom k k' f → LeadsTo k (Cancels f) k' }
    ensures step { (k k' : Kept) (seat : ℕ) (cmd : Cmd) (reply : Reply) → IsStep k k' seat cmd reply → LeadsOn k seat cmd reply k' }
{}
