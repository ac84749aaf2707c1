//! The replies made of what is kept are the answers of the definitions.
ghost use Rattle.std.specs.Prelude.{List, ℕ, Some, None, true, false};
ghost use Rattle.kept.specs.Prelude.{Abort, Begin, Cancel, Close, CloseHard, Collect, Commit, Del, Get, Kept, Open, OpenEvery, OpenInitial, OpenInitialEvery, Poll, Protect, Put, ReadAt, Release, Reply, Scan, ScanAt, Span, Stats, kind_of};
ghost use Rattle.kept.specs.StandsFor.{Answers};
ghost use Rattle.kept.specs.Answered.{IsScanReply, IsWriteReply, IsCommitReply, IsCloseReply, IsHardCloseReply, IsScanAtReply, IsCollectReply, IsPollReply, IsStatsReply};
ghost use Rattle.kept.specs.Replies.{begin_reply, get_reply, abort_reply, read_at_reply, protect_reply, release_reply, open_reply, cancel_reply};

/// Each reply that is made of `k` is the answer after the history that `k` stands for. Some replies rest on what a layer
/// finds in `k`: the keys of a span, the test of the marks, the oldest undecided transaction, the least floor, the rows
/// left for a feed.
#[tactic(auto, using(crate::proofs::Answering::reply_is_answer))]
pub fn kept_answers()
    ensures begin { (k : Kept) (seat t : ℕ) → Answers k seat (Begin t) (begin_reply k t) }
    ensures get { (k : Kept) (seat t : ℕ) (x : List ℕ) → Answers k seat (Get t x) (get_reply k seat t x) }
    ensures scan { (k : Kept) (seat t : ℕ) (span : Span) (r : Reply) → IsScanReply k seat t span r → Answers k seat (Scan t span) r }
    ensures put { (k : Kept) (seat t : ℕ) (x v : List ℕ) (r : Reply) → IsWriteReply k seat t x r → Answers k seat (Put t x v) r }
    ensures del { (k : Kept) (seat t : ℕ) (x : List ℕ) (r : Reply) → IsWriteReply k seat t x r → Answers k seat (Del t x) r }
    ensures commit { (k : Kept) (seat t : ℕ) (r : Reply) → IsCommitReply k seat t r → Answers k seat (Commit t) r }
    ensures abort { (k : Kept) (seat t : ℕ) → Answers k seat (Abort t) (abort_reply k seat t) }
    ensures close { (k : Kept) (seat to : ℕ) (r : Reply) → IsCloseReply k to r → Answers k seat (Close to) r }
    ensures close_hard { (k : Kept) (seat to : ℕ) (r : Reply) → IsHardCloseReply k to r → Answers k seat (CloseHard to) r }
    ensures read_at { (k : Kept) (seat t : ℕ) (x : List ℕ) → Answers k seat (ReadAt t x) (read_at_reply k t x) }
    ensures scan_at { (k : Kept) (seat t : ℕ) (span : Span) (r : Reply) → IsScanAtReply k t span r → Answers k seat (ScanAt t span) r }
    ensures protect { (k : Kept) (seat t : ℕ) → Answers k seat (Protect t) (protect_reply k t) }
    ensures release { (k : Kept) (seat id : ℕ) → Answers k seat (Release id) (release_reply k id) }
    ensures collect { (k : Kept) (seat to : ℕ) (r : Reply) → IsCollectReply k to r → Answers k seat (Collect to) r }
    ensures open { (k : Kept) (seat c : ℕ) (span : Span) → Answers k seat (Open span c) (open_reply (kind_of false None) k c) }
    ensures open_initial { (k : Kept) (seat c : ℕ) (span : Span) → Answers k seat (OpenInitial span c) (open_reply (kind_of true None) k c) }
    ensures open_every { (k : Kept) (seat c gap : ℕ) (span : Span) → Answers k seat (OpenEvery span c gap) (open_reply (kind_of false (Some gap)) k c) }
    ensures open_initial_every { (k : Kept) (seat c gap : ℕ) (span : Span) → Answers k seat (OpenInitialEvery span c gap) (open_reply (kind_of true (Some gap)) k c) }
    ensures poll { (k : Kept) (seat f max : ℕ) (r : Reply) → IsPollReply k seat f max r → Answers k seat (Poll f max) r }
    ensures cancel { (k : Kept) (seat f : ℕ) → Answers k seat (Cancel f) (cancel_reply k f) }
    ensures stats { (k : Kept) (seat : ℕ) (r : Reply) → IsStatsReply k r → Answers k seat Stats r }
{}
