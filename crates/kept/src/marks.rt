//! Ways to note a read in the marks of a key.
ghost use Rattle.std.specs.Prelude.{List, ℕ, Bool, Option};
ghost use Rattle.spans.specs.Kept.{Kept};
ghost use Rattle.kept.specs.Marks.{AreSameMarks, FindsOther, FindsOwn, IsAddedMark, IsMergedMark, IsNoted};

/// A read of x by t that found t's own version is noted by no mark. One that found another's is noted
/// by t's mark among the others, or by one mark, the greatest, in the place of all that lie between
/// the version that was found and the next above t.
#[tactic(auto, using(crate::proofs::Noting::own_noted, crate::proofs::Noting::added_noted, crate::proofs::Noting::merged_noted))]
pub fn noted_reads()
    ensures own { (k : Kept) (x : List ℕ) (t : ℕ) (next : Option ℕ) (m' : ℕ → Bool) → FindsOwn k x t next → AreSameMarks (k.marked x) m' → IsNoted k x t m' }
    ensures added { (k : Kept) (x : List ℕ) (t : ℕ) (next : Option ℕ) (m' : ℕ → Bool) → FindsOther k x t next → IsAddedMark t (k.marked x) m' → IsNoted k x t m' }
    ensures merged { (k : Kept) (x : List ℕ) (t : ℕ) (next : Option ℕ) (m' : ℕ → Bool) → FindsOther k x t next → IsMergedMark k x t next m' → IsNoted k x t m' }
{}
