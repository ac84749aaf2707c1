//! Spans: sets of keys between two bounds.
ghost use Rattle.std.specs.Prelude.{◌≡◌, ◌≤◌, ◌&&◌, suc, ℕ, List, length, not, IfOk};
ghost use Rattle.std.specs.List.Sorted.{IsStrictlySortedBy};
ghost use Rattle.timestamps.specs.Bytes.{key_cmp};
ghost use Rattle.spans.specs.Keys.{in_span, is_among, is_held, NoneOverlap};

use crate::bound::{Bound, copy_bound, is_below, is_from};
use std::alloc::{AllocError, Global};
use std::mem;
use timestamps::Key;

/// The keys at or above `lo` and below `hi`; none means no bound. Where `lo` is at or above `hi` it holds no key.
#[derive(Debug, PartialEq, Eq)]
pub struct Span {
    pub lo: Option<Bound>,
    pub hi: Option<Bound>,
}

// for the proof, which has no case for each bound of it where a span is dropped
impl Drop for Span {
    fn drop(self) {
        let Span { lo: _, hi: _ } = self;
    }
}

impl Span {
    /// Whether the key is one of the span. It compares bytes at most twice.
    pub fn contains(&self, key: &Key) -> bool
        ensures { result ≡ in_span self.now key.now }
    {
        is_from(&self.lo, key) && is_below(&self.hi, key)
    }

    /// The same span once more.
    pub fn copy(&self) -> Result<Span, AllocError>
        ensures { IfOk result (λ span. span ≡ self.now) }
    {
        let lo = copy_bound(&self.lo)?;
        let hi = copy_bound(&self.hi)?;
        Ok(Span { lo, hi })
    }

    /// Spans that hold the keys of this one but for those given, which rise: the parts between them.
    /// Bytes are compared at most twice for each key, and copied twice for each that is in the span.
    pub fn without(&self, alloc: Global, keys: &[Key]) -> Result<Vec<Span>, AllocError>
        requires rising { IsStrictlySortedBy key_cmp keys.now }
        ensures held { IfOk result (λ spans. (x : List ℕ) →
            is_held spans.items x ≡ (in_span self.now x && not (is_among x keys.now))) }
        ensures apart { IfOk result (λ spans. NoneOverlap spans.items) }
        ensures few { IfOk result (λ spans. length spans.items ≤ suc (length keys.now)) }
    {
        let mut pieces = Vec::new(alloc);
        let mut lo = copy_bound(&self.lo)?;
        for key in keys {
            if is_from(&lo, key) && is_below(&self.hi, key) {
                let hi = Bound::of_key(key)?;
                let next = Bound::successor(alloc, key)?;
                let lo = mem::replace(&mut lo, Some(next));
                pieces.push(Span { lo, hi: Some(hi) })?;
            }
        }
        let hi = copy_bound(&self.hi)?;
        pieces.push(Span { lo, hi })?;
        Ok(pieces)
    }
}
