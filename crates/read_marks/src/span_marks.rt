//! The latest reader of each key, by spans.
ghost use Rattle.std.specs.Prelude.{◌≡◌, ℕ, List, [], Some, bytes_eq, true, IfOk, OnOk, OnErr, IsTrue, false, length, max, nat_le, unwrap_or, if◌then◌else◌};
ghost use Rattle.std.specs.BTreeMap.{IsOrdered, get};
ghost use Rattle.std.specs.Map.{keys_of};
ghost use Rattle.timestamps.specs.Bytes.{key_cmp};
ghost use Rattle.spans.specs.Keys.{in_span};
ghost use Rattle.spans.proofs.WriteSets.{has};
ghost use Rattle.read_marks.specs.Starts.{AreLow};

mod joining;

use spans::Span;
use std::alloc::{AllocError, Global};
use std::collections::BTreeMap;
use std::ops::Bound;
use timestamps::{Key, SmallBytes};

/// Of each key the latest reader, by spans.
#[derive(Drop)]
pub struct SpanMarks {
    alloc: Global,
    /// The latest reader of the keys from each start on, up to the next start.
    starts: BTreeMap<SmallBytes, u64>,
    pub ghost low: { AreLow starts.entries },
}

impl SpanMarks {
    ghost use Rattle.read_marks.specs.Spans.{IsEnd, IsStart, KeepsLatest, RunsForward, is_between, latest_in, lent, raised, starts_in};

    pub fn new(alloc: Global) -> SpanMarks
        ensures { (x : List ℕ) → latest_in result x ≡ 0 }
    {
        SpanMarks {
            alloc,
            starts: BTreeMap::new(alloc),
        }
    }

    /// The latest reader of the key, or 0.
    pub fn latest(&self, key: &Key) -> u64
        ensures { result ≡ latest_in self.now key.now }
    {
        self.latest_at(key.as_small_bytes())
    }

    /// The latest reader at a place, by the last start that is not above it.
    fn latest_at(&self, place: &SmallBytes) -> u64
        ensures { result ≡ latest_in self.now place.now }
    {
        // where keys are read by gets alone, there is none
        if self.starts.is_empty() {
            return 0;
        }
        let below = (Bound::Unbounded, Bound::Included(place));
        match self.starts.range(below).next_back() {
            None => 0,
            Some((_, latest)) => *latest,
        }
    }

    /// Sees that a start is at the place.
    fn split_at(&mut self, place: &SmallBytes) -> Result<(), AllocError>
        ensures latest { KeepsLatest self.old self.new }
        ensures start { OnOk result (IsStart self.new place.now) }
        ensures starts { (q : List ℕ) → IsStart self.old q → IsStart self.new q }
    {
        if self.starts.contains_key(place) {
            return Ok(());
        }
        let latest = self.latest_at(place);
        let start = place.copy()?;
        self.starts.insert(start, latest)?;
        Ok(())
    }

    /// Sees that a start is at both ends. A refusal may leave one of them.
    fn split_ends(&mut self, lo: &SmallBytes, hi: Option<&SmallBytes>) -> Result<(), AllocError>
        ensures latest { KeepsLatest self.old self.new }
        ensures low { OnOk result (IsStart self.new lo.now) }
        ensures high { OnOk result (IsEnd self.new (lent hi.entry)) }
    {
        self.split_at(lo)?;
        match hi {
            None => Ok(()),
            Some(hi) => self.split_at(hi),
        }
    }

    /// The starts from `lo` on, and below `hi` where that is given.
    fn starts_between(
        &self,
        lo: &SmallBytes,
        hi: Option<&SmallBytes>,
    ) -> Result<Vec<SmallBytes>, AllocError>
        requires { RunsForward lo.now (lent hi) }
        ensures those { IfOk result (λ starts. starts.items ≡ keys_of (starts_in lo.now (lent hi.entry) self.now.starts.entries)) }
        ensures ordered { IsOrdered key_cmp self.now.starts }
    {
        let end = hi.map_or(Bound::Unbounded, Bound::Excluded);
        let mut starts = Vec::new(self.alloc);
        for (start, _) in self.starts.range((Bound::Included(lo), end)) {
            starts.push(start.copy()?)?;
        }
        Ok(starts)
    }

    /// The latest reader from each of these starts on rises to `ts`.
    fn raise_each(&mut self, starts: &[SmallBytes], ts: u64)
        ensures { self.new.starts.entries ≡ raised (λ start. has start starts.now) ts self.old.starts.entries }
    {
        for start in starts {
            if let Some(latest) = self.starts.get_mut(start) {
                *latest = (*latest).max(ts);
            }
        }
    }

    /// The start of a span, and its end if it has one. `least` has no byte: a span without a lower bound begins there.
    fn ends_of<'a>(
        span: &'a Span,
        least: &'a SmallBytes,
    ) -> (&'a SmallBytes, Option<&'a SmallBytes>)
        requires { least.now ≡ [] }
        ensures low { result.0.now ≡ unwrap_or span.now.lo [] }
        ensures high { lent result.1 ≡ span.now.hi }
    {
        let lo = match &span.lo {
            None => least,
            Some(lo) => lo.as_small_bytes(),
        };
        match &span.hi {
            None => (lo, None),
            Some(hi) => (lo, Some(hi.as_small_bytes())),
        }
    }

    /// Whether there is a place from `lo` on and below `hi`.
    fn runs_forward(lo: &SmallBytes, hi: Option<&SmallBytes>) -> bool
        ensures forward { result ≡ true → RunsForward lo.now (lent hi.entry) }
        ensures backward { result ≡ false → (x : List ℕ) → is_between lo.now (lent hi.entry) x ≡ false }
    {
        match hi {
            None => true,
            Some(hi) => lo.cmp(hi).is_lt(),
        }
    }

    /// `ts` reads the keys of the span.
    pub fn raise(&mut self, span: &Span, ts: u64) -> Result<(), AllocError>
        ensures ok { OnOk result ((x : List ℕ) → latest_in self.new x ≡ (if in_span span.now x then max (latest_in self.old x) ts else latest_in self.old x)) }
        ensures err { OnErr result ((x : List ℕ) → latest_in self.new x ≡ latest_in self.old x) }
    {
        let least = SmallBytes::empty();
        let (lo, hi) = Self::ends_of(span, &least);
        if !Self::runs_forward(lo, hi) {
            return Ok(());
        }
        self.split_ends(lo, hi)?;
        let starts = self.starts_between(lo, hi)?;
        self.raise_each(&starts, ts);
        self.join(lo, hi);
        Ok(())
    }

    /// Readers up to `through` go.
    pub fn forget_through(&mut self, through: u64)
        ensures { (x : List ℕ) → latest_in self.new x ≡ (if nat_le (latest_in self.old x) through then 0 else latest_in self.old x) }
    {
        self.starts.retain(|_, latest| {
            if *latest <= through {
                *latest = 0;
            }
            true
        });
        let least = SmallBytes::empty();
        self.join(&least, None);
    }

    /// How many starts there are.
    pub fn len(&self) -> usize
        ensures { result ≡ length self.now.starts.entries }
    {
        self.starts.len()
    }
}
