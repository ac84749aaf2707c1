//! What the checker's store says of a span: who stops a scan, what one finds, and the committed rows behind a place.
ghost use Rattle.std.specs.Prelude.{◌≡◌, ◌≤◌, ◌&&◌, ◌++◌, ◌∷◌, [], ℕ, List, IfOk, OnOk, length, option_map, take, true};
ghost use Rattle.std.specs.Option.{option_copied};
ghost use Rattle.plain_database.specs.Prelude.{first_refusal, in_span, with_value, newest, is_blocked, visible, stream_of, Blocked};
ghost use Rattle.plain_database.specs.Replies.{beside, is_past, filled, write_rows, block_tests, rows_past};
ghost use Rattle.plain_database.specs.Table.{source_found};
ghost use Rattle.plain_database.specs.VersionsTied.{Says, version_in};

use crate::Allocated;
use crate::versions::reads::FoundKeys;
use crate::versions::store::VersionStore;
use spans::bound::{copy_bound, is_from};
use spans::{Bound, Span, State};
use std::alloc::{AllocError, Global};
use std::collections::btree_map::Range;
use std::ops;
use timestamps::row::copy_after;
use timestamps::{Key, Row, Ts, TsKey, Value};

impl VersionStore {
    /// The writer that stops a transaction from reading a span. Its version stands at the least of the keys
    /// whose version is another's and isn't committed.
    pub fn blocker(&self, span: &Span, ts: u64) -> Option<u64>
        ensures { Says self.now (λ p. first_refusal (block_tests p span.now ts) ≡ option_map Blocked result) }
    {
        for key in self.writers.keys_in(span) {
            if let Some(writer) = self.blocker_at(key, ts) {
                return Some(writer);
            }
        }
        None
    }

    /// The writer that stops a transaction from reading a key: another's, which isn't committed.
    pub(crate) fn blocker_at(&self, key: &Key, ts: u64) -> Option<u64>
        ensures { Says self.now (λ p. first_refusal ((is_blocked p key.now ts, Blocked (visible p key.now ts).ts) ∷ [])
            ≡ option_map Blocked result) }
    {
        let writer = self.source(key, ts);
        if writer == 0 || writer == ts || self.is_committed(writer) {
            return None;
        }
        Some(writer)
    }

    /// The keys of a span that may have been written, each with the timestamp of the version that a scan is given.
    pub fn sources(&self, alloc: Global, span: &Span, ts: u64) -> Result<FoundKeys, AllocError>
        ensures { IfOk result (λ sources. (x : List ℕ) → in_span span.now x ≡ true
            → source_found sources x ≡ (newest (version_in self.now x) ts).ts) }
    {
        let mut sources = FoundKeys::new(alloc);
        for key in self.writers.keys_in(span) {
            sources.add(key, self.source(key, ts))?;
        }
        Ok(sources)
    }

    /// The first `max` keys of a span above `after` whose version at or below `ts` has a value, each with it, by rising
    /// key.
    pub fn pairs(
        &self,
        alloc: Global,
        span: &Span,
        after: Option<&Key>,
        ts: u64,
        max: u64,
    ) -> Result<Vec<(Key, Value)>, AllocError>
        ensures few { IfOk result (λ pairs. length pairs.items ≤ max) }
        ensures pairs { IfOk result (λ pairs. Says self.now (λ p.
            pairs.items ≡ take max (rows_past p span.now (option_copied after.entry) ts))) }
    {
        let rest = rest_of(alloc, span, after)?;
        let mut pairs = Vec::new(alloc);
        for key in self.writers.keys_in(&rest) {
            if pairs.len() as u64 >= max {
                return Ok(pairs);
            }
            add_pair(&mut pairs, key, self.value_at(key, ts))?;
        }
        Ok(pairs)
    }

    /// The value that a key's version at or below `ts` has.
    pub(crate) fn value_at(&self, key: &Key, ts: u64) -> Option<&Value>
        ensures { Says self.now (λ p. option_copied result ≡ (visible p key.now ts).after) }
    {
        self.newest(key, ts)?.after.as_ref()
    }

    /// The first `max` committed rows of a span behind a place and at or below `through`, by timestamp and then
    /// by key. The place is that of `key` at `ts`; without a key it is behind all keys of `ts`.
    pub fn rows_after(
        &self,
        alloc: Global,
        span: &Span,
        ts: u64,
        key: Option<&Key>,
        through: Ts,
        max: u64,
    ) -> Result<Vec<Row>, AllocError>
        ensures few { IfOk result (λ rows. length rows.items ≤ max) }
        ensures rows { IfOk result (λ rows. Says self.now (λ p. rows.items
            ≡ take max (beside p span.now ts (option_copied key.entry) through ++ stream_of p span.now ts through))) }
    {
        let mut rows = Vec::new(alloc);
        if through.get() < ts {
            return Ok(rows);
        }
        let last = TsKey(through.get());
        let ahead = (ops::Bound::Included(TsKey(ts)), ops::Bound::Included(last));
        for (writer, begun) in self.table.map.range(ahead) {
            if rows.len() as u64 >= max {
                return Ok(rows);
            }
            let above = match key {
                _ if writer.0 > ts => ops::Bound::Unbounded,
                Some(key) => ops::Bound::Excluded(key),
                None => continue,
            };
            if let (Some(at), State::Committed) = (Ts::new(writer.0), begun.state) {
                let writes = begun.writes.map.range((above, ops::Bound::Unbounded));
                add_writes(&mut rows, span, at, writes, max)?;
            }
        }
        Ok(rows)
    }
}

/// A span that holds, of the keys of this one, exactly those above `after`.
fn rest_of(alloc: Global, span: &Span, after: Option<&Key>) -> Allocated<Span>
    ensures { IfOk result (λ rest. (x : List ℕ)
        → in_span rest x ≡ (in_span span.now x && is_past (option_copied after.entry) x)) }
{
    let Some(key) = after else {
        return span.copy();
    };
    if !is_from(&span.lo, key) {
        return span.copy();
    }
    let lo = Some(Bound::successor(alloc, key)?);
    let hi = copy_bound(&span.hi)?;
    Ok(Span { lo, hi })
}

/// Adds the pair of a key, where it has a value.
fn add_pair(pairs: &mut Vec<(Key, Value)>, key: &Key, value: Option<&Value>) -> Allocated<()>
    ensures { OnOk result (pairs.new.items ≡ pairs.old.items ++ with_value key.now (option_copied value.entry) []) }
{
    if let Some(value) = value {
        pairs.push((key.copy()?, value.copy()?))?;
    }
    Ok(())
}

/// Adds writes of a transaction whose key the span holds, up to `max` rows.
#[tactic(auto, using(crate::proofs::Streaming::filled_one))]
fn add_writes(
    rows: &mut Vec<Row>,
    span: &Span,
    ts: Ts,
    writes: Range<'_, Key, Option<Value>>,
    max: u64,
) -> Allocated<()>
    ensures { OnOk result (rows.new.items ≡ filled max rows.old.items (write_rows span.now ts writes.entry)) }
{
    for (key, after) in writes {
        if rows.len() as u64 >= max {
            return Ok(());
        }
        if span.contains(key) {
            let key = key.copy()?;
            let after = copy_after(after)?;
            rows.push(Row { ts, key, after })?;
        }
    }
    Ok(())
}
