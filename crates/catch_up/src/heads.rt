//! The next rows after a place of a span with few keys, read off their chains.
ghost use Rattle.std.specs.Prelude.{◌≡◌, ◌≤◌, ◌+◌, ℕ, [], IfOk, MatchOption, OnOk, Some, length, nat_lt};
ghost use Rattle.catch_up.specs.Rows.{AreNextIn, AreHeads, IsCut, IsFirstDue, IsHeadAdded, IsNoneDue};
ghost use Rattle.version_chain.specs.Walking.{is_before};

use crate::rows::row_of;
use spans::Span;
use std::alloc::{AllocError, Global};
use std::collections::BTreeMap;
use timestamps::{Key, Row, Ts};
use version_chain::chain::{Chain, Version};
use version_chain::{Steps, Store};

/// By timestamp and key, the first committed version of each key after a place, with the key's chain.
type Heads<'a> = BTreeMap<(u64, &'a Key), (&'a Version, &'a Chain)>;

/// The first `n` committed rows of the span after `place` at `ts` and at or below `through`. The first head is told, and the
/// next version of its key becomes one, so there are never more heads than at first.
pub(crate) fn rows_of_keys(
    alloc: Global,
    store: &Store,
    span: &Span,
    ts: Ts,
    place: &Key,
    through: u64,
    n: u64,
) -> Result<Vec<Row>, AllocError>
    ensures { IfOk result (λ rows. AreNextIn store.now span.now ts (Some place.now) through n rows.items) }
{
    let mut heads = heads_after(alloc, store, span, ts, place, through, n)?;
    let mut rows = Vec::new(alloc);
    for _ in 0..n {
        let Some(((_, key), (version, chain))) = heads.pop_first() else {
            break;
        };
        let row = row_of(key, version)?;
        rows.push(row)?;
        add_head(&mut heads, key, chain, version.ts, key, through)?;
    }
    Ok(rows)
}

/// The first `n` heads of the keys of the span. It keeps no more than `n`, and one more while it looks at a key.
fn heads_after<'a>(
    alloc: Global,
    store: &'a Store,
    span: &'a Span,
    ts: Ts,
    place: &Key,
    through: u64,
    n: u64,
) -> Result<Heads<'a>, AllocError>
    ensures heads { IfOk result (λ heads. AreHeads store.now span.now ts place.now through n [] heads) }
    ensures few { IfOk result (λ heads. length heads.entries ≤ n) }
{
    let mut heads = BTreeMap::new(alloc);
    for (key, chain) in store.in_span(span) {
        add_head(&mut heads, key, chain, ts, place, through)?;
        cut(&mut heads, n);
    }
    Ok(heads)
}

/// Lets the last head go where there are more than `n`, since no row behind the first `n` is asked for.
fn cut(heads: &mut Heads<'_>, n: u64)
    ensures cut { IsCut n heads.old heads.new }
    ensures few { length heads.old.entries ≤ n + 1 → length heads.new.entries ≤ n }
{
    if heads.len() as u64 <= n {
        return;
    }
    heads.pop_last();
}

/// Adds the head of a key, where it has one: the key is no longer among those ahead.
fn add_head<'a>(
    heads: &mut Heads<'a>,
    key: &'a Key,
    chain: &'a Chain,
    ts: Ts,
    place: &Key,
    through: u64,
) -> Result<(), AllocError>
    ensures added { OnOk result (IsHeadAdded key.now chain.now ts place.now through heads.old heads.new) }
    ensures one { OnOk result (length heads.new.entries ≤ length heads.old.entries + 1) }
{
    let after = last_passed(key, ts, place);
    if let Some(version) = committed_above(chain, after, through) {
        heads.insert((version.ts.get(), key), (version, chain))?;
    }
    Ok(())
}

/// Up to which timestamp no version of the key comes after `place` at `ts`.
fn last_passed(key: &Key, ts: Ts, place: &Key) -> u64
    ensures { (i : ℕ) → nat_lt result i ≡ is_before ts place.now i key.now }
{
    if place < key {
        return ts.get() - 1;
    }
    ts.get()
}

/// The first committed version above `after` and at or below `through`.
fn committed_above(chain: &Chain, after: u64, through: u64) -> Option<&Version>
    ensures { MatchOption result (IsNoneDue chain.now after through) (λ v. IsFirstDue chain.now after through v.now) }
{
    let mut passed = after;
    while let Some(version) = chain.next_above(passed, &mut Steps::new()) {
        if version.ts.get() > through {
            return None;
        }
        if version.committed {
            return Some(version);
        }
        passed = version.ts.get();
    }
    None
}
