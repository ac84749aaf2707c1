//! What a span holds at a timestamp, which a feed with an initial scan is told first.
ghost use Rattle.std.specs.Prelude.{◌≡◌, ◌++◌, ℕ, List, true, ◌≤◌, IfOk, IfSome, OnOk};
ghost use Rattle.std.specs.Option.{option_copied};
ghost use Rattle.spans.specs.Keys.{in_span};
ghost use Rattle.catch_up.specs.Rows.{AreNextFirsts, is_past, one_in, value_in};

use spans::{Bound, Span};
use std::alloc::{AllocError, Global};
use timestamps::{Key, Row, Ts};
use version_chain::chain::Version;
use version_chain::{Steps, Store};

/// The first `n` keys of the span after `after` that have a value at `at`, each as a row at `at`.
pub fn next_snapshot(
    alloc: Global,
    store: &Store,
    span: &Span,
    after: Option<&Key>,
    at: Ts,
    n: u64,
) -> Result<Vec<Row>, AllocError>
    ensures { IfOk result (λ rows. AreNextFirsts store.now span.now (option_copied after.entry) at n rows.items) }
{
    let rest = rest_of(alloc, span, after)?;
    let mut rows = Vec::new(alloc);
    for (key, chain) in store.in_span(&rest) {
        if rows.len() as u64 >= n {
            return Ok(rows);
        }
        let newest = chain.newest_at(at.get(), &mut Steps::new());
        add_first(&mut rows, span, key, newest, at)?;
    }
    Ok(rows)
}

/// A span that holds, of the keys of this one, those after `after`.
fn rest_of(alloc: Global, span: &Span, after: Option<&Key>) -> Result<Span, AllocError>
    ensures { IfOk result (λ rest. (x : List ℕ) → in_span span.now x ≡ true → in_span rest x ≡ is_past (option_copied after.entry) x) }
{
    let mut rest = span.copy()?;
    let Some(key) = after else {
        return Ok(rest);
    };
    let low = Bound::successor(alloc, key)?;
    rest.lo = Some(low);
    Ok(rest)
}

/// Adds what the newest version of a key left, where that is a value and the span holds the key.
fn add_first(
    rows: &mut Vec<Row>,
    span: &Span,
    key: &Key,
    newest: Option<&Version>,
    at: Ts,
) -> Result<(), AllocError>
    ensures added { OnOk result (rows.new.items ≡ rows.old.items ++ one_in span.now at key.now (value_in (option_copied newest.entry))) }
    ensures named { IfSome (option_copied newest.entry) (λ v. 1 ≤ v.ts) }
{
    let Some(version) = newest else {
        return Ok(());
    };
    // for the proof: no version is at 0
    let _ = version.ts.get();
    let Some(value) = &version.after else {
        return Ok(());
    };
    if !span.contains(key) {
        return Ok(());
    }
    let key = key.copy()?;
    let value = value.copy()?;
    rows.push(Row {
        ts: at,
        key,
        after: Some(value),
    })?;
    Ok(())
}
