//! What scans read of the versions, in a transaction and at a closed timestamp.
ghost use Rattle.std.specs.Prelude.{◌≡◌, ◌≤◌, ◌++◌, [], IfOk, IfSome, OnErr, OnOk, None};
ghost use Rattle.std.specs.Option.{option_copied};
ghost use Rattle.std.specs.Map.{keys_of};
ghost use Rattle.mvto_rules.specs.Prelude.{AreFilled, RisingKeys, with_value};
ghost use Rattle.mvto_rules.specs.Scans.{entries_of, first_blocker, keys_in, rows_in, IsReading, value_in};

use crate::sight::{Sight, value_of};
use spans::Span;
use std::alloc::{AllocError, Global};
use timestamps::{Key, Ts, Value};
use version_chain::chain::Version;
use version_chain::{Steps, Store};

/// The findings of a scan.
pub(crate) enum Reading {
    /// Nothing: at the least key where something stops the reader, its timestamp.
    Stopped(u64),
    /// The rows.
    Through(Vec<(Key, Value)>),
}

/// Reads the keys of a span. It goes to the first, and then from each to the next. Where that finds no
/// memory it goes a second time, to see what stops the reader, since that answer needs none.
pub(crate) fn read_span(
    alloc: Global,
    store: &Store,
    span: &Span,
    ts: Ts,
) -> Result<Reading, AllocError>
    ensures reading { IfOk result (IsReading store.now ts span.now) }
    ensures free { OnErr result (first_blocker store.now ts (keys_in store.now span.now) ≡ None) }
    ensures rising { RisingKeys (keys_of store.now.entries) }
    ensures filled { AreFilled (entries_of store.now span.now) }
{
    match read_rows(alloc, store, span, ts) {
        Ok(reading) => Ok(reading),
        Err(refused) => match first_blocker(store, span, ts) {
            None => Err(refused),
            Some(by) => Ok(Reading::Stopped(by)),
        },
    }
}

/// Reads the keys of a span up to what stops the reader.
fn read_rows(alloc: Global, store: &Store, span: &Span, ts: Ts) -> Result<Reading, AllocError>
    ensures reading { IfOk result (IsReading store.now ts span.now) }
    ensures rising { RisingKeys (keys_of store.now.entries) }
    ensures filled { AreFilled (entries_of store.now span.now) }
{
    let found = store.in_span(span);
    let mut rows = Vec::new(alloc);
    for (key, chain) in found {
        let newest = chain.newest_at(ts.get(), &mut Steps::new());
        if let Sight::Blocked(by) = Sight::of(newest, ts) {
            return Ok(Reading::Stopped(by));
        }
        add_row(&mut rows, key, newest)?;
    }
    Ok(Reading::Through(rows))
}

/// Adds the row of a key, where the version has a value.
fn add_row(
    rows: &mut Vec<(Key, Value)>,
    key: &Key,
    newest: Option<&Version>,
) -> Result<(), AllocError>
    ensures { OnOk result (rows.new.items ≡ rows.old.items ++ with_value key.now (value_in (option_copied newest.entry)) []) }
{
    if let Some(value) = value_of(newest)? {
        let key = key.copy()?;
        rows.push((key, value))?;
    }
    Ok(())
}

/// At the least key of a span where something stops the reader, its timestamp. It needs no memory.
fn first_blocker(store: &Store, span: &Span, ts: Ts) -> Option<u64>
    ensures { result ≡ first_blocker store.now ts (keys_in store.now span.now) }
{
    for (_, chain) in store.in_span(span) {
        let newest = chain.newest_at(ts.get(), &mut Steps::new());
        if let Sight::Blocked(by) = Sight::of(newest, ts) {
            return Some(by);
        }
    }
    None
}

/// The rows of a span, as a read at a closed timestamp has them.
pub(crate) fn rows_at(
    alloc: Global,
    store: &Store,
    span: &Span,
    t: u64,
) -> Result<Vec<(Key, Value)>, AllocError>
    ensures rows { IfOk result (λ rows. rows.items ≡ rows_in store.now t (keys_in store.now span.now)) }
    ensures rising { RisingKeys (keys_of store.now.entries) }
    ensures filled { AreFilled (entries_of store.now span.now) }
{
    let found = store.in_span(span);
    let mut rows = Vec::new(alloc);
    for (key, chain) in found {
        let newest = chain.newest_at(t, &mut Steps::new());
        is_named(newest);
        add_row(&mut rows, key, newest)?;
    }
    Ok(rows)
}

/// For the proof: a version's timestamp is never 0.
pub(crate) fn is_named(newest: Option<&Version>)
    ensures { IfSome (option_copied newest.entry) (λ v. 1 ≤ v.ts) }
{
    if let Some(version) = newest {
        let _ts = version.ts.get();
    }
}
