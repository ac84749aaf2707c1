//! The keys of a span: those with a number, and those with a version.
ghost use Rattle.version_chain.specs.Prelude.{AreApart, MAX_KEY_BYTES, RisingKeys, below_high};
ghost use Rattle.std.specs.Prelude.{◌≡◌, ◌≤◌, length, List};
ghost use Rattle.std.specs.Map.{keys_of};
ghost use Rattle.std.specs.Map.Iter.{TakesFirst, deref_pair};
ghost use Rattle.std.specs.Iterator.{at_most};
ghost use Rattle.std.specs.Range.Bound.{bound_map};
ghost use Rattle.spans.specs.KeyOrder.{start_of};
ghost use Rattle.version_chain.specs.ByNumber.{chains_in, entries_of};
ghost use Rattle.version_chain.specs.Stores.{filled, numbered_in, AreAhead, Entry};
ghost use Rattle.key_table.specs.Numbers.{Numbered};

use crate::chain::Chain;
use crate::record::Record;
use key_table::KeyTable;
use spans::{Bound, Span};
use std::cmp::Ordering;
use std::collections::btree_map::Range;
use std::iter::Iterator;
use std::marker::Model;
use std::ops;
use timestamps::Key;

/// The keys of a span that have a number, rising, each with its number. A step goes to the next key, and ends at the first
/// one above the span.
#[derive(Drop)]
pub(crate) struct NumbersIn<'a> {
    span: &'a Span,
    ahead: Range<'a, Key, usize>,
}

impl<'a> Model for NumbersIn<'a> {
    ghost Value = { Numbered };

    ghost view = { λ s. numbered_in s.span.now s.ahead };

    ghost invariant = { λ s. AreAhead s.span.now.lo s.ahead };
}

/// The keys of the span, from the first on.
pub(crate) fn numbers_in<'a>(keys: &'a KeyTable, span: &'a Span) -> NumbersIn<'a>
    ensures those { result ≡ numbered_in span.now keys.now }
    ensures rising { RisingKeys (keys_of keys.now) }
    ensures apart { AreApart keys.now }
{
    let ahead = keys.range_from(start_at(&span.lo));
    NumbersIn { span, ahead }
}

impl<'a> Iterator for NumbersIn<'a> {
    type Item = (&'a Key, &'a usize);

    ghost next_gives = { TakesFirst deref_pair };

    ghost remaining = { λ s. at_most (length s) };

    fn next(&mut self) -> Option<(&'a Key, &'a usize)> {
        let (key, number) = self.ahead.next()?;
        if !is_below(&self.span.hi, key) {
            return None;
        }
        Some((key, number))
    }
}

/// The keys of a span that have a version, rising, each with its chain.
#[derive(Drop)]
pub struct InSpan<'a> {
    pub(crate) numbers: NumbersIn<'a>,
    pub(crate) records: &'a [Record],
}

impl<'a> Model for InSpan<'a> {
    ghost Value = { List Entry };

    ghost view = { λ s. filled (entries_of s.numbers (chains_in s.records.now)) };
}

impl<'a> Iterator for InSpan<'a> {
    type Item = (&'a Key, &'a Chain);

    ghost next_gives = { TakesFirst deref_pair };

    ghost remaining = { λ s. at_most (length s) };

    fn next(&mut self) -> Option<(&'a Key, &'a Chain)> {
        while let Some((key, number)) = self.numbers.next() {
            if let Some(record) = self.records.get(*number) {
                if !record.chain.is_empty() {
                    return Some((key, &record.chain));
                }
            }
        }
        None
    }
}

/// Whether the key is below the bound, where there is one. Its bytes are compared here, since they also show the proof
/// that no key is too long: so a step makes one call less than by the function of `spans`.
fn is_below(high: &Option<Bound>, key: &Key) -> bool
    ensures below { result ≡ below_high high.now key.now }
    ensures in_range { length key.now ≤ MAX_KEY_BYTES }
{
    let bytes = key.bytes();
    match high {
        None => true,
        Some(high) => bytes.cmp(high.bytes()) == Ordering::Less,
    }
}

/// The bound from which keys are asked for, where there is one.
fn start_at(low: &Option<Bound>) -> ops::Bound<&Key>
    ensures { bound_map (λ k. k.now) result ≡ start_of low.now }
{
    match low {
        None => ops::Bound::Unbounded,
        Some(low) => low.start(),
    }
}
