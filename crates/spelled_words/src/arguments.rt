//! The words of a command read as what it takes, from left to right.
ghost use Rattle.std.specs.Prelude.{◌≡◌, ◌≢◌, true, drop, IfErr};
ghost use Rattle.spelled_words.specs.declared.fault.ReadError.TheVariants.{NoMemory};
ghost use Rattle.spelled_words.specs.Reading.{has_long, Takes, number_at, key_at, value_at, bound_at, span_at, number_and_key_at, number_and_span_at, opening_at, opening_every_at};

use crate::fault::{LineFault, Parsed, ReadError};
use crate::spelling::bytes_of;
use crate::words::Words;
use json_lines::numbers::number_of;
use spans::{Bound, BoundError, Span};
use std::alloc::Global;
use text_format::Format;
use timestamps::{Key, KeyError, Value, ValueError};

/// A number.
#[inline(always)]
#[tactic(auto, unfolding(crate::specs::Reading::number_at))]
pub fn take_number(words: &mut Words) -> Parsed<u64>
    ensures exact { Takes result words.new (number_at words.old) }
    ensures memory { IfErr result (λ e. e ≢ NoMemory) }
{
    let word = words.take_word().ok_or(LineFault::WordCount)?;
    Ok(number_of(word).ok_or(LineFault::Number)?)
}

/// A key of the format. Its bytes are copied once where each stands for itself, and else at most twice.
#[inline(always)]
#[tactic(auto, unfolding(crate::specs::Reading::key_at))]
pub fn take_key(alloc: Global, words: &mut Words, format: Format) -> Parsed<Key>
    ensures exact { Takes result words.new (key_at format words.old) }
    ensures memory { IfErr result (λ e. e ≡ NoMemory → has_long 1 words.old ≡ true) }
{
    let word = words.take_word().ok_or(LineFault::WordCount)?;
    let spelled = bytes_of(alloc, word)?;
    let bytes = spelled.bytes();
    if bytes.len() > format.key_limit() {
        return Err(ReadError::Fault(LineFault::KeyLength));
    }
    match Key::new(alloc, bytes) {
        Ok(key) => Ok(key),
        Err(KeyError::KeyLength) => Err(ReadError::Fault(LineFault::KeyLength)),
        Err(KeyError::NoMemory) => Err(ReadError::NoMemory),
    }
}

/// A value of the format. Its bytes are copied as a key's are.
#[tactic(auto, unfolding(crate::specs::Reading::value_at))]
pub fn take_value(alloc: Global, words: &mut Words, format: Format) -> Parsed<Value>
    ensures exact { Takes result words.new (value_at format words.old) }
    ensures memory { IfErr result (λ e. e ≡ NoMemory → has_long 1 words.old ≡ true) }
{
    let word = words.take_word().ok_or(LineFault::WordCount)?;
    let spelled = bytes_of(alloc, word)?;
    let bytes = spelled.bytes();
    if bytes.len() > format.value_limit() {
        return Err(ReadError::Fault(LineFault::ValueLength));
    }
    match Value::new(alloc, bytes) {
        Ok(value) => Ok(value),
        Err(ValueError::ValueLength) => Err(ReadError::Fault(LineFault::ValueLength)),
        Err(ValueError::NoMemory) => Err(ReadError::NoMemory),
    }
}

/// A bound of the format, or `-` for none.
#[tactic(auto, unfolding(crate::specs::Reading::bound_at))]
fn take_bound(alloc: Global, words: &mut Words, format: Format) -> Parsed<Option<Bound>>
    ensures exact { Takes result words.new (bound_at format words.old) }
    ensures memory { IfErr result (λ e. e ≡ NoMemory → has_long 1 words.old ≡ true) }
{
    let word = words.take_word().ok_or(LineFault::WordCount)?;
    if word == b"-".as_slice() {
        return Ok(None);
    }
    let spelled = bytes_of(alloc, word)?;
    let bytes = spelled.bytes();
    if bytes.len() > format.bound_limit() {
        return Err(ReadError::Fault(LineFault::KeyLength));
    }
    match Bound::new(alloc, bytes) {
        Ok(bound) => Ok(Some(bound)),
        Err(BoundError::BoundLength) => Err(ReadError::Fault(LineFault::KeyLength)),
        Err(BoundError::NoMemory) => Err(ReadError::NoMemory),
    }
}

/// A span: its lower and its upper bound.
#[tactic(auto, using(crate::proofs::LongWords::behind_bound, crate::proofs::LongWords::long_behind), unfolding(crate::specs::Reading::span_at))]
pub fn take_span(alloc: Global, words: &mut Words, format: Format) -> Parsed<Span>
    ensures exact { Takes result words.new (span_at format words.old) }
    ensures memory { IfErr result (λ e. e ≡ NoMemory → has_long 2 words.old ≡ true) }
{
    let lo = take_bound(alloc, words, format)?;
    let hi = take_bound(alloc, words, format)?;
    Ok(Span { lo, hi })
}

/// A number, and behind it a key.
#[inline(always)]
#[tactic(auto, using(crate::proofs::LongWords::left_long, crate::proofs::LongWords::behind_number), unfolding(crate::specs::Reading::number_and_key_at))]
pub fn take_number_and_key(alloc: Global, words: &mut Words, format: Format) -> Parsed<(u64, Key)>
    ensures exact { Takes result words.new (number_and_key_at format words.old) }
    ensures memory { IfErr result (λ e. e ≡ NoMemory → has_long 1 (drop 1 words.old) ≡ true) }
{
    let number = take_number(words)?;
    let key = take_key(alloc, words, format)?;
    Ok((number, key))
}

/// A number, and behind it a span.
#[tactic(auto, using(crate::proofs::LongWords::left_long, crate::proofs::LongWords::behind_number), unfolding(crate::specs::Reading::number_and_span_at))]
pub fn take_number_and_span(alloc: Global, words: &mut Words, format: Format) -> Parsed<(u64, Span)>
    ensures exact { Takes result words.new (number_and_span_at format words.old) }
    ensures memory { IfErr result (λ e. e ≡ NoMemory → has_long 2 (drop 1 words.old) ≡ true) }
{
    let number = take_number(words)?;
    let span = take_span(alloc, words, format)?;
    Ok((number, span))
}

/// A span, and behind it a cursor.
#[tactic(auto, unfolding(crate::specs::Reading::opening_at))]
pub fn take_opening(alloc: Global, words: &mut Words, format: Format) -> Parsed<(Span, u64)>
    ensures exact { Takes result words.new (opening_at format words.old) }
    ensures memory { IfErr result (λ e. e ≡ NoMemory → has_long 2 words.old ≡ true) }
{
    let span = take_span(alloc, words, format)?;
    let cursor = take_number(words)?;
    Ok((span, cursor))
}

/// A span, and behind it a cursor and a gap.
#[tactic(auto, unfolding(crate::specs::Reading::opening_every_at))]
pub fn take_opening_every(
    alloc: Global,
    words: &mut Words,
    format: Format,
) -> Parsed<(Span, u64, u64)>
    ensures exact { Takes result words.new (opening_every_at format words.old) }
    ensures memory { IfErr result (λ e. e ≡ NoMemory → has_long 2 words.old ≡ true) }
{
    let (span, cursor) = take_opening(alloc, words, format)?;
    let gap = take_number(words)?;
    Ok((span, cursor, gap))
}
