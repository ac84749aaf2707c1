//! Replies read from their words.
ghost use Rattle.std.specs.Prelude.{◌≡◌, ◌≢◌, true, IfErr};
ghost use Rattle.script.specs.Prelude.{Gives, NoMemory, Takes, has_long, is_long};
ghost use Rattle.std.specs.List.{list_any};
ghost use Rattle.script.specs.EventLines.{value_words};
ghost use Rattle.script.specs.ReplyReading.{stats_at, refusal_at, shape_at, named_at, reply_at};
ghost use Rattle.script.specs.declared.reply_table.Kind.TheVariants.{Value};

use crate::reply_table::{Kind, REPLIES, Reason, kind_of};
use spans::{Refusal, Reply};
use std::alloc::Global;
use text_format::Format;
use word_lines::arguments::{take_number, take_value};
use word_lines::fault::{LineFault, Parsed, ReadError};
use word_lines::words::Words;

/// Reads the words of a reply.
#[derive(Drop)]
pub(crate) enum Shape {
    /// The whole reply.
    Alone(Reply),
    /// How many rows follow.
    Rows(u64),
    /// How many messages follow.
    Messages(u64),
}

/// The reply that all of the words are. Where they are none, the fault is `Reply`.
pub(crate) fn read_reply(alloc: Global, words: &mut Words, format: Format) -> Parsed<Shape>
    ensures exact { Gives (λ x. x) result (reply_at format words.old) }
    ensures memory { IfErr result (λ e. e ≡ NoMemory → list_any is_long (value_words words.old) ≡ true) }
{
    match read_named(alloc, words, format) {
        Err(ReadError::Fault(_)) => Err(ReadError::Fault(LineFault::Reply)),
        read => read,
    }
}

#[tactic(auto, unfolding(crate::specs::ReplyReading::named_at))]
fn read_named(alloc: Global, words: &mut Words, format: Format) -> Parsed<Shape>
    ensures exact { Gives (λ x. x) result (named_at format words.old) }
    ensures memory { IfErr result (λ e. e ≡ NoMemory → list_any is_long (value_words words.old) ≡ true) }
{
    let name = words.take_word().ok_or(LineFault::WordCount)?;
    let kind = kind_of(&REPLIES, name).ok_or(LineFault::Reply)?;
    let shape = take_shape(alloc, kind, words, format)?;
    if !words.is_empty() {
        return Err(ReadError::Fault(LineFault::WordCount));
    }
    Ok(shape)
}

/// Reads a reply of this kind, from the words behind its name.
#[tactic(auto, unfolding(crate::specs::ReplyReading::shape_at))]
fn take_shape(alloc: Global, kind: Kind, words: &mut Words, format: Format) -> Parsed<Shape>
    ensures exact { Takes result words.new (shape_at format kind words.old) }
    ensures memory { IfErr result (λ e. e ≡ NoMemory → (kind ≡ Value) × (has_long 1 words.old ≡ true)) }
{
    let reply = match kind {
        Kind::Rows => return Ok(Shape::Rows(take_number(words)?)),
        Kind::Messages => return Ok(Shape::Messages(take_number(words)?)),
        Kind::Started => Reply::Started,
        Kind::Absent => Reply::Found(None),
        Kind::Value => Reply::Found(Some(take_value(alloc, words, format)?)),
        Kind::Written => Reply::Written,
        Kind::Committed => Reply::Committed {
            keys: take_number(words)?,
        },
        Kind::Aborted => Reply::Aborted,
        Kind::Closed => Reply::Closed {
            at: take_number(words)?,
            aborted: take_number(words)?,
        },
        Kind::Protected => Reply::Protected {
            id: take_number(words)?,
        },
        Kind::Released => Reply::Released,
        Kind::Collected => Reply::Collected {
            horizon: take_number(words)?,
            removed: take_number(words)?,
        },
        Kind::Opened => Reply::Opened {
            feed: take_number(words)?,
        },
        Kind::Cancelled => Reply::Cancelled,
        Kind::Stats => take_stats(words)?,
        Kind::Refused(reason) => Reply::Refused(take_refusal(reason, words)?),
    };
    Ok(Shape::Alone(reply))
}

#[tactic(auto, unfolding(crate::specs::ReplyReading::stats_at))]
fn take_stats(words: &mut Words) -> Parsed<Reply>
    ensures exact { Takes result words.new (stats_at words.old) }
    ensures memory { IfErr result (λ e. e ≢ NoMemory) }
{
    Ok(Reply::Stats {
        versions: take_number(words)?,
        undecided: take_number(words)?,
        feeds: take_number(words)?,
        closed: take_number(words)?,
        horizon: take_number(words)?,
    })
}

#[tactic(auto, unfolding(crate::specs::ReplyReading::refusal_at))]
fn take_refusal(reason: Reason, words: &mut Words) -> Parsed<Refusal>
    ensures exact { Takes result words.new (refusal_at reason words.old) }
    ensures memory { IfErr result (λ e. e ≢ NoMemory) }
{
    let refusal = match reason {
        Reason::BelowClosed => Refusal::BelowClosed {
            closed: take_number(words)?,
        },
        Reason::TsUsed => Refusal::TsUsed,
        Reason::TsRange => Refusal::TsRange,
        Reason::Blocked => Refusal::Blocked {
            by: take_number(words)?,
        },
        Reason::NoTxn => Refusal::NoTxn,
        Reason::NotOwner => Refusal::NotOwner,
        Reason::Ended => Refusal::Ended,
        Reason::TooLate => Refusal::TooLate,
        Reason::NotClosed => Refusal::NotClosed {
            closed: take_number(words)?,
        },
        Reason::BelowHorizon => Refusal::BelowHorizon {
            horizon: take_number(words)?,
        },
        Reason::NoProtection => Refusal::NoProtection,
        Reason::NoFeed => Refusal::NoFeed,
        Reason::FeedCancelled => Refusal::FeedCancelled,
        Reason::NoMemory => Refusal::NoMemory,
        Reason::GapRange => Refusal::GapRange,
    };
    Ok(refusal)
}
