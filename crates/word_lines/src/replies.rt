//! Replies as text: a line of words, and the lines that follow it.
ghost use Rattle.std.specs.Prelude.{◌≡◌, ◌++◌, OnOk, OnErr};
ghost use Rattle.word_lines.specs.Messages.{Keeps, message_line};
ghost use Rattle.word_lines.specs.Events.{joined, reply_words, refusal_words, row_line, following_lines, reply_text};
ghost use Rattle.std.specs.List.{flat_map};

use crate::buffer::or_undo;
use crate::commands::{Written, put_named, put_pair, put_word};
use json_lines::write_message_line;
use spans::{Message, Refusal, Reply};
use std::alloc::AllocError;
use timestamps::{Key, Value};

/// Writes a reply at the end: its words, a newline and the lines that follow.
/// After an error it is as it was.
#[tactic(auto, using(crate::proofs::Writing::undone))]
pub fn write_reply(out: &mut Vec<u8>, reply: &Reply) -> Result<(), AllocError>
    ensures ok { OnOk result (out.new.items ≡ out.old.items ++ reply_text reply.now) }
    ensures err { OnErr result (out.new.items ≡ out.old.items) }
{
    let length_before = out.len();
    let written = put_reply(out, reply);
    or_undo(out, length_before, written)
}

#[tactic(auto, using(crate::proofs::Writing::keeping))]
pub(crate) fn put_reply(out: &mut Vec<u8>, reply: &Reply) -> Written
    ensures ok { OnOk result (out.new.items ≡ out.old.items ++ reply_text reply.now) }
    ensures err { OnErr result (Keeps out.old.items out.new.items) }
{
    put_words(out, reply)?;
    out.push(b'\n')?;
    put_following(out, reply)
}

/// Writes the words of a reply.
#[tactic(auto, using(crate::proofs::Writing::keeping), unfolding(crate::specs::Events::reply_words))]
fn put_words(out: &mut Vec<u8>, reply: &Reply) -> Written
    ensures ok { OnOk result (out.new.items ≡ out.old.items ++ joined (reply_words reply.now)) }
    ensures err { OnErr result (Keeps out.old.items out.new.items) }
{
    match reply {
        Reply::Started => out.extend_from_slice(b"started"),
        Reply::Found(None) => out.extend_from_slice(b"none"),
        Reply::Found(Some(value)) => {
            out.extend_from_slice(b"value")?;
            put_word(out, value.bytes())
        }
        Reply::Rows(rows) => put_named(out, b"rows ", rows.as_slice().len() as u64),
        Reply::Written => out.extend_from_slice(b"written"),
        Reply::Committed { keys } => put_named(out, b"committed ", *keys),
        Reply::Aborted => out.extend_from_slice(b"aborted"),
        Reply::Closed { at, aborted } => put_pair(out, b"closed ", *at, *aborted),
        Reply::Protected { id } => put_named(out, b"protected ", *id),
        Reply::Released => out.extend_from_slice(b"released"),
        Reply::Collected { horizon, removed } => put_pair(out, b"collected ", *horizon, *removed),
        Reply::Opened { feed } => put_named(out, b"opened ", *feed),
        Reply::Messages(told) => put_named(out, b"messages ", told.as_slice().len() as u64),
        Reply::Cancelled => out.extend_from_slice(b"cancelled"),
        Reply::Stats {
            versions,
            undecided,
            feeds,
            closed,
            horizon,
        } => {
            put_pair(out, b"stats ", *versions, *undecided)?;
            put_pair(out, b" ", *feeds, *closed)?;
            put_named(out, b" ", *horizon)
        }
        Reply::Refused(refusal) => put_refusal(out, *refusal),
    }
}

#[tactic(auto, using(crate::proofs::Writing::keeping))]
fn put_refusal(out: &mut Vec<u8>, refusal: Refusal) -> Written
    ensures ok { OnOk result (out.new.items ≡ out.old.items ++ joined (refusal_words refusal)) }
    ensures err { OnErr result (Keeps out.old.items out.new.items) }
{
    match refusal {
        Refusal::BelowClosed { closed } => put_named(out, b"belowclosed ", closed),
        Refusal::TsUsed => out.extend_from_slice(b"tsused"),
        Refusal::TsRange => out.extend_from_slice(b"tsrange"),
        Refusal::Blocked { by } => put_named(out, b"blocked ", by),
        Refusal::NoTxn => out.extend_from_slice(b"notxn"),
        Refusal::NotOwner => out.extend_from_slice(b"notowner"),
        Refusal::Ended => out.extend_from_slice(b"ended"),
        Refusal::TooLate => out.extend_from_slice(b"toolate"),
        Refusal::NotClosed { closed } => put_named(out, b"notclosed ", closed),
        Refusal::BelowHorizon { horizon } => put_named(out, b"belowhorizon ", horizon),
        Refusal::NoProtection => out.extend_from_slice(b"noprotection"),
        Refusal::NoFeed => out.extend_from_slice(b"nofeed"),
        Refusal::FeedCancelled => out.extend_from_slice(b"feedcancelled"),
        Refusal::NoMemory => out.extend_from_slice(b"nomemory"),
        Refusal::GapRange => out.extend_from_slice(b"gaprange"),
    }
}

/// Writes the lines that follow a reply.
#[tactic(auto, using(crate::proofs::Writing::keeping), unfolding(crate::specs::Events::following_lines))]
fn put_following(out: &mut Vec<u8>, reply: &Reply) -> Written
    ensures ok { OnOk result (out.new.items ≡ out.old.items ++ following_lines reply.now) }
    ensures err { OnErr result (Keeps out.old.items out.new.items) }
{
    match reply {
        Reply::Rows(rows) => put_rows(out, rows.as_slice()),
        Reply::Messages(messages) => put_messages(out, messages.as_slice()),
        _ => Ok(()),
    }
}

#[tactic(auto, using(crate::proofs::Writing::keeping))]
fn put_rows(out: &mut Vec<u8>, rows: &[(Key, Value)]) -> Written
    ensures ok { OnOk result (out.new.items ≡ out.old.items ++ flat_map row_line rows.now) }
    ensures err { OnErr result (Keeps out.old.items out.new.items) }
{
    for row in rows {
        put_row(out, row)?;
    }
    Ok(())
}

/// Writes the line of a row.
#[tactic(auto, using(crate::proofs::Writing::keeping))]
fn put_row(out: &mut Vec<u8>, row: &(Key, Value)) -> Written
    ensures ok { OnOk result (out.new.items ≡ out.old.items ++ row_line row.now) }
    ensures err { OnErr result (Keeps out.old.items out.new.items) }
{
    out.extend_from_slice(b"row")?;
    put_word(out, row.0.bytes())?;
    put_word(out, row.1.bytes())?;
    Ok(out.push(b'\n')?)
}

#[tactic(auto, using(crate::proofs::Writing::keeping))]
fn put_messages(out: &mut Vec<u8>, messages: &[Message]) -> Written
    ensures ok { OnOk result (out.new.items ≡ out.old.items ++ flat_map message_line messages.now) }
    ensures err { OnErr result (Keeps out.old.items out.new.items) }
{
    for message in messages {
        write_message_line(out, message)?;
    }
    Ok(())
}
