//! From the texts of a line's members to its message: the timestamp, and key and value out of base64, or which of them is
//! faulty.
ghost use Rattle.std.specs.Prelude.{◌≡◌, ◌≤◌, length, decimal, option_map, IfSome, IfOk, IfErr};
ghost use Rattle.json_lines.specs.Prelude.{key_limit, value_limit, NoMemory, Number};
ghost use Rattle.json_lines.specs.Messages.{AreBytes, IsMessage, base64};
ghost use Rattle.json_lines.specs.Tests.{AreOfRow};
ghost use Rattle.json_lines.specs.Meaning.{texts_of, texts_view, Gives, Reads, timestamp_of, bytes_of, after_of, key_of, value_of, message_of};

use crate::fault::{MessageFault, Read};
use crate::numbers::number_of;
use base64::DecodeAllocError;
use base64::engine::general_purpose::STANDARD;
use spans::Message;
use std::alloc::Global;
use text_format::Format;
use timestamps::{Key, KeyError, Row, Ts, Value, ValueError};

/// The texts of the members: of a resolved message its timestamp, of a row `after`, `key` and `updated`, as they stand
/// in the line or in the tree that was read of it.
#[derive(Clone, Copy)]
pub(crate) enum Texts<'a> {
    Resolved(&'a [u8]),
    Row {
        after: Option<&'a [u8]>,
        key: &'a [u8],
        ts: &'a [u8],
    },
}

/// The message of a format that the texts mean.
#[tactic(auto, unfolding(crate::specs::Meaning::message_of, crate::specs::Meaning::row_of))]
pub(crate) fn message_of(alloc: Global, texts: Texts, format: Format) -> Read<Message>
    ensures exact { Gives (λ m. m) result (message_of format (texts_view texts.entry)) }
    ensures lawful { IfOk result (λ m. IsMessage format m) }
    // They are the texts of that message.
    ensures found { IfOk result (λ m. texts_view texts.entry ≡ texts_of m) }
    ensures memory { IfErr result (λ e. e ≡ NoMemory → AreOfRow (texts_view texts.entry)) }
{
    match texts {
        Texts::Resolved(ts) => Ok(Message::Resolved(timestamp_of(ts)?)),
        Texts::Row { after, key, ts } => {
            let ts = timestamp_of(ts)?;
            let key = bytes_of(alloc, key)?;
            let after = after_of(alloc, after)?;
            let key = key_of(alloc, &key, format)?;
            let after = value_of(alloc, &after, format)?;
            Ok(Message::Row(Row { ts, key, after }))
        }
    }
}

/// The timestamp of a number word.
#[tactic(auto, using(crate::proofs::NumberWords::number_found), unfolding(crate::specs::Meaning::timestamp_of))]
fn timestamp_of(text: &[u8]) -> Read<Ts>
    ensures exact { Reads (λ ts. ts) result (timestamp_of text.now) }
    ensures found { IfOk result (λ ts. text.now ≡ decimal ts) }
    ensures fault { IfErr result (λ e. e ≡ Number) }
{
    let number = number_of(text).ok_or(MessageFault::Number)?;
    Ts::new(number).ok_or(MessageFault::Number)
}

/// The bytes whose base64 it is.
#[tactic(auto, using(crate::proofs::Meanings::bytes_good, crate::proofs::Meanings::bytes_from_each))]
fn bytes_of(alloc: Global, text: &[u8]) -> Read<Vec<u8>>
    ensures exact { Gives (λ v. v.items) result (bytes_of text.now) }
    ensures found { IfOk result (λ v. text.now ≡ base64 v.items) }
    ensures bytes { IfOk result (λ v. AreBytes v.items) }
{
    match STANDARD.decode(alloc, text) {
        Ok(bytes) => Ok(bytes),
        Err(DecodeAllocError::OutOfMemory) => Err(MessageFault::NoMemory),
        Err(DecodeAllocError::DecodeError(_)) => Err(MessageFault::Base64),
    }
}

/// The same of a value, where there is one.
#[tactic(auto, unfolding(crate::specs::Meaning::after_of))]
fn after_of(alloc: Global, text: Option<&[u8]>) -> Read<Option<Vec<u8>>>
    ensures exact { Gives (λ o. option_map (λ v. v.items) o) result (after_of (option_map (λ t. t.now) text.entry)) }
    ensures found { IfOk result (λ o. option_map (λ t. t.now) text.entry ≡ option_map (λ v. base64 v.items) o) }
    ensures bytes { IfOk result (λ o. IfSome o (λ v. AreBytes v.items)) }
{
    match text {
        None => Ok(None),
        Some(text) => Ok(Some(bytes_of(alloc, text)?)),
    }
}

/// The key of bytes, which may be too few or too many.
#[tactic(auto, unfolding(crate::specs::Meaning::key_of))]
fn key_of(alloc: Global, bytes: &[u8], format: Format) -> Read<Key>
    ensures exact { Gives (λ k. k) result (key_of format bytes.now) }
    ensures found { IfOk result (λ k. k ≡ bytes.now) }
    ensures in_range { IfOk result (λ k. (1 ≤ length k) × (length k ≤ key_limit format)) }
{
    if bytes.len() > format.key_limit() {
        return Err(MessageFault::Length);
    }
    match Key::new(alloc, bytes) {
        Ok(key) => Ok(key),
        Err(KeyError::KeyLength) => Err(MessageFault::Length),
        Err(KeyError::NoMemory) => Err(MessageFault::NoMemory),
    }
}

/// The value of bytes, which may be too many.
#[tactic(auto, unfolding(crate::specs::Meaning::value_of))]
fn value_of(alloc: Global, bytes: &Option<Vec<u8>>, format: Format) -> Read<Option<Value>>
    ensures exact { Gives (λ v. v) result (value_of format (option_map (λ b. b.items) bytes.now)) }
    ensures found { IfOk result (λ v. v ≡ option_map (λ b. b.items) bytes.now) }
    ensures in_range { IfOk result (λ o. IfSome o (λ v. length v ≤ value_limit format)) }
{
    let Some(bytes) = bytes else {
        return Ok(None);
    };
    if bytes.len() > format.value_limit() {
        return Err(MessageFault::Length);
    }
    match Value::new(alloc, bytes.as_slice()) {
        Ok(value) => Ok(Some(value)),
        Err(ValueError::ValueLength) => Err(MessageFault::Length),
        Err(ValueError::NoMemory) => Err(MessageFault::NoMemory),
    }
}
