//! Messages as bytes: a head of 17 bytes, and behind it the key and the value of a row. The rows of a scan are such
//! messages too.
ghost use Rattle.std.specs.Prelude.{◌≡◌, ◌++◌, ◌<◌, Some, true, is_some, length, OnOk, OnErr};
ghost use Rattle.std.specs.List.{flat_map};
ghost use Rattle.embedded.specs.Typed.{end_bytes, head, message_bytes, pair_bytes, row_bytes, rows_bytes, scan_of};

use spans::{Bound, Cmd, Message};
use std::alloc::AllocError;
use timestamps::{Key, Value};

/// A resolved timestamp.
const RESOLVED: u8 = 0;
/// A row with a value.
const VALUE: u8 = 1;
/// A row of a delete.
const DELETE: u8 = 2;
/// The end of a scan.
const END: u8 = 3;

/// Puts messages at the end, one behind another.
pub(crate) fn put_messages(out: &mut Vec<u8>, messages: &[Message]) -> Result<(), AllocError>
    ensures bytes { OnOk result (out.new.items ≡ out.old.items ++ flat_map message_bytes messages.now) }
    ensures some { OnErr result (0 < length messages.now) }
{
    for message in messages {
        put_message(out, message)?;
    }
    Ok(())
}

fn put_message(out: &mut Vec<u8>, message: &Message) -> Result<(), AllocError>
    ensures { OnOk result (out.new.items ≡ out.old.items ++ message_bytes message.now) }
{
    match message {
        Message::Resolved(at) => put_head(out, RESOLVED, at.get(), 0, 0),
        Message::Row(row) => match &row.after {
            Some(value) => put_pair(out, row.ts.get(), &row.key, value),
            None => {
                let key = row.key.bytes();
                put_head(out, DELETE, row.ts.get(), key.len() as u32, 0)?;
                out.extend_from_slice(key)
            }
        },
    }
}

/// Puts the rows of a scan, and its end.
pub(crate) fn put_scan(
    out: &mut Vec<u8>,
    cmd: &Cmd,
    rows: &[(Key, Value)],
) -> Result<(), AllocError>
    ensures bytes { OnOk result (out.new.items ≡ out.old.items ++ rows_bytes (scan_of cmd.now) rows.now) }
    ensures memory { OnErr result (is_some (scan_of cmd.now) ≡ true) }
{
    match cmd {
        Cmd::Scan { ts: at, span } | Cmd::ScanAt { t: at, span } => {
            put_rows(out, *at, rows)?;
            put_end(out, *at, &span.hi)
        }
        _ => Ok(()),
    }
}

/// Puts the rows of a scan, as rows of its timestamp.
fn put_rows(out: &mut Vec<u8>, at: u64, rows: &[(Key, Value)]) -> Result<(), AllocError>
    ensures { OnOk result (out.new.items ≡ out.old.items ++ flat_map (pair_bytes at) rows.now) }
{
    for (key, value) in rows {
        put_pair(out, at, key, value)?;
    }
    Ok(())
}

/// Puts a key with its value, as a row.
fn put_pair(out: &mut Vec<u8>, at: u64, key: &Key, value: &Value) -> Result<(), AllocError>
    ensures { OnOk result (out.new.items ≡ out.old.items ++ row_bytes at key.now (Some value.now)) }
{
    let key = key.bytes();
    let value = value.bytes();
    put_head(out, VALUE, at, key.len() as u32, value.len() as u32)?;
    out.extend_from_slice(key)?;
    out.extend_from_slice(value)
}

/// Puts the end of a scan, where its span has one.
fn put_end(out: &mut Vec<u8>, at: u64, high: &Option<Bound>) -> Result<(), AllocError>
    ensures { OnOk result (out.new.items ≡ out.old.items ++ end_bytes at high.now) }
{
    let Some(high) = high else {
        return Ok(());
    };
    let high = high.bytes();
    put_head(out, END, at, high.len() as u32, 0)?;
    out.extend_from_slice(high)
}

/// Puts the head of a message, whose row has so many bytes of a key and of a value.
fn put_head(out: &mut Vec<u8>, kind: u8, at: u64, key: u32, value: u32) -> Result<(), AllocError>
    ensures { OnOk result (out.new.items ≡ out.old.items ++ head kind at key value) }
{
    out.push(kind)?;
    out.extend_from_slice(&at.to_le_bytes())?;
    out.extend_from_slice(&key.to_le_bytes())?;
    out.extend_from_slice(&value.to_le_bytes())
}
