//! The JSON line of a message of a feed.
ghost use Rattle.std.specs.Prelude.{◌≡◌, ◌++◌, IfOk, OnOk, OnErr};
ghost use Rattle.json_lines.specs.Messages.{Keeps, after_text, message_line};

use crate::base64_text::put_base64;
use crate::buffer::or_undo;
use crate::numbers::put_number;
use spans::Message;
use std::alloc::{AllocError, Global};
use timestamps::Value;

/// The line of a message.
pub fn write_message(alloc: Global, message: &Message) -> Result<Vec<u8>, AllocError>
    ensures { IfOk result (λ line. line.items ≡ message_line message.now) }
{
    let mut line = Vec::new(alloc);
    put_message(&mut line, message)?;
    Ok(line)
}

/// Writes a message as one line of JSON, with its newline, at the end. Members stand in byte order
/// of their names, and there are no spaces.
/// After an error it is as it was.
#[tactic(auto, using(crate::proofs::Writing::undone))]
pub fn write_message_line(out: &mut Vec<u8>, message: &Message) -> Result<(), AllocError>
    ensures ok { OnOk result (out.new.items ≡ out.old.items ++ message_line message.now) }
    ensures err { OnErr result (out.new.items ≡ out.old.items) }
{
    let length_before = out.len();
    let written = put_message(out, message);
    or_undo(out, length_before, written)
}

#[tactic(auto, using(crate::proofs::Writing::keeping, crate::proofs::Writing::on_error), unfolding(crate::specs::Messages::message_line))]
fn put_message(out: &mut Vec<u8>, message: &Message) -> Result<(), AllocError>
    ensures ok { OnOk result (out.new.items ≡ out.old.items ++ message_line message.now) }
    ensures err { OnErr result (Keeps out.old.items out.new.items) }
{
    match message {
        Message::Row(row) => {
            out.extend_from_slice(b"{\"after\":")?;
            put_after(out, &row.after)?;
            out.extend_from_slice(b",\"key\":\"")?;
            put_base64(out, row.key.bytes())?;
            out.extend_from_slice(b"\",\"updated\":\"")?;
            put_number(out, row.ts.get())?;
            out.extend_from_slice(b"\"}\n")
        }
        Message::Resolved(ts) => {
            out.extend_from_slice(b"{\"resolved\":\"")?;
            put_number(out, ts.get())?;
            out.extend_from_slice(b"\"}\n")
        }
    }
}

/// Writes a value in quotes, or `null` for a delete.
#[tactic(auto, using(crate::proofs::Writing::keeping))]
fn put_after(out: &mut Vec<u8>, after: &Option<Value>) -> Result<(), AllocError>
    ensures ok { OnOk result (out.new.items ≡ out.old.items ++ after_text after.now) }
    ensures err { OnErr result (Keeps out.old.items out.new.items) }
{
    match after {
        None => out.extend_from_slice(b"null"),
        Some(value) => {
            out.push(b'"')?;
            put_base64(out, value.bytes())?;
            Ok(out.push(b'"')?)
        }
    }
}
