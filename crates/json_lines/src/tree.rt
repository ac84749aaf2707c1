//! The tests of a line in their order, over the tree that `serde_json` reads of it.
ghost use Rattle.std.specs.Prelude.{option_map, IfOk};
ghost use Rattle.serde_json.specs.View.{view};
ghost use Rattle.json_lines.specs.Messages.{IsMessage};
ghost use Rattle.json_lines.specs.Meaning.{Gives, Reads, texts_view};
ghost use Rattle.json_lines.specs.Tests.{text_at, after_at, resolved_in, row_in, texts_in, tree_of, meant_by};

use crate::fault::{MessageFault, Read};
use crate::texts::{Texts, message_of};
use serde_json::Value;
use spans::Message;
use std::alloc::Global;
use text_format::Format;

/// The message of a format that a text has, however it is written, or the first test that it doesn't pass.
#[tactic(auto, unfolding(crate::specs::Tests::meant_by))]
pub(crate) fn meant_by(alloc: Global, text: &str, format: Format) -> Read<Message>
    ensures exact { Gives (λ m. m) result (meant_by format text.now) }
    ensures lawful { IfOk result (λ m. IsMessage format m) }
{
    let tree = tree_of(alloc, text)?;
    let texts = texts_in(&tree)?;
    message_of(alloc, texts, format)
}

#[tactic(auto, using(crate::proofs::Trees::tree_good, crate::proofs::Trees::tree_bad))]
fn tree_of(alloc: Global, text: &str) -> Read<Value>
    ensures { Gives view result (tree_of text.now) }
{
    match Value::from_str(alloc, text) {
        Ok(tree) => Ok(tree),
        Err(error) if error.is_memory() => Err(MessageFault::NoMemory),
        Err(_) => Err(MessageFault::NotJson),
    }
}

#[tactic(auto, using(crate::proofs::Trees::counted))]
fn texts_in(tree: &Value) -> Read<Texts<'_>>
    ensures { Reads texts_view result (texts_in (view tree.now)) }
{
    let Some(members) = tree.as_object() else {
        return Err(MessageFault::Shape);
    };
    match members.len() {
        1 => resolved_in(tree),
        3 => row_in(tree),
        _ => Err(MessageFault::Shape),
    }
}

#[tactic(auto, unfolding(crate::specs::Tests::resolved_in))]
fn resolved_in(tree: &Value) -> Read<Texts<'_>>
    ensures { Reads texts_view result (resolved_in (view tree.now)) }
{
    Ok(Texts::Resolved(text_at("resolved", tree)?))
}

#[tactic(auto, unfolding(crate::specs::Tests::row_in))]
fn row_in(tree: &Value) -> Read<Texts<'_>>
    ensures { Reads texts_view result (row_in (view tree.now)) }
{
    let after = after_at(tree)?;
    let key = text_at("key", tree)?;
    let ts = text_at("updated", tree)?;
    Ok(Texts::Row { after, key, ts })
}

/// The member `after`: a string, or null.
#[tactic(auto, unfolding(crate::specs::Tests::after_at))]
fn after_at(tree: &Value) -> Read<Option<&[u8]>>
    ensures { Reads (λ o. option_map (λ t. t.now) o) result (after_at (view tree.now)) }
{
    let after = tree.get("after").ok_or(MessageFault::Shape)?;
    if after.is_null() {
        return Ok(None);
    }
    Ok(Some(after.as_str().ok_or(MessageFault::Shape)?.as_bytes()))
}

/// A member that is a string.
#[tactic(auto, unfolding(crate::specs::Tests::text_at))]
fn text_at<'a>(name: &str, tree: &'a Value) -> Read<&'a [u8]>
    ensures { Reads (λ t. t.now) result (text_at name.now (view tree.now)) }
{
    let member = tree.get(name).ok_or(MessageFault::Shape)?;
    Ok(member.as_str().ok_or(MessageFault::Shape)?.as_bytes())
}
