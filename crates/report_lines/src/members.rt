//! A line as a table of its members.
ghost use Rattle.std.specs.Prelude.{◌≡◌, ◌++◌, OnOk, OnErr};
ghost use Rattle.std.specs.List.{flat_map};
ghost use Rattle.json_lines.specs.Messages.{Keeps};
ghost use Rattle.report_lines.specs.Lines.{member, number, bytes, text_of, line_of};

use json_lines::base64_text::put_base64;
use json_lines::numbers::put_number;
use std::alloc::AllocError;

/// A writer's result.
pub(crate) type Written = Result<(), AllocError>;

/// A member of a line: its name, and its value.
#[derive(Clone, Copy)]
pub(crate) enum Member<'a> {
    /// A word.
    Word(&'a [u8], &'a [u8]),
    /// `true` or `false`.
    Truth(&'a [u8], bool),
    /// A number, or `null` for none.
    Number(&'a [u8], Option<u64>),
    /// Bytes in base64, or `null` for none.
    Bytes(&'a [u8], Option<&'a [u8]>),
    /// A number, or no member at all for none.
    NumberIfAny(&'a [u8], Option<u64>),
}

/// Writes a line of this kind with these members.
#[tactic(auto, using(json_lines::proofs::Writing::keeping, json_lines::proofs::Writing::on_error), unfolding(crate::specs::Lines::line_of, crate::specs::Lines::begins))]
pub(crate) fn put_line(out: &mut Vec<u8>, kind: &[u8], members: &[Member]) -> Written
    ensures ok { OnOk result (out.new.items ≡ out.old.items ++ line_of kind.now members.now) }
    ensures err { OnErr result (Keeps out.old.items out.new.items) }
{
    put_parts(out, &[b"{\"kind\":\"", kind, b"\""])?;
    for member in members {
        put_member(out, member)?;
    }
    out.extend_from_slice(b"}\n")
}

#[tactic(auto, unfolding(crate::specs::Lines::text_of, crate::specs::Lines::member, crate::specs::Lines::quoted, crate::specs::Lines::truth, crate::specs::Lines::number_or_null, crate::specs::Lines::bytes_or_null, crate::specs::Lines::member_in_whole))]
fn put_member(out: &mut Vec<u8>, member: &Member) -> Written
    ensures ok { OnOk result (out.new.items ≡ out.old.items ++ text_of member.now) }
    ensures err { OnErr result (Keeps out.old.items out.new.items) }
{
    match *member {
        Member::Word(name, word) => put_parts(out, &[b",\"", name, b"\":\"", word, b"\""]),
        Member::Truth(name, true) => put_parts(out, &[b",\"", name, b"\":true"]),
        Member::Truth(name, false) => put_parts(out, &[b",\"", name, b"\":false"]),
        Member::Number(name, Some(n)) => put_number_member(out, name, n),
        Member::Number(name, None) => put_parts(out, &[b",\"", name, b"\":null"]),
        Member::Bytes(name, Some(of)) => put_bytes_member(out, name, of),
        Member::Bytes(name, None) => put_parts(out, &[b",\"", name, b"\":null"]),
        Member::NumberIfAny(name, Some(n)) => put_number_member(out, name, n),
        Member::NumberIfAny(_, None) => Ok(()),
    }
}

#[tactic(auto, using(json_lines::proofs::Writing::keeping, json_lines::proofs::Writing::on_error), unfolding(crate::specs::Lines::member, crate::specs::Lines::quoted))]
fn put_number_member(out: &mut Vec<u8>, name: &[u8], n: u64) -> Written
    ensures ok { OnOk result (out.new.items ≡ out.old.items ++ member name.now (number n)) }
    ensures err { OnErr result (Keeps out.old.items out.new.items) }
{
    put_parts(out, &[b",\"", name, b"\":\""])?;
    put_number(out, n)?;
    out.extend_from_slice(b"\"")
}

#[tactic(auto, using(json_lines::proofs::Writing::keeping, json_lines::proofs::Writing::on_error), unfolding(crate::specs::Lines::member, crate::specs::Lines::quoted))]
fn put_bytes_member(out: &mut Vec<u8>, name: &[u8], of: &[u8]) -> Written
    ensures ok { OnOk result (out.new.items ≡ out.old.items ++ member name.now (bytes of.now)) }
    ensures err { OnErr result (Keeps out.old.items out.new.items) }
{
    put_parts(out, &[b",\"", name, b"\":\""])?;
    put_base64(out, of)?;
    out.extend_from_slice(b"\"")
}

/// Writes texts, one behind the other.
#[tactic(auto, using(json_lines::proofs::Writing::keeping, json_lines::proofs::Writing::on_error))]
fn put_parts(out: &mut Vec<u8>, parts: &[&[u8]]) -> Written
    ensures ok { OnOk result (out.new.items ≡ out.old.items ++ flat_map (λ part. part.now) parts.now) }
    ensures err { OnErr result (Keeps out.old.items out.new.items) }
{
    for part in parts {
        out.extend_from_slice(part)?;
    }
    Ok(())
}
