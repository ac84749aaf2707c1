//! A message's line taken apart from left to right, as it is written and not otherwise.
//!
//! It takes no memory: the texts are lent from the line.
ghost use Rattle.std.specs.Prelude.{◌≡◌, ◌<◌, length, option_map, position, IfSome};
ghost use Rattle.json_lines.specs.Meaning.{Reads, texts_view};
ghost use Rattle.json_lines.specs.Written.{is_quote, behind, quoted, last_text, after_at_front, resolved_written, row_written, texts_written};

use crate::fault::{MessageFault, Read};
use crate::texts::Texts;

/// The texts of a line that is spelled as a message's line is.
#[tactic(auto, unfolding(crate::specs::Written::texts_written))]
pub(crate) fn texts_written(line: &[u8]) -> Read<Texts<'_>>
    ensures { Reads texts_view result (texts_written line.now) }
{
    resolved_written(line).or_else(|_| row_written(line))
}

#[tactic(auto, unfolding(crate::specs::Written::resolved_written))]
fn resolved_written(line: &[u8]) -> Read<Texts<'_>>
    ensures { Reads texts_view result (resolved_written line.now) }
{
    let rest = behind(b"{\"resolved\":\"", line)?;
    Ok(Texts::Resolved(last_text(rest)?))
}

#[tactic(auto, unfolding(crate::specs::Written::row_written))]
fn row_written(line: &[u8]) -> Read<Texts<'_>>
    ensures { Reads texts_view result (row_written line.now) }
{
    let front = behind(b"{\"after\":", line)?;
    let (after, rest) = after_at_front(front)?;
    let middle = behind(b",\"key\":\"", rest)?;
    let (key, rest) = quoted(middle)?;
    let back = behind(b",\"updated\":\"", rest)?;
    let ts = last_text(back)?;
    Ok(Texts::Row { after, key, ts })
}

/// `null`, or a text in quotes, and what stands behind it.
#[tactic(auto, unfolding(crate::specs::Written::after_at_front, crate::specs::Written::null_at_front, crate::specs::Written::text_at_front))]
fn after_at_front(bytes: &[u8]) -> Read<(Option<&[u8]>, &[u8])>
    ensures { Reads (λ p. (option_map (λ t. t.now) p.0, p.1.now)) result (after_at_front bytes.now) }
{
    if let Ok(rest) = behind(b"null", bytes) {
        return Ok((None, rest));
    }
    let (text, rest) = quoted(behind(b"\"", bytes)?)?;
    Ok((Some(text), rest))
}

/// The last text, with which the line ends.
#[tactic(auto, unfolding(crate::specs::Written::last_text))]
fn last_text(bytes: &[u8]) -> Read<&[u8]>
    ensures { Reads (λ t. t.now) result (last_text bytes.now) }
{
    let (text, end) = quoted(bytes)?;
    if end != b"}\n".as_slice() {
        return Err(MessageFault::Shape);
    }
    Ok(text)
}

/// The bytes behind a front.
#[tactic(auto, using(crate::proofs::Quotes::behind_yes, crate::proofs::Quotes::behind_no))]
fn behind<'a>(front: &[u8], bytes: &'a [u8]) -> Read<&'a [u8]>
    ensures { Reads (λ t. t.now) result (behind front.now bytes.now) }
{
    bytes.strip_prefix(front).ok_or(MessageFault::Shape)
}

/// The bytes before the first quote, and those behind it.
#[tactic(auto, using(crate::proofs::Quotes::quoted_none))]
fn quoted(bytes: &[u8]) -> Read<(&[u8], &[u8])>
    ensures { Reads (λ p. (p.0.now, p.1.now)) result (quoted bytes.now) }
{
    match quote_at(bytes) {
        Some(at) => Ok((&bytes[..at], &bytes[at + 1..])),
        None => Err(MessageFault::Shape),
    }
}

/// The first quote's place.
fn quote_at(bytes: &[u8]) -> Option<usize>
    ensures place { result ≡ position is_quote bytes.now }
    ensures within { IfSome result (λ at. at < length bytes.now) }
{
    bytes.iter().position(|byte| *byte == b'"')
}
