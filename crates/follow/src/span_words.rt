//! Two words read as the span that is followed: a lower and an upper bound, `-` for none.
ghost use Rattle.follow.specs.Prelude.{Gives};
ghost use Rattle.follow.specs.Seeds.{bound_in, span_in};

use spans::{Bound, BoundError, Span};
use std::alloc::Global;
use text_format::Format;
use word_lines::fault::{LineFault, ReadError};
use word_lines::spelling::bytes_of;

/// The span between two bounds, each spelled as in scripts of a format: `-` is no bound.
pub fn span_of(alloc: Global, lo: &[u8], hi: &[u8], format: Format) -> Result<Span, ReadError>
    ensures { Gives (λ span. span) result (span_in format lo.now hi.now) }
{
    let lo = bound_of(alloc, lo, format)?;
    let hi = bound_of(alloc, hi, format)?;
    Ok(Span { lo, hi })
}

/// The bound that a word spells, or `-` for none.
#[tactic(auto, unfolding(word_lines::specs::Reading::bound_at))]
fn bound_of(alloc: Global, word: &[u8], format: Format) -> Result<Option<Bound>, ReadError>
    ensures { Gives (λ bound. bound) result (bound_in format word.now) }
{
    if word == b"-".as_slice() {
        return Ok(None);
    }
    let spelled = bytes_of(alloc, word)?;
    let bytes = spelled.bytes();
    if bytes.len() > format.bound_limit() {
        return Err(ReadError::Fault(LineFault::KeyLength));
    }
    match Bound::new(alloc, bytes) {
        Ok(bound) => Ok(Some(bound)),
        Err(BoundError::BoundLength) => Err(ReadError::Fault(LineFault::KeyLength)),
        Err(BoundError::NoMemory) => Err(ReadError::NoMemory),
    }
}
