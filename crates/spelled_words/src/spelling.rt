//! Bytes spelled as a word: `-` for none, a printable byte as itself, any other as `%` and two
//! hexadecimal digits. Each list of bytes has one spelling.
ghost use Rattle.std.specs.Prelude.{◌≡◌, ◌++◌, ◌<◌, ◌≤◌, true, length, ok_or, IfSome, MatchOption, IfOk, IfErr, OnOk, OnErr};
ghost use Rattle.json_lines.specs.Messages.{Keeps};
ghost use Rattle.spelled_words.specs.Words.{spelled_bytes, is_plain, hex_digit, hex_value, escaped, first_at, unspelled, bytes_of, spelled, spelling};
ghost use Rattle.spelled_words.specs.Reading.{is_long, Gives};
ghost use Rattle.spelled_words.specs.declared.fault.ReadError.TheVariants.{NoMemory};
ghost use Rattle.std.specs.List.{flat_map, list_all};

use crate::fault::{LineFault, Parsed, ReadError};
use smallvec::SmallVec;
use std::alloc::{AllocError, Global};

/// Whether a byte stands for itself: it is printable, and neither the space nor `%`.
fn is_plain(byte: u8) -> bool
    ensures { result ≡ is_plain byte }
{
    b'!' <= byte && byte <= b'~' && byte != b'%'
}

/// Whether each byte stands for itself.
fn are_plain(bytes: &[u8]) -> bool
    ensures { result ≡ list_all is_plain bytes.now }
{
    bytes.iter().all(|byte| is_plain(*byte))
}

/// Writes the spelling of bytes at the end.
/// After an error it still begins with what was there.
#[tactic(auto, using(json_lines::proofs::Writing::keeping), unfolding(crate::specs::Words::spelling))]
pub fn put_spelling(out: &mut Vec<u8>, bytes: &[u8]) -> Result<(), AllocError>
    ensures ok { OnOk result (out.new.items ≡ out.old.items ++ spelling bytes.now) }
    ensures err { OnErr result (Keeps out.old.items out.new.items) }
{
    match bytes {
        [] => Ok(out.push(b'-')?),
        [b'-'] => out.extend_from_slice(b"%2D"),
        _ => put_spelled(out, bytes),
    }
}

/// Writes each byte as itself or escaped, all at once where each stands for itself.
#[tactic(auto, using(json_lines::proofs::Writing::keeping, crate::proofs::Spellings::plain_stand))]
fn put_spelled(out: &mut Vec<u8>, bytes: &[u8]) -> Result<(), AllocError>
    ensures ok { OnOk result (out.new.items ≡ out.old.items ++ flat_map spelled bytes.now) }
    ensures err { OnErr result (Keeps out.old.items out.new.items) }
{
    if are_plain(bytes) {
        return out.extend_from_slice(bytes);
    }
    for byte in bytes {
        if is_plain(*byte) {
            out.push(*byte)?;
        } else {
            out.extend_from_slice(&[b'%', hex_digit(*byte / 16), hex_digit(*byte % 16)])?;
        }
    }
    Ok(())
}

/// The hexadecimal digit of a number, `0` to `9` or `A` to `F`.
fn hex_digit(n: u8) -> u8
    requires { n < 16 }
    ensures { result ≡ hex_digit n }
{
    if n < 10 { b'0' + n } else { b'A' + n - 10 }
}

/// The bytes that a word spells: lent where no memory is wanted for them.
#[derive(Debug, Drop)]
pub enum Spelled<'a> {
    Plain(&'a [u8]),
    Escaped(SmallVec<u8, 24>),
}

impl Spelled<'_> {
    /// The bytes, lent.
    pub fn bytes(&self) -> &[u8]
        ensures { result.now ≡ spelled_bytes self.now }
    {
        match self {
            Spelled::Plain(bytes) => bytes,
            Spelled::Escaped(bytes) => bytes.as_slice(),
        }
    }
}

/// The bytes that a word spells, or the fault `BadByte` where it isn't the spelling of any. It
/// allocates only for a long word with an escaped byte.
#[inline(always)]
#[tactic(auto, using(crate::proofs::Spellings::plain_word), unfolding(crate::specs::Words::bytes_of))]
pub fn bytes_of<'a>(alloc: Global, word: &'a [u8]) -> Result<Spelled<'a>, ReadError>
    ensures exact { Gives spelled_bytes result (ok_or (bytes_of word.now) LineFault.BadByte) }
    ensures shorter { IfOk result (λ bytes. length (spelled_bytes bytes) ≤ length word.now) }
    ensures memory { IfErr result (λ e. e ≡ NoMemory → is_long word.now ≡ true) }
{
    if word.is_empty() {
        return Err(ReadError::Fault(LineFault::BadByte));
    }
    if word == b"-".as_slice() {
        return Ok(Spelled::Plain(&[]));
    }
    if word == b"%2D".as_slice() {
        return Ok(Spelled::Plain(b"-"));
    }
    if are_plain(word) {
        return Ok(Spelled::Plain(word));
    }
    Ok(Spelled::Escaped(unescaped(alloc, word)?))
}

/// The bytes of a word, of which some are escaped.
#[cold]
#[inline(never)]
fn unescaped(alloc: Global, word: &[u8]) -> Parsed<SmallVec<u8, 24>>
    ensures exact { Gives (λ bytes. bytes.items) result (ok_or (unspelled word.now) LineFault.BadByte) }
    ensures shorter { IfOk result (λ bytes. length bytes.items ≤ length word.now) }
    ensures memory { IfErr result (λ e. e ≡ NoMemory → is_long word.now ≡ true) }
{
    let mut bytes = SmallVec::new(alloc);
    let mut rest = word;
    while !rest.is_empty() {
        let Some((byte, others)) = first_spelled(rest) else {
            return Err(ReadError::Fault(LineFault::BadByte));
        };
        bytes.push(byte)?;
        rest = others;
    }
    Ok(bytes)
}

/// The byte that is spelled at the front, and what stands behind it.
fn first_spelled(word: &[u8]) -> Option<(u8, &[u8])>
    requires { 0 < length word.now }
    ensures shorter { IfSome result (λ found. length found.1.now < length word.now) }
    ensures first { MatchOption result (first_at word.now ≡ None) (λ found. first_at word.now ≡ Some (found.0, found.1.now)) }
{
    let first = word[0];
    if is_plain(first) {
        return Some((first, &word[1..]));
    }
    if first != b'%' || word.len() < 3 {
        return None;
    }
    Some((escaped_byte(word[1], word[2])?, &word[3..]))
}

/// The byte of two digits, unless it stands for itself.
fn escaped_byte(high: u8, low: u8) -> Option<u8>
    ensures { result ≡ escaped high low }
{
    let high = hex_value(high)?;
    let low = hex_value(low)?;
    let byte = high * 16 + low;
    if is_plain(byte) { None } else { Some(byte) }
}

/// The value of a hexadecimal digit, `0` to `9` or `A` to `F`.
fn hex_value(digit: u8) -> Option<u8>
    ensures value { result ≡ hex_value digit }
    ensures small { IfSome result (λ value. value < 16) }
{
    match digit {
        b'0'..=b'9' => Some(digit - b'0'),
        b'A'..=b'F' => Some(digit - b'A' + 10),
        _ => None,
    }
}
