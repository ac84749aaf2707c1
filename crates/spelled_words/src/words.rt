//! Lines cut into words.
ghost use Rattle.std.specs.Prelude.{◌≡◌, ◌==◌, ◌∷◌, [], ◌<◌, length, position, IfSome, MatchOption, MatchResult, List, ℕ};
ghost use Rattle.spelled_words.specs.Words.{text_at, words, words_at, words_left, is_printable, is_space};

use crate::fault::LineFault;
use std::marker::Model;
use text_format::Format;

/// A line of a format without its newline. It may not be too long, and the newline may not be missing.
#[tactic(auto, unfolding(crate::specs::Words::text_at))]
pub fn text_of(line: &[u8], format: Format) -> Result<&[u8], LineFault>
    ensures { MatchResult result (λ text. text_at format line.now ≡ Ok text.now) (λ fault. text_at format line.now ≡ Err fault) }
{
    let text = line.strip_suffix(b"\n");
    if text.unwrap_or(line).len() > format.line_limit() {
        return Err(LineFault::LineTooLong);
    }
    text.ok_or(LineFault::NoNewline)
}

/// The words of a text, all of its bytes printable and none of the words empty.
pub fn words_of(text: &[u8]) -> Result<Words<'_>, LineFault>
    ensures { result ≡ words_at text.now }
{
    check_words(text)?;
    Ok(words_in(text))
}

/// The words of a text as they stand: some may be empty, or have a byte that isn't printable.
pub fn words_in(text: &[u8]) -> Words<'_>
    ensures { result ≡ words text.now }
{
    Words { rest: Some(text) }
}

/// How many words a text has, the empty ones among them.
fn count_words(text: &[u8]) -> usize
    ensures { result ≡ length (words text.now) }
{
    let mut spaces = 0usize;
    for byte in text {
        spaces += usize::from(*byte == b' ');
    }
    spaces + 1
}

/// Whether all bytes of a text are printable, and then whether none of its words is empty.
#[tactic(auto, unfolding(crate::specs::Words::words_at))]
pub fn check_words(text: &[u8]) -> Result<(), LineFault>
    ensures { MatchResult result (λ _. words_at text.now ≡ Ok (words text.now)) (λ fault. words_at text.now ≡ Err fault) }
{
    let mut after_space = true;
    let mut has_empty = false;
    for byte in text {
        if !is_printable(*byte) {
            return Err(LineFault::BadByte);
        }
        let is_space = *byte == b' ';
        has_empty = has_empty | (after_space & is_space);
        after_space = is_space;
    }
    if has_empty | after_space {
        return Err(LineFault::WordCount);
    }
    Ok(())
}

/// Whether a byte is the space or printable.
fn is_printable(byte: u8) -> bool
    ensures { result ≡ is_printable byte }
{
    b' ' <= byte && byte <= b'~'
}

/// The words of a text that are still to come, lent. They are cut as they are taken, and aren't
/// counted before.
#[derive(Debug, Drop)]
pub struct Words<'a> {
    rest: Option<&'a [u8]>,
}

impl<'a> Model for Words<'a> {
    ghost Value = { List (List ℕ) };

    ghost view = { λ w. words_left w.rest };
}

impl<'a> Words<'a> {
    /// How many words are still to come. They are walked.
    pub fn len(&self) -> usize
        ensures { result ≡ length self.now }
    {
        self.rest.map_or(0, count_words)
    }

    /// Whether no word is left.
    pub fn is_empty(&self) -> bool
        ensures { result ≡ (length self.now == 0) }
    {
        self.rest.is_none()
    }

    /// The same words once more, to look ahead.
    pub fn fork(&self) -> Words<'a>
        ensures { result ≡ self.now }
    {
        Words { rest: self.rest }
    }

    /// Takes the next word, if there is one.
    pub fn take_word(&mut self) -> Option<&'a [u8]>
        ensures { MatchOption result ((self.old ≡ []) × (self.new ≡ [])) (λ word. self.old ≡ word.now ∷ self.new) }
    {
        let (word, others) = first_word(self.rest?);
        self.rest = others;
        Some(word)
    }
}

/// The first word of a text, and what stands behind the space after it, where there is one.
#[tactic(auto, using(crate::proofs::Splitting::words_alone, crate::proofs::Splitting::words_first, crate::proofs::Splitting::end_is))]
fn first_word(text: &[u8]) -> (&[u8], Option<&[u8]>)
    ensures { words text.now ≡ result.0.now ∷ words_left result.1 }
{
    match space_at(text) {
        None => (text, None),
        Some(at) => (&text[..at], Some(&text[at + 1..])),
    }
}

/// The first space's place.
fn space_at(text: &[u8]) -> Option<usize>
    ensures place { result ≡ position is_space text.now }
    ensures within { IfSome result (λ at. at < length text.now) }
{
    text.iter().position(|byte| *byte == b' ')
}
