//! A text taken line by line, with the lines counted.
ghost use Rattle.std.specs.Prelude.{◌≡◌, ◌≤◌, ◌+◌, ◌==◌, ◌<◌, ◌∷◌, [], length, position, IfSome, MatchOption, ◌^◌};
ghost use Rattle.script.specs.EventLines.{is_newline, lines_of, IsPast, Place};

use std::marker::Model;

/// The lines of a text that are still to come, lent, and the number of the next.
#[derive(Drop)]
pub(crate) struct Lines<'a> {
    rest: &'a [u8],
    number: u64,
}

impl<'a> Model for Lines<'a> {
    ghost Value = { Place };

    ghost view = { λ l. record { number = l.number; lines = lines_of l.rest.now } };

    // a line has a byte at least, so the count doesn't overflow
    ghost invariant = { λ l. l.number + length l.rest.now < 2 ^ 64 };
}

impl<'a> Lines<'a> {
    /// The lines of a text that stands below so many others, counted from 1.
    pub(crate) fn below(text: &'a [u8], above: u64) -> Lines<'a>
        requires few { above ≤ 1 }
        ensures { result ≡ record { number = 1 + above; lines = lines_of text.now } }
    {
        Lines {
            rest: text,
            number: 1 + above,
        }
    }

    /// Whether no line is left.
    pub(crate) fn is_empty(&self) -> bool
        ensures { result ≡ (length self.now.lines == 0) }
    {
        self.rest.is_empty()
    }

    /// The number of the next line.
    pub(crate) fn number(&self) -> u64
        ensures { result ≡ self.now.number }
    {
        self.number
    }

    /// Takes the next line, with its newline, if there is one.
    pub(crate) fn take_line(&mut self) -> Option<&'a [u8]>
        ensures { MatchOption result ((self.old.lines ≡ []) × (self.new ≡ self.old)) (λ line. IsPast line.now self.old self.new) }
    {
        if self.rest.is_empty() {
            return None;
        }
        let (line, others) = first_line(self.rest);
        self.rest = others;
        self.number += 1;
        Some(line)
    }
}

/// The first line of a text, with its newline where it has one, and what stands behind it.
pub fn first_line(text: &[u8]) -> (&[u8], &[u8])
    requires { 0 < length text.now }
    ensures lines { lines_of text.now ≡ result.0.now ∷ lines_of result.1.now }
    ensures shorter { length result.1.now < length text.now }
{
    match newline_at(text) {
        None => (text, &[]),
        Some(at) => (&text[..at + 1], &text[at + 1..]),
    }
}

/// The first newline's place.
fn newline_at(text: &[u8]) -> Option<usize>
    ensures place { result ≡ position is_newline text.now }
    ensures within { IfSome result (λ at. at < length text.now) }
{
    text.iter().position(|byte| *byte == b'\n')
}
