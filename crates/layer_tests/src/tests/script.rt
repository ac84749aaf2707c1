//! Scripts of calls, a line each, with what each call is answered behind `=`.
use spans::{Bound, Span};
use std::alloc::Global;
use std::process::Abort;
use timestamps::{Key, Ts};

/// Calls that lines ask for.
pub(super) trait Asked {
    /// Makes the call of a line's words, and writes what it is answered; none where the line is no call.
    fn ask(&mut self, alloc: Global, words: Words<'_>, out: &mut Vec<u8>) -> Option<()>;
}

/// Makes the calls of a script. Each is answered as its line says.
pub(super) fn play<A: Asked>(rt: &(impl Abort + AllocGlobal), asked: &mut A, script: &str) {
    for line in script.lines() {
        assert!(rt; is_answered(rt.alloc(), asked, line), "{line:?}");
    }
}

fn is_answered<A: Asked>(alloc: Global, asked: &mut A, line: &str) -> bool {
    let (_, wanted) = line.split_once('=').unwrap_or((line, "="));
    let mut out = Vec::new(alloc);
    let made = asked.ask(alloc, Words::of(line), &mut out);
    made.is_some() && out.as_slice() == wanted.as_bytes()
}

/// The words of a line that are left.
#[derive(Drop)]
pub(super) struct Words<'a> {
    rest: &'a str,
}

impl<'a> Words<'a> {
    /// The words of a line's call.
    pub(super) fn of(line: &'a str) -> Words<'a> {
        let (call, _) = line.split_once('=').unwrap_or((line, ""));
        Words { rest: call }
    }

    /// The same words once more.
    pub(super) fn again(&self) -> Words<'a> {
        Words { rest: self.rest }
    }

    /// The next word, of no letter behind the last.
    pub(super) fn word(&mut self) -> &'a [u8] {
        let (word, rest) = self.rest.split_once(' ').unwrap_or((self.rest, ""));
        self.rest = rest;
        word.as_bytes()
    }

    /// The next word as a number, if it is one.
    pub(super) fn number_or_none(&mut self) -> Option<u64> {
        let (word, rest) = self.rest.split_once(' ').unwrap_or((self.rest, ""));
        self.rest = rest;
        word.parse::<u64>().ok()
    }

    /// The next word as a number, 0 where it is none.
    pub(super) fn number(&mut self) -> u64 {
        self.number_or_none().unwrap_or(0)
    }

    pub(super) fn ts(&mut self) -> Option<Ts> {
        Ts::new(self.number())
    }

    pub(super) fn key(&mut self, alloc: Global) -> Option<Key> {
        Key::new(alloc, self.word()).ok()
    }

    /// The span between two bounds.
    pub(super) fn span(&mut self, alloc: Global) -> Option<Span> {
        let lo = self.bound(alloc)?;
        let hi = self.bound(alloc)?;
        Some(Span { lo, hi })
    }

    /// A bound; `-` is none.
    fn bound(&mut self, alloc: Global) -> Option<Option<Bound>> {
        let word = self.word();
        if word == b"-".as_slice() {
            return Some(None);
        }
        Some(Some(Bound::new(alloc, word).ok()?))
    }
}

/// Writes a number.
pub(super) fn put_number(alloc: Global, out: &mut Vec<u8>, number: u64) -> Option<()> {
    let text = format!(in alloc; "{number}").ok()?;
    out.extend_from_slice(text.as_bytes()).ok()
}
