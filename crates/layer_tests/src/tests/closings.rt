//! What is closed, and the protections that stand.
use super::script::{Asked, Words, put_number};
use closing::Closing;
use std::alloc::Global;

/// Closings with the oldest undecided timestamp or `-`, hard closings, protections and their ends.
pub(super) const SCRIPT: &str = "close 30 20=19
close 30 20=19
close 10 -=19
close 30 40=30
close 35 1=30
close 35 0=30
close 35 -=35
hard 50=50
hard 40=50
least=none
protect 25=1
least=25
protect 12=2
protect 12=3
least=12
protect 70=4
least=12
release 2=yes
release 2=no
release 0=no
release 9=no
least=12
release 3=yes
least=25
release 1=yes
least=70
release 4=yes
least=none
protect 5=5
";

impl Asked for Closing {
    fn ask(&mut self, alloc: Global, mut words: Words<'_>, out: &mut Vec<u8>) -> Option<()> {
        match words.word().first() {
            Some(b'c') => close(alloc, self, &mut words, out),
            Some(b'h') => put_number(alloc, out, self.close_hard(words.number())),
            Some(b'p') => protect(alloc, self, &mut words, out),
            Some(b'r') => release(self, &mut words, out),
            _ => least(alloc, self, out),
        }
    }
}

fn close(
    alloc: Global,
    closing: &mut Closing,
    words: &mut Words<'_>,
    out: &mut Vec<u8>,
) -> Option<()> {
    let to = words.number();
    let oldest = words.number_or_none();
    put_number(alloc, out, closing.close(to, oldest))
}

fn protect(
    alloc: Global,
    closing: &mut Closing,
    words: &mut Words<'_>,
    out: &mut Vec<u8>,
) -> Option<()> {
    if closing.made() == u64::MAX {
        return None;
    }
    let id = closing.protect(words.number()).ok()?;
    put_number(alloc, out, id)
}

fn release(closing: &mut Closing, words: &mut Words<'_>, out: &mut Vec<u8>) -> Option<()> {
    let stood = closing.release(words.number());
    let word = if stood { b"yes".as_slice() } else { b"no" };
    out.extend_from_slice(word).ok()
}

fn least(alloc: Global, closing: &Closing, out: &mut Vec<u8>) -> Option<()> {
    match closing.least_protection() {
        None => out.extend_from_slice(b"none").ok(),
        Some(least) => put_number(alloc, out, least),
    }
}
