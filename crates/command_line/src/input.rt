//! An input whose beginning is kept, so that a faulty line can be looked at once more.
ghost use Rattle.std.specs.Prelude.{◌≡◌, ◌≤◌, take, length, IfOk, OnErr};
ghost use Rattle.sessions.specs.Devices.{with_given, with_failed_read};

use sessions::{ReadFailed, Source};
use std::alloc::Global;

/// How many bytes are kept, of what is read block by block: more than anyone writes by hand.
const KEPT: usize = 1_048_576;

/// A source, with the beginning of what it gave.
#[derive(Drop)]
pub struct Input<S> {
    pub source: S,
    beginning: Vec<u8>,
    /// Whether all that was given is kept so far.
    is_whole: bool,
}

impl<S: Source> Input<S> {
    /// The source, of which nothing was read here.
    pub fn new(alloc: Global, source: S) -> Input<S>
        ensures { result.source ≡ source }
    {
        Input {
            source,
            beginning: Vec::new(alloc),
            is_whole: true,
        }
    }

    /// Whether nothing was given.
    pub fn is_empty(&self) -> bool {
        self.is_whole && self.beginning.is_empty()
    }

    /// The beginning of what was given.
    pub fn beginning(&self) -> &[u8] {
        self.beginning.as_slice()
    }

    /// The line of this number, counted from 1, without its newline, where both are kept.
    pub fn line(&self, number: u64) -> Option<&[u8]> {
        let before = usize::try_from(number.checked_sub(1)?).ok()?;
        let mut lines = self.beginning().split(|byte| *byte == b'\n');
        let line = lines.nth(before)?;
        lines.next()?;
        Some(line)
    }

    /// Keeps what was given, unless enough is kept or memory is wanted: a hint is no reason to end.
    fn keep(&mut self, given: &[u8])
        ensures { self.new.source ≡ self.old.source }
    {
        if !self.is_whole || self.beginning.len() >= KEPT {
            self.is_whole = false;
            return;
        }
        self.is_whole = self.beginning.extend_from_slice(given).is_ok();
    }
}

impl<S: Source> Source for Input<S> {
    ghost reads = { λ input. S.reads input.source };

    fn read(&mut self, block: &mut [u8]) -> Result<usize, ReadFailed>
        requires room { 65536 ≤ length block.old }
        ensures count { IfOk result (λ n. n ≤ length block.new) }
        ensures given { IfOk result (λ n. S.reads self.new.source ≡ with_given (S.reads self.old.source) (take n block.new)) }
        ensures failed { OnErr result (S.reads self.new.source ≡ with_failed_read (S.reads self.old.source)) }
    {
        let count = self.source.read(block)?;
        self.keep(&block[..count]);
        Ok(count)
    }
}
