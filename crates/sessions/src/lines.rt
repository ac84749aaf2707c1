//! The lines of an input, read in large blocks.
//!
//! ```text
//! let mut lines = Lines::new(alloc, Format::One)?;   waits: nothing
//! lines.next_line(..)?          Some(11)          waits: 0 begin 10\n0 put 1
//! lines.line(11)                "0 begin 10\n"
//! lines.advance(11)                               waits: 0 put 1
//! lines.next_line(..)?          Some(10)          waits: 0 put 1, and what the next read gave
//! ```
//!
//! A front end asks for the [`next_line`](Lines::next_line), takes what it needs of it and advances. Where more has to
//! be read, what the front end owes is written first, since a read may wait.
ghost use Rattle.std.specs.Prelude.{◌≡◌, ◌≤◌, ◌<◌, ◌+◌, ◌-◌, [], true, false, position, take, drop, length, vec_len, IfOk, IfSome, OnOk, OnErr};
ghost use Rattle.sessions.specs.Prelude.{is_newline, line_limit};

use crate::devices::{ReadFailed, Sink, Source};
use crate::ending::ServeEnd;
use crate::output::{BLOCK, Output};
use memchr::memchr;
use std::alloc::{AllocError, Global};
use text_format::Format;

/// The bytes of an input that were read and wait to be taken, line by line. It has no device: each read
/// is handed one.
#[derive(Drop)]
pub struct Lines {
    block: Vec<u8>,
    start: usize,
    end: usize,
    /// The first newline's place among what waits. Each byte is looked at once, whether or not a read completes a
    /// line.
    newline: Option<usize>,
    /// Whether the latest read found the end.
    ended: bool,
    format: Format,
    ghost ordered: { start ≤ end },
    ghost within: { end ≤ vec_len block },
    ghost size: { vec_len block ≡ line_limit format + 65536 },
    ghost found: { newline ≡ position is_newline (take (end - start) (drop start block.items)) },
}

impl Lines {
    ghost use Rattle.sessions.specs.Waiting.{waiting, has_ended, format_of, WantsMore, HasEnough, IsRead, IsUnread, IsMoved, IsNextLine, HasReadOn, IsSought, IsNeeded};

    /// No bytes yet. Its block has room for one line of the format, and for the bytes that are asked for at once behind
    /// it.
    pub fn new(alloc: Global, format: Format) -> Result<Lines, AllocError>
        ensures nothing { IfOk result (λ lines. (waiting lines ≡ []) × (has_ended lines ≡ false)) }
        ensures format { IfOk result (λ lines. format_of lines ≡ format) }
    {
        let block = vec![in alloc; 0u8; format.line_limit() + BLOCK]?;
        Ok(Lines {
            block,
            start: 0,
            end: 0,
            newline: None,
            ended: false,
            format,
        })
    }

    fn waiting(&self) -> &[u8]
        ensures { result.now ≡ waiting self.now }
    {
        &self.block[self.start..self.end]
    }

    /// Finds the next line, and reads as often as that takes: how many bytes it has, or none where the input is at its
    /// end. Before each read all output that waits is written, since a read may wait.
    pub fn next_line<S: Source, K: Sink>(
        &mut self,
        source: &mut S,
        output: &mut Output,
        sink: &mut K,
    ) -> Result<Option<usize>, ServeEnd>
        ensures read { HasReadOn self.old self.new (S.reads source.old) (S.reads source.new) }
        ensures sought { IsSought self.new (S.reads source.old) (S.reads source.new) (K.writes sink.old) (K.writes sink.new) output.old output.new result }
        ensures needed { IsNeeded self.old (S.reads source.old) (S.reads source.new) (K.writes sink.old) (K.writes sink.new) output.old output.new result }
    {
        while self.wants_more() {
            output.write_out(sink)?;
            self.read_more(source)?;
        }
        Ok(self.first_line())
    }

    /// Whether more has to be read before it is known what comes next.
    fn wants_more(&self) -> bool
        ensures more { result ≡ true → WantsMore self.now }
        ensures enough { result ≡ false → HasEnough self.now }
    {
        // a line that grows past its limit is handed out as it is
        self.newline.is_none() && !self.ended && self.end - self.start <= self.format.line_limit()
    }

    /// How many bytes the line has that is there, or none at the end of the input. Its last line may have no newline.
    fn first_line(&self) -> Option<usize>
        requires { HasEnough self.now }
        ensures { IsNextLine self.now result }
    {
        match self.newline {
            Some(at) => Some(at + 1),
            None if self.start == self.end => None,
            None => Some(self.end - self.start),
        }
    }

    /// The first bytes that wait, lent where they lie.
    pub fn line(&self, count: usize) -> &[u8]
        requires { count ≤ length (waiting self.now) }
        ensures { result.now ≡ take count (waiting self.now) }
    {
        &self.waiting()[..count]
    }

    /// Takes away the first bytes that wait.
    pub fn advance(&mut self, count: usize)
        requires { count ≤ length (waiting self.old) }
        ensures bytes { waiting self.new ≡ drop count (waiting self.old) }
        ensures ended { has_ended self.new ≡ has_ended self.old }
        ensures format { format_of self.new ≡ format_of self.old }
    {
        self.start += count;
        self.newline = newline_in(&self.block[self.start..self.end]);
    }

    /// Reads once, behind what waits. It may wait for the source. Where the read fails all stays as it was.
    fn read_more<S: Source>(&mut self, source: &mut S) -> Result<(), ReadFailed>
        requires { WantsMore self.old }
        ensures read { OnOk result (IsRead self.old self.new (S.reads source.old) (S.reads source.new)) }
        ensures failed { OnErr result (IsUnread self.old self.new (S.reads source.old) (S.reads source.new)) }
    {
        self.move_to_front();
        let count = source.read(&mut self.block[self.end..])?;
        self.ended = count == 0;
        // after the move what waits begins the block
        self.newline = newline_with(self.newline, &self.block[..self.end + count], self.end);
        self.end += count;
        Ok(())
    }

    /// Makes room behind what waits.
    fn move_to_front(&mut self)
        requires room { length (waiting self.old) ≤ line_limit (format_of self.old) }
        ensures { IsMoved self.old self.new }
    {
        if self.start > 0 {
            self.block.copy_within(self.start..self.end, 0);
            self.end -= self.start;
            self.start = 0;
        }
    }
}

/// The first newline's place in `bytes`. `newline` is its place in the first `searched` bytes, if they have one.
fn newline_with(newline: Option<usize>, bytes: &[u8], searched: usize) -> Option<usize>
    requires within { searched ≤ length bytes.now }
    requires known { newline ≡ position is_newline (take searched bytes.now) }
    ensures { result ≡ position is_newline bytes.now }
{
    if newline.is_some() {
        return newline;
    }
    match newline_in(&bytes[searched..]) {
        None => None,
        Some(at) => Some(searched + at),
    }
}

/// The first newline's place.
#[tactic(auto, using(crate::proofs::Finding::first_newline))]
fn newline_in(bytes: &[u8]) -> Option<usize>
    ensures place { result ≡ position is_newline bytes.now }
    ensures within { IfSome result (λ at. at < length bytes.now) }
{
    memchr(b'\n', bytes)
}
