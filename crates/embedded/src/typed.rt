//! Calls whose command is given in parts, and answers in numbers and bytes: the same events as by lines, without a text.
//!
//! ```text
//!                                           answer            bytes
//! make 0 Put { 10, "a", "1" }               4                 none
//! make 0 Get { 10, "a" }                    3, 1              1
//! make 0 Poll { feed 1, max 2 }             8, 2              two messages: a head of 17 bytes, and a row's key and value
//! make 0 Scan { 10, from "a" below "c" }    9, 1              a row as such a message, and one that ends at "c"
//! write, copy_text                                            the event's text, as a line's call shows it
//! ```
ghost use Rattle.std.specs.Prelude.{◌≡◌, ◌<◌, ◌==◌, List, false, length, OnOk, IfOk, OnErr};
ghost use Rattle.embedded.specs.Prelude.{Copied, Event};
ghost use Rattle.embedded.specs.Embedded.{StandsFor, HasKept, last_of};
ghost use Rattle.embedded.specs.Typed.{MadeBy, HasBulk, IsBulk, is_read, numbers, refusal_numbers, reply_numbers, answer_of, reply_bytes, bytes_of};

use crate::database::Database;
use crate::message_bytes::{put_messages, put_scan};
use json_lines::buffer::copy_front;
use spans::{Cmd, Event, Refusal, Reply};
use std::alloc::{AllocError, Global};

/// No position is left: the next one would be 18446744073709551615. No call was made.
#[derive(Clone, Copy, Debug)]
pub struct NoPosition;

/// An event's answer, in numbers. `embed/ripsawbean.h` names the kinds.
#[repr(C)]
#[derive(Clone, Copy, Debug)]
pub struct Answer {
    /// The answer's number: from 1 on what was done, from 32 on why it was refused, 0 where no call was made.
    pub kind: u8,
    /// The number that it counts, or the timestamp that it names; 0 where there is none.
    pub number: u64,
    /// A closing's aborted transactions, else 0.
    pub other: u64,
}

impl Answer {
    fn new(kind: u8, number: u64, other: u64) -> Answer
        ensures { result ≡ numbers kind number other }
    {
        Answer {
            kind,
            number,
            other,
        }
    }
}

impl Database {
    /// Makes the call of a seat's command, 0 to 63. The event's text is written when it is asked for. After `NoPosition`
    /// all is as it was, the last text too.
    pub fn make(&mut self, seat: u8, cmd: Cmd) -> Result<(), NoPosition>
        requires seat { seat < 64 }
        ensures made { (h : List Event) → StandsFor self.old h → MadeBy h seat cmd self.old result self.new }
        ensures kept { OnOk result (HasKept seat cmd self.new) }
        ensures same { OnErr result (self.new ≡ self.old) }
        // So the bytes of a read's answer take no memory.
        ensures reads { OnOk result (HasBulk (last_of self.new) → is_read cmd ≡ false) }
    {
        let position = self.engine.steps();
        if position == u64::MAX {
            return Err(NoPosition);
        }
        let reply = self.engine.step(seat, &cmd);
        self.last = Some(Event {
            position,
            seat,
            cmd,
            reply,
        });
        self.text.clear();
        Ok(())
    }

    /// Whether no position is left: the next one would be 18446744073709551615.
    pub fn is_spent(&self) -> bool
        ensures { (h : List Event) → StandsFor self.now h → result ≡ (length h == 18446744073709551615) }
    {
        self.engine.steps() == u64::MAX
    }

    /// The last event's answer in numbers: all 0 where no call was made.
    pub fn answer(&self) -> Answer
        ensures { result ≡ answer_of (last_of self.now) }
    {
        match &self.last {
            None => Answer::new(0, 0, 0),
            Some(event) => reply_numbers(&event.reply),
        }
    }

    /// Copies the bytes of the last event's answer as far as there is room, and tells their whole length: a value,
    /// messages, or rows and the end of their scan. Of another answer there are none. Messages and rows take memory, and
    /// where there is none nothing is copied.
    pub fn copy_bytes(&self, out: &mut [u8]) -> Result<usize, AllocError>
        ensures ok { IfOk result (λ length. Copied (bytes_of (last_of self.now)) out.old out.new length) }
        ensures err { OnErr result (out.new ≡ out.old) }
        ensures memory { OnErr result (HasBulk (last_of self.now)) }
    {
        match &self.last {
            None => Ok(copy_front(b"", out)),
            Some(event) => copy_reply(self.alloc, &event.cmd, &event.reply, out),
        }
    }
}

/// A reply in numbers.
pub(crate) fn reply_numbers(reply: &Reply) -> Answer
    ensures { result ≡ reply_numbers reply.now }
{
    match reply {
        Reply::Started => Answer::new(1, 0, 0),
        Reply::Found(None) => Answer::new(2, 0, 0),
        Reply::Found(Some(value)) => Answer::new(3, value.bytes().len() as u64, 0),
        Reply::Written => Answer::new(4, 0, 0),
        Reply::Committed { keys } => Answer::new(5, *keys, 0),
        Reply::Aborted => Answer::new(6, 0, 0),
        Reply::Closed { at, aborted } => Answer::new(7, *at, *aborted),
        Reply::Messages(messages) => Answer::new(8, messages.as_slice().len() as u64, 0),
        Reply::Rows(rows) => Answer::new(9, rows.as_slice().len() as u64, 0),
        Reply::Protected { id } => Answer::new(10, *id, 0),
        Reply::Released => Answer::new(11, 0, 0),
        Reply::Collected { horizon, removed } => Answer::new(12, *horizon, *removed),
        Reply::Opened { feed } => Answer::new(13, *feed, 0),
        Reply::Cancelled => Answer::new(14, 0, 0),
        Reply::Stats {
            versions,
            undecided,
            ..
        } => Answer::new(15, *versions, *undecided),
        Reply::Refused(refusal) => refusal_numbers(*refusal),
    }
}

fn refusal_numbers(refusal: Refusal) -> Answer
    ensures { result ≡ refusal_numbers refusal }
{
    match refusal {
        Refusal::BelowClosed { closed } => Answer::new(32, closed, 0),
        Refusal::TsUsed => Answer::new(33, 0, 0),
        Refusal::TsRange => Answer::new(34, 0, 0),
        Refusal::Blocked { by } => Answer::new(35, by, 0),
        Refusal::NoTxn => Answer::new(36, 0, 0),
        Refusal::NotOwner => Answer::new(37, 0, 0),
        Refusal::Ended => Answer::new(38, 0, 0),
        Refusal::TooLate => Answer::new(39, 0, 0),
        Refusal::NotClosed { closed } => Answer::new(40, closed, 0),
        Refusal::BelowHorizon { horizon } => Answer::new(41, horizon, 0),
        Refusal::NoProtection => Answer::new(42, 0, 0),
        Refusal::NoFeed => Answer::new(43, 0, 0),
        Refusal::FeedCancelled => Answer::new(44, 0, 0),
        Refusal::NoMemory => Answer::new(45, 0, 0),
        Refusal::GapRange => Answer::new(46, 0, 0),
    }
}

/// Copies the bytes of a reply, as [`Database::copy_bytes`] does.
fn copy_reply(alloc: Global, cmd: &Cmd, reply: &Reply, out: &mut [u8]) -> Result<usize, AllocError>
    ensures ok { IfOk result (λ length. Copied (reply_bytes cmd.now reply.now) out.old out.new length) }
    ensures err { OnErr result (out.new ≡ out.old) }
    ensures memory { OnErr result (IsBulk cmd.now reply.now) }
{
    match reply {
        Reply::Found(Some(value)) => Ok(copy_front(value.bytes(), out)),
        Reply::Messages(messages) => {
            let mut bytes = Vec::new(alloc);
            put_messages(&mut bytes, messages.as_slice())?;
            Ok(copy_front(bytes.as_slice(), out))
        }
        Reply::Rows(rows) => {
            let mut bytes = Vec::new(alloc);
            put_scan(&mut bytes, cmd, rows.as_slice())?;
            Ok(copy_front(bytes.as_slice(), out))
        }
        _ => Ok(copy_front(b"", out)),
    }
}
