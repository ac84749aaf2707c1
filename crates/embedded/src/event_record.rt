//! The last event in numbers, so that whoever made its call by a line needn't read its text.
//!
//! ```text
//! the last event                         position   seat   command      at   kind          number   other
//! (none yet)                             0          0      0            0    0             0        0
//! 0 0 begin 10 => started                0          0      1 begin      10   1 started     0        0
//! 1 0 scan 10 - - => rows 2              1          0      3 scan       10   9 rows        2        0
//! 2 1 openinitial - - 0 => opened 1      2          1      16           0    13 opened     1        0
//! 3 1 collect 9 => collected 5 7         3          1      14 collect   9    12 collected  5        7
//! ```
ghost use Rattle.std.specs.Prelude.{◌≡◌, None};
ghost use Rattle.embedded.specs.Embedded.{last_of};
ghost use Rattle.embedded.specs.Typed.{command_number, first_number, record_of};

use crate::database::Database;
use crate::typed::reply_numbers;
use spans::Cmd;

/// An event in numbers. `embed/ripsawbean.h` names the commands and the kinds.
#[repr(C)]
#[derive(Clone, Copy, Debug)]
pub struct EventRecord {
    /// Its number among the events of the database.
    pub position: u64,
    /// The number that its command names: a timestamp, a protection's or a feed's; of an open its cursor; else 0.
    pub at: u64,
    /// The number that its answer counts or names; 0 where there is nothing.
    pub number: u64,
    /// A closing's aborted transactions, a collection's dropped versions, the undecided transactions that `stats` tells;
    /// else 0.
    pub other: u64,
    /// The seat that gave the command.
    pub seat: u8,
    /// Its command's number, from 1 on; 0 where there is no event.
    pub command: u8,
    /// Its answer's number: from 1 on what was done, from 32 on why it was refused.
    pub kind: u8,
}

impl EventRecord {
    /// The record of no event: all 0.
    pub fn none() -> EventRecord
        ensures { result ≡ record_of None }
    {
        EventRecord {
            position: 0,
            at: 0,
            number: 0,
            other: 0,
            seat: 0,
            command: 0,
            kind: 0,
        }
    }
}

impl Database {
    /// The last event in numbers: all 0 where no call was made.
    pub fn last(&self) -> EventRecord
        ensures { result ≡ record_of (last_of self.now) }
    {
        let Some(event) = &self.last else {
            return EventRecord::none();
        };
        let answer = reply_numbers(&event.reply);
        EventRecord {
            position: event.position,
            at: first_number(&event.cmd),
            number: answer.number,
            other: answer.other,
            seat: event.seat,
            command: command_number(&event.cmd),
            kind: answer.kind,
        }
    }
}

/// The number of a command.
fn command_number(cmd: &Cmd) -> u8
    ensures { result ≡ command_number cmd.now }
{
    match cmd {
        Cmd::Begin { .. } => 1,
        Cmd::Get { .. } => 2,
        Cmd::Scan { .. } => 3,
        Cmd::Put { .. } => 4,
        Cmd::Del { .. } => 5,
        Cmd::Commit { .. } => 6,
        Cmd::Abort { .. } => 7,
        Cmd::Close { .. } => 8,
        Cmd::CloseHard { .. } => 9,
        Cmd::ReadAt { .. } => 10,
        Cmd::ScanAt { .. } => 11,
        Cmd::Protect { .. } => 12,
        Cmd::Release { .. } => 13,
        Cmd::Collect { .. } => 14,
        Cmd::Open { .. } => 15,
        Cmd::OpenInitial { .. } => 16,
        Cmd::OpenEvery { .. } => 17,
        Cmd::OpenInitialEvery { .. } => 18,
        Cmd::Poll { .. } => 19,
        Cmd::Cancel { .. } => 20,
        Cmd::Stats => 21,
    }
}

/// The number that a command names.
fn first_number(cmd: &Cmd) -> u64
    ensures { result ≡ first_number cmd.now }
{
    match cmd {
        Cmd::Begin { ts }
        | Cmd::Get { ts, .. }
        | Cmd::Scan { ts, .. }
        | Cmd::Put { ts, .. }
        | Cmd::Del { ts, .. }
        | Cmd::Commit { ts }
        | Cmd::Abort { ts } => *ts,
        Cmd::Close { to } | Cmd::CloseHard { to } | Cmd::Collect { to } => *to,
        Cmd::ReadAt { t, .. } | Cmd::ScanAt { t, .. } | Cmd::Protect { t } => *t,
        Cmd::Release { id } => *id,
        Cmd::Open { cursor, .. }
        | Cmd::OpenInitial { cursor, .. }
        | Cmd::OpenEvery { cursor, .. }
        | Cmd::OpenInitialEvery { cursor, .. } => *cursor,
        Cmd::Poll { feed, .. } | Cmd::Cancel { feed } => *feed,
        Cmd::Stats => 0,
    }
}
