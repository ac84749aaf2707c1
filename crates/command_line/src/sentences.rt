//! What standard error is told.
ghost use Rattle.std.specs.Prelude.{◌≡◌, Some, option_map};
ghost use Rattle.command_line.specs.Sentences.{sentence_of, sentence_of_follower, text_of};

use crate::faults::{words_of_line, words_of_message};
use follow::FollowEnd;
use jobs::End;
use sessions::OpenError;
use std::fmt;

/// The word where a growth of memory was refused.
pub const MEMORY: &str = "memory";

/// The words where the file that a seed is to come from can't be had.
pub const NO_SEED_FILE: &str = "the seed's file can't be read";

/// The words where an argument of the command line is other bytes than text.
pub const NO_TEXT: &str = "an argument is not UTF-8";

const INPUT: &str = "input";

pub(crate) const OUTPUT: &str = "output";

const SPENT: &str = "spent";

const SEATS: &str = "seats";

const RING: &str = "ring";

const THREAD: &str = "thread";

const NO_MESSAGE: &str = "the input has no message to follow";

const NO_EVENT: &str = "events checked: 0, because the input has none";

/// A sentence for standard error.
#[derive(Clone, Copy)]
pub enum Sentence {
    /// A word or more for themselves.
    Words(&'static str),
    /// The fault of a line, counted from 1.
    Line { number: u64, words: &'static str },
    /// The event that can't be right.
    Event { position: u64 },
    /// How many events are right.
    Right { events: u64 },
    /// How many are right, where another number was wanted.
    Count { events: u64, wanted: u64 },
}

impl fmt::Display for Sentence {
    ghost output = { λ sentence. Some (text_of sentence) };

    fn fmt<W: fmt::Write>(&self, f: &mut fmt::Formatter<W>) -> fmt::Result {
        match self {
            Sentence::Words(words) => f.write_str(words),
            Sentence::Line { number, words } => write!(f, "line {number} {words}"),
            Sentence::Event { position } => write!(
                f,
                "the event at position {position} can't be right"
            ),
            Sentence::Right { events } => write!(f, "events checked: {events}"),
            Sentence::Count { events, wanted } => {
                write!(f, "events checked: {events}, and wanted: {wanted}")
            }
        }
    }
}

/// The sentence of a job's end, if it has one.
pub fn sentence_of(end: End) -> Option<Sentence>
    ensures { option_map text_of result ≡ sentence_of end }
{
    let sentence = match end {
        End::Done => return None,
        End::Right { events: 0 } => Sentence::Words(NO_EVENT),
        End::Right { events } => Sentence::Right { events },
        End::Faulty { line, fault } => Sentence::Line {
            number: line,
            words: words_of_line(fault),
        },
        End::No { position } => Sentence::Event { position },
        End::Spent => Sentence::Words(SPENT),
        End::Open(OpenError::SeatCount) => Sentence::Words(SEATS),
        End::Open(OpenError::RingSize) => Sentence::Words(RING),
        End::Open(OpenError::NoMemory) | End::Memory => Sentence::Words(MEMORY),
        End::Input => Sentence::Words(INPUT),
        End::Output => Sentence::Words(OUTPUT),
        End::Thread => Sentence::Words(THREAD),
    };
    Some(sentence)
}

/// The sentence of a follower's end, if it has one.
pub fn sentence_of_follower(end: FollowEnd) -> Option<Sentence>
    ensures { option_map text_of result ≡ sentence_of_follower end }
{
    let sentence = match end {
        FollowEnd::Done => return None,
        FollowEnd::NoMessages => Sentence::Words(NO_MESSAGE),
        FollowEnd::Fault { line, fault } => Sentence::Line {
            number: line,
            words: words_of_message(fault),
        },
        FollowEnd::Spent => Sentence::Words(SPENT),
        FollowEnd::Input => Sentence::Words(INPUT),
        FollowEnd::Output => Sentence::Words(OUTPUT),
        FollowEnd::Memory => Sentence::Words(MEMORY),
    };
    Some(sentence)
}
