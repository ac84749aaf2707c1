//! How a follower ends.
ghost use Rattle.std.specs.Prelude.{◌≡◌};
ghost use Rattle.follow.specs.Steps.{end_by, end_unfound};

use crate::fault::{FollowError, FollowFault};
use sessions::ServeEnd;

/// Why following came to its end.
#[derive(Clone, Copy, Debug, PartialEq, Eq)]
pub enum FollowEnd {
    /// All of the input was taken, with at least one message, and all of the output written.
    Done,
    /// All of the input was taken, and none of it was a message to take.
    NoMessages,
    /// A line can't be followed. The output says so too, as its last line.
    Fault { line: u64, fault: FollowFault },
    /// No further line can be counted. The output says at which line, as its last line.
    Spent,
    /// The input could not be read to its end.
    Input,
    /// The output could not be written.
    Output,
    /// A growth of memory was refused.
    Memory,
}

/// How it ends at the line of this number, which wasn't taken.
pub(crate) fn end_by(line: u64, error: FollowError) -> FollowEnd
    ensures { result ≡ end_by line error }
{
    match error {
        FollowError::Fault(fault) => FollowEnd::Fault { line, fault },
        FollowError::NoMemory => FollowEnd::Memory,
    }
}

/// How it ends where the next line isn't found: a read failed, or else a write.
pub(crate) fn unfound(end: ServeEnd) -> FollowEnd
    ensures { result ≡ end_unfound end }
{
    match end {
        ServeEnd::Input => FollowEnd::Input,
        _ => FollowEnd::Output,
    }
}
