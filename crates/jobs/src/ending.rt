//! How a job of the program ends.
ghost use Rattle.std.specs.Prelude.{◌≡◌};
ghost use Rattle.jobs.specs.Ends.{end_of_run};
ghost use Rattle.jobs.specs.Verdicts.{is_right};

use sessions::{OpenError, ServeEnd};
use word_lines::fault::LineFault;

/// Why the program came to its end.
#[derive(Clone, Copy, Debug, PartialEq, Eq)]
pub enum End {
    /// All of the input was taken, and all of the output written.
    Done,
    /// What was checked is right: a transcript of so many events.
    Right { events: u64 },
    /// A line of a script or of a transcript is faulty. The output says so too, as its last line.
    Faulty { line: u64, fault: LineFault },
    /// The list that was checked is not right. The output says at which event.
    No { position: u64 },
    /// No position is left for another call. The output says at which line, as its last line.
    Spent,
    /// The database was not opened. Nothing was written.
    Open(OpenError),
    /// The input could not be read to its end.
    Input,
    /// The output could not be written.
    Output,
    /// A growth of memory was refused.
    Memory,
    /// A thread could not be started. Nothing was written.
    Thread,
}

impl End {
    /// Whether it is that of a check that found all right.
    pub(crate) fn is_right(&self) -> bool
        ensures { result ≡ is_right self.now }
    {
        matches!(self, End::Right { .. })
    }
}

impl From<ServeEnd> for End {
    ghost from_gives = { λ end e. e ≡ end_of_run end };

    fn from(end: ServeEnd) -> End {
        match end {
            ServeEnd::Done => End::Done,
            ServeEnd::Fault { line, fault } => End::Faulty { line, fault },
            ServeEnd::Spent { .. } => End::Spent,
            ServeEnd::Open(refused) => End::Open(refused),
            ServeEnd::Input => End::Input,
            ServeEnd::Output => End::Output,
            ServeEnd::Memory => End::Memory,
        }
    }
}
