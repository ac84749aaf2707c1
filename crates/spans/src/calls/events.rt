//! What happened: a command with its answer.
ghost use Rattle.std.specs.Prelude.{◌≡◌};

use crate::calls::commands::Cmd;
use crate::calls::replies::Reply;

/// A command of a seat with its reply, at its place in the one order of all commands.
#[derive(Debug)]
pub struct Event {
    /// Its number among the events of the database.
    pub position: u64,
    /// The seat that gave the command, 0 to 63.
    pub seat: u8,
    pub cmd: Cmd,
    pub reply: Reply,
}

// for the proof, which has no case for each part of it where an event is dropped
impl Drop for Event {
    fn drop(self) {
        let Event {
            position: _,
            seat: _,
            cmd: _,
            reply: _,
        } = self;
    }
}

impl Event {
    /// Its command and its reply.
    pub fn into_parts(self) -> (Cmd, Reply)
        ensures { result ≡ (self.cmd, self.reply) }
    {
        let Event {
            position: _,
            seat: _,
            cmd,
            reply,
        } = self;
        (cmd, reply)
    }
}
