//! Reads of so many keys that no transcript is made of them.
use super::playing::made;
use engine::Engine;
use spans::Reply;
use std::alloc::Global;
use text_format::Format;
use word_lines::commands::read_command;

/// The reads of keys without a version, which a number parts, by one transaction of the first session.
#[derive(Clone, Copy)]
pub(super) struct Crowd {
    pub(super) ts: u64,
    /// The number of the first key.
    pub(super) first: u64,
    /// How many there are.
    pub(super) count: u64,
}

/// No read.
pub(super) const NONE: Crowd = Crowd {
    ts: 0,
    first: 0,
    count: 0,
};

impl Crowd {
    /// Makes the reads. Each has to find none.
    pub(super) fn read(self, alloc: Global, engine: &mut Engine) -> Option<()> {
        for place in 0..self.count {
            read_key(alloc, engine, self.ts, self.first.saturating_add(place))?;
        }
        Some(())
    }
}

fn read_key(alloc: Global, engine: &mut Engine, ts: u64, key: u64) -> Option<()> {
    let line = format!(in alloc; "0 get {ts} k{key}\n").ok()?;
    match read_command(alloc, line.as_bytes(), 1, Format::One) {
        Ok((seat, cmd)) => found_none(&made(engine, seat, &cmd)),
        Err(_) => None,
    }
}

fn found_none(reply: &Option<Reply>) -> Option<()> {
    match reply {
        Some(Reply::Found(None)) => Some(()),
        _ => None,
    }
}
