//! What an operator may ask of a database, without a call: its state as text, and how far it has come.
ghost use Rattle.std.specs.Prelude.{List, IfOk, ◌≡◌};
ghost use Rattle.embedded.specs.Prelude.{ArePlaces, Event, effects_of, feed_floor};
ghost use Rattle.embedded.specs.Embedded.{StandsFor};
ghost use Rattle.embedded.specs.Looks.{IsStateText};

use crate::database::Database;
use engine::Places;
use report_lines::write_report;
use std::alloc::AllocError;

impl Database {
    /// The text of its report now.
    pub fn state(&self) -> Result<Vec<u8>, AllocError>
        ensures { (h : List Event) → StandsFor self.now h → IfOk result (λ text. IsStateText h text.items) }
    {
        let report = self.engine.report()?;
        let mut text = Vec::new(self.alloc);
        write_report(&report, &mut text)?;
        Ok(text)
    }

    /// How far it has come. It takes no memory.
    pub fn places(&self) -> Places
        ensures { (h : List Event) → StandsFor self.now h → ArePlaces (effects_of h) result }
    {
        self.engine.places()
    }

    /// The floor of a feed, if it lives. It takes no memory.
    pub fn floor(&self, feed: u64) -> Option<u64>
        ensures { (h : List Event) → StandsFor self.now h → result ≡ feed_floor (effects_of h) feed }
    {
        self.engine.floor(feed)
    }
}
