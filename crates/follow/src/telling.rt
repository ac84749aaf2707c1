//! What is told of a feed's rows: how many there are, and the rows or what changed of them. `IsMessageTold` in
//! `specs/Reports.antt` says what is told of each message.
//!
//! ```text
//! message                resolved, changes shown      with `complete` told too
//! a = 1 at 10                                         complete 9 0\n
//! b = 1 at 10
//! resolved 10            resolved 10 2\nrow a 1\nrow b 1\n
//! a deleted at 12                                     complete 11 2\n
//! resolved 20            resolved 20 1\ngone a\n
//! ```
ghost use Rattle.std.specs.Prelude.{◌≡◌, [], OnOk, OnErr};
ghost use Rattle.follow.specs.Prelude.{view_in};
ghost use Rattle.follow.specs.Reports.{named_in, ShowsRows, TellsAt, NamesKey};

use crate::options::Shown;
use crate::texts::{put_changes, put_count, put_rows};
use replica::Replica;
use spans::Message;
use std::alloc::{AllocError, Global};
use std::collections::BTreeSet;
use timestamps::Key;

/// The choice of what is shown, and the keys that changed.
#[derive(Drop)]
pub(crate) struct Telling {
    alloc: Global,
    shown: Shown,
    /// The keys that rows named since rows were told last, where changes are shown.
    changed: BTreeSet<Key>,
}

impl Telling {
    /// Nothing is named.
    pub(crate) fn new(alloc: Global, shown: Shown) -> Telling
        ensures shown { result.shown ≡ shown }
        ensures none { named_in result ≡ [] }
    {
        Telling {
            alloc,
            shown,
            changed: BTreeSet::new(alloc),
        }
    }

    /// Tells by a word at which timestamp the rows are complete, where there is one: how many they are, and what is shown
    /// of them.
    pub(crate) fn tell(
        &mut self,
        report: &mut Vec<u8>,
        word: &[u8],
        at: Option<u64>,
        replica: &Replica,
    ) -> Result<(), AllocError>
        ensures { OnOk result (TellsAt self.old self.new word.now at (view_in replica.now) report.old.items report.new.items) }
    {
        let Some(at) = at else {
            return Ok(());
        };
        put_count(report, word, at, replica.len() as u64)?;
        self.show(report, replica)?;
        self.changed = BTreeSet::new(self.alloc);
        Ok(())
    }

    /// Tells what is shown of the rows.
    fn show(&self, report: &mut Vec<u8>, replica: &Replica) -> Result<(), AllocError>
        ensures { OnOk result (ShowsRows self.now (view_in replica.now) report.old.items report.new.items) }
    {
        match self.shown {
            Shown::Count => Ok(()),
            Shown::Rows => put_rows(report, replica.rows()),
            Shown::Changes => put_changes(report, &self.changed, replica),
        }
    }

    /// Remembers the key of a row whose change is to be told.
    pub(crate) fn note(&mut self, message: &Message) -> Result<(), AllocError>
        ensures named { OnOk result (NamesKey self.old self.new message.now) }
        ensures shown { OnOk result (self.new.shown ≡ self.old.shown) }
    {
        match (message, self.shown) {
            (Message::Row(row), Shown::Changes) => {
                let key = row.key.copy()?;
                self.changed.insert(key)?;
                Ok(())
            }
            _ => Ok(()),
        }
    }
}
