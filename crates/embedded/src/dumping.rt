//! The dump of the database as it is now, piece by piece. No call is made.
//!
//! ```text
//! 10 wrote a and b, 20 wrote a; nothing is undecided, and nothing is closed
//!
//! place   through   room   text                                                          next
//! 0       99        40     0 begin 10\n0 put 10 a 1\n0 put 10 b 1\n      37 bytes           10 b
//! 10 b    99        20     0 commit 10\n0 begin 20\n0 put 20 a 2\n       36: one at least   20 a
//! 20 a    99        40     0 commit 20\n0 close 20\n0 collect 0\n        35                 none
//! 0       15        99     0 begin 10\n .. 0 commit 10\n                 49                 15
//! ```
ghost use Rattle.std.specs.Prelude.{◌≡◌, ◌++◌, ◌<◌, ◌≤◌, List, [], IfOk, IsSome, OnOk, length};
ghost use Rattle.timestamps.specs.declared.ts.TheConstants.{MAX};
ghost use Rattle.embedded.specs.Prelude.{Event, effects_of, horizon_of, mark_of, row_text};
ghost use Rattle.embedded.specs.Dumping.{IsPiece, IsRestLeft, IsWholeLeft, open_at, place_at_end, place_of, AreTexts, IsEnd, IsNextText, ending, filled};
ghost use Rattle.embedded.specs.Embedded.{StandsFor};

use crate::database::Database;
use dump_lines::{write_close, write_end, write_row};
use std::alloc::AllocError;
use timestamps::{Key, Row};

/// A place in a dump: behind the row of a key at a timestamp, or without a key behind all rows of the timestamp.
/// It begins at 0.
pub struct DumpPlace {
    pub ts: u64,
    pub key: Option<Key>,
}

// for the proof, which has no case for each form of its key where a place is dropped
impl Drop for DumpPlace {
    fn drop(self) {
        let DumpPlace { ts: _, key: _ } = self;
    }
}

/// A piece of a dump.
#[derive(Drop)]
pub struct DumpPiece {
    /// Its lines, of session 0.
    pub text: Vec<u8>,
    /// The place at which the next one begins; none where the dump has ended.
    pub next: Option<DumpPlace>,
}

/// How far a piece may go, and how the dump ends.
#[derive(Clone, Copy)]
struct DumpEnd {
    /// No row above it is written.
    through: u64,
    /// The timestamp at which the dump closes.
    to: u64,
    horizon: u64,
}

/// The place behind what was written, or none where the dump has ended.
type Next = Result<Option<DumpPlace>, AllocError>;

impl Database {
    /// A piece of the dump that rebuilds the database now, which closes at the greatest of `at`, closed and all that began.
    ///
    /// It has the lines of as many rows behind `place`, at or below `through`, as have at most `room` bytes together, but
    /// of one at least. Behind the last of them stands the end of its transaction, and where `through` isn't below where
    /// the dump closes, the end of the dump. Nothing is written where `through` is below the place.
    pub fn dump_piece(
        &self,
        at: u64,
        through: u64,
        place: DumpPlace,
        room: usize,
    ) -> Result<DumpPiece, AllocError>
        requires { at ≤ MAX }
        ensures piece { (h : List Event) → StandsFor self.now h → IfOk result (IsPiece (effects_of h) at through place room) }
        // What is left of the dump is the piece, and then what is left behind it. At first all of the dump is left.
        ensures rest { (h : List Event) → StandsFor self.now h → IfOk result (IsRestLeft (effects_of h) (mark_of (effects_of h) at) place) }
        ensures whole { (h : List Event) → StandsFor self.now h → IsWholeLeft (effects_of h) (mark_of (effects_of h) at) }
    {
        let end = self.dump_end(at, through);
        let mut text = Vec::new(self.alloc);
        if end.through < place.ts {
            return Ok(DumpPiece {
                text,
                next: Some(place),
            });
        }
        let next = self.put_texts(&mut text, end, place, room)?;
        Ok(DumpPiece { text, next })
    }

    /// How a dump ends that closes at or above `at`, and how far a piece through `through` goes.
    fn dump_end(&self, at: u64, through: u64) -> DumpEnd
        ensures { (h : List Event) → StandsFor self.now h → IsEnd (effects_of h) at through result }
    {
        let to = at.max(self.engine.places().reached);
        DumpEnd {
            through: through.min(to),
            to,
            horizon: self.engine.horizon(),
        }
    }

    /// Writes one text behind the place, and as many more as have room. It tells where the next piece begins.
    fn put_texts(&self, text: &mut Vec<u8>, end: DumpEnd, place: DumpPlace, room: usize) -> Next
        requires { text.old.items ≡ [] }
        ensures { (h : List Event) → StandsFor self.now h → end.horizon ≡ horizon_of (effects_of h) → IfOk result (AreTexts (effects_of h) end room place text.new.items) }
    {
        match self.put_next(text, end, &place)? {
            None => Ok(end.place()),
            Some(behind) => self.put_more(text, end, behind, room),
        }
    }

    /// Writes as many texts behind the place as have room, and tells where the next piece begins.
    fn put_more(&self, text: &mut Vec<u8>, end: DumpEnd, mut place: DumpPlace, room: usize) -> Next
        ensures { (h : List Event) → StandsFor self.now h → end.horizon ≡ horizon_of (effects_of h) → IfOk result (λ next. (text.new.items, next) ≡ filled (effects_of h) end room text.old.items place) }
    {
        while text.len() <= room {
            let length_before = text.len();
            let next = self.put_next(text, end, &place)?;
            if text.len() > room {
                text.truncate(length_before);
                return Ok(Some(place));
            }
            match next {
                None => return Ok(end.place()),
                Some(behind) => place = behind,
            }
        }
        Ok(Some(place))
    }

    /// Writes the next text behind a place: the first row's, or where no row is left the last one. It tells the place of
    /// the row.
    fn put_next(&self, text: &mut Vec<u8>, end: DumpEnd, place: &DumpPlace) -> Next
        ensures next { (h : List Event) → StandsFor self.now h → end.horizon ≡ horizon_of (effects_of h) → IfOk result (IsNextText (effects_of h) end place.now text.old.items text.new.items) }
        ensures more { IfOk result (λ next. IsSome next → length text.old.items < length text.new.items) }
    {
        match self
            .engine
            .next_left(self.alloc, place.ts, place.key.as_ref(), end.through)?
        {
            None => {
                end.put(text, place.transaction())?;
                Ok(None)
            }
            Some(row) => {
                let behind = put_row(text, place.transaction(), row)?;
                Ok(Some(behind))
            }
        }
    }
}

impl DumpPlace {
    /// The transaction that is open behind it.
    fn transaction(&self) -> Option<u64>
        ensures { result ≡ open_at self.now }
    {
        self.key.as_ref().map(|_| self.ts)
    }
}

impl DumpEnd {
    /// The place at which the next piece begins, behind all rows of this one; none where the dump has ended.
    fn place(&self) -> Option<DumpPlace>
        ensures { result ≡ place_at_end self.now.to self.now.through }
    {
        (self.through < self.to).then_some(DumpPlace {
            ts: self.through,
            key: None,
        })
    }

    /// Writes what stands behind all rows, where a transaction may be open.
    fn put(&self, text: &mut Vec<u8>, latest: Option<u64>) -> Result<(), AllocError>
        ensures { OnOk result (text.new.items ≡ text.old.items ++ ending self.now latest) }
    {
        write_end(text, latest)?;
        if self.through < self.to {
            return Ok(());
        }
        write_close(text, self.to, self.horizon)
    }
}

/// Writes the text of a row, and tells its place.
fn put_row(text: &mut Vec<u8>, latest: Option<u64>, row: Row) -> Result<DumpPlace, AllocError>
    ensures written { OnOk result (text.new.items ≡ text.old.items ++ row_text latest row) }
    ensures place { IfOk result (λ place. place ≡ place_of row) }
    ensures more { OnOk result (length text.old.items < length text.new.items) }
{
    let ts = row.ts.get();
    let key = row.key.copy()?;
    write_row(text, latest, row)?;
    Ok(DumpPlace { ts, key: Some(key) })
}
