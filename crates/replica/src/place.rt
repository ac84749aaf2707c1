//! Where rows stand among all rows.
ghost use Rattle.std.specs.Prelude.{◌≡◌};
ghost use Rattle.replica.specs.Rows.{is_past, is_over, is_place_of};

use std::cmp::Ordering;
use timestamps::{Key, Row, Ts};

/// A row's place: rows are ordered by timestamp, and then by key.
#[derive(Debug, Drop)]
pub(crate) struct Place {
    pub(crate) ts: Ts,
    pub(crate) key: Key,
}

/// Whether a row comes after a place, where there is one.
pub(crate) fn comes_after(row: &Row, place: &Option<Place>) -> bool
    ensures { result ≡ is_past place.now row.now }
{
    match place {
        None => true,
        Some(place) => {
            place.ts.get() < row.ts.get()
                || (place.ts.get() == row.ts.get() && place.key.cmp(&row.key) == Ordering::Less)
        }
    }
}

/// Whether a timestamp is not below a place, where there is one.
pub(crate) fn reaches(t: u64, place: &Option<Place>) -> bool
    ensures { result ≡ is_over place.now t }
{
    place.as_ref().is_none_or(|place| place.ts.get() <= t)
}

/// Whether a place is there, and of the timestamp.
pub(crate) fn is_of(place: &Option<Place>, t: u64) -> bool
    ensures { result ≡ is_place_of place.now t }
{
    place.as_ref().is_some_and(|place| place.ts.get() == t)
}
