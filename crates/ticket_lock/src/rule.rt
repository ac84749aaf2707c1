//! The table behind a lock, and what its seats know.

ghost use Rattle.ticket_lock.specs.Rule.{Ordered};
ghost use Rattle.ticket_lock.specs.Views.{opener};

use crate::chronicle::Chronicle;
use atomic_table::{Seat as TableSeat, TableRule};
use std::collections::LinkedList;
use std::marker::PhantomData;

/// The word with the next ticket to be drawn.
pub(crate) const TICKET: usize = 0;

/// The word with the ticket whose turn it is.
pub(crate) const SERVING: usize = 1;

/// The word with the greatest floor that a holder raised it to.
pub(crate) const FLOOR: usize = 2;

/// The bed: the word on which seats sleep. The rule below says nothing of what it contains.
pub(crate) const BED: usize = 3;

/// The word that says whether a seat spins. Nor does it of this one.
pub(crate) const SPINNER: usize = 4;

/// How many words there are.
pub(crate) const WORDS: usize = 5;

/// The bed's word while a seat sleeps there, or is about to, and nobody has been woken since.
pub(crate) const ASLEEP: u64 = 1;

/// The bed's word else.
pub(crate) const AWAKE: u64 = 0;

/// The spinner's word while a seat spins.
pub(crate) const TAKEN: u64 = 1;

/// The spinner's word else.
pub(crate) const FREE: u64 = 0;

/// How often the seat that spins looks for a free turn before it sleeps.
pub(crate) const LOOKS: u64 = 40;

/// How often it does when it was woken.
pub(crate) const LOOKS_WOKEN: u64 = 8;

/// The slot that has the value while nobody has a turn.
pub(crate) const HOME: usize = 0;

/// A seat's memory from turn to turn. No value of it is made.
pub struct SeatRecord<E> {
    /// The number of the lock's first ticket.
    pub first: u64,
    /// Its number among the seats.
    pub number: u8,
    /// The beginning of the history that it has seen.
    pub seen: LinkedList<E>,
    /// The entries of its own turns.
    pub mine: LinkedList<E>,
    /// It found that no ticket is left.
    pub spent: bool,
    /// The greatest floor that it knows.
    pub known: u64,
}

/// A seat's finding in a word. No value of it is made.
pub enum Look {
    /// The ticket that is served.
    Serving(u64),
    /// The next ticket to be drawn.
    Next(u64),
    /// The floor, by a load or by the fetch_max that raised it.
    Floor(u64),
    /// Nothing: what the load found is ignored.
    Ignored,
    /// Nothing: it wrote that it sleeps, spins, or does so no longer.
    Bed,
}

/// A seat's view at the table. No value of it is made.
pub struct View<E> {
    /// It is a seat of the lock. The seat that issues the others, a report of what one has seen and
    /// the seat that gathers all at the end are none.
    pub sits: bool,
    pub kept: SeatRecord<E>,
    /// The memories of the seats that it gathered.
    pub gathered: LinkedList<SeatRecord<E>>,
    /// The numbers of the seats that it has still to issue.
    pub unissued: LinkedList<u8>,
    /// The ticket that it drew, until its turn ends.
    pub ticket: Option<u64>,
    /// It has the turn.
    pub holds: bool,
    /// The history that the value stood for when the turn came.
    pub found: LinkedList<E>,
    /// The greatest floor that it raised the word to in this turn.
    pub raised: u64,
    /// The serving number that it loaded last.
    pub loaded: u64,
    /// Its findings in the words, the newest first. The loads that await its turn and the store that
    /// ends it aren't among them.
    pub looks: LinkedList<Look>,
    /// Another seat's list, until it is compared with what this one has.
    pub heard: LinkedList<E>,
}

/// The table's constants: the first ticket and the number of seats.
#[derive(Drop)]
pub struct Setup {
    pub first: u64,
    pub count: u8,
}

/// The rule of the table.
pub struct TurnOrder<T>(PhantomData<T>);

impl<T: Chronicle> TableRule<Option<T>, View<T::Entry>, Setup> for TurnOrder<T> {
    ghost holds = { Ordered T.stands T.seat_of T.floor_of };

    ghost first = { opener };
}

/// The token by which a seat makes its steps. It has no bytes.
pub type Pass<T, E> = TableSeat<Option<T>, View<E>>;
