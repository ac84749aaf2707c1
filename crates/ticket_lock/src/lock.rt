//! The types: the lock, a seat, the value that a seat holds for one turn, and how calls end.
ghost use Rattle.std.specs.Prelude.{◌≡◌, ◌≤◌, ◌<◌, ◌^◌, ◌+◌, ◌-◌};
ghost use Rattle.ticket_lock.specs.Views.{setup, IsProper};

use crate::chronicle::Chronicle;
use crate::rule::{Setup, TurnOrder, View};
use atomic_table::{Seat as TableSeat, Table};
use std::alloc::Global;

/// A value that one seat at a time has, in the order of tickets. Threads share it by reference.
#[derive(Drop)]
pub struct TicketLock<T: Chronicle> {
    pub(crate) board: Table<Option<T>, View<T::Entry>, Setup, TurnOrder<T>, Global>,
    pub(crate) first: u64,
    pub(crate) count: u8,
    pub(crate) ghost sized: { (board.shared.table_id.words ≡ 5) × (board.shared.table_id.slots ≡ 1) },
    pub(crate) ghost few: { (0 < count) × (count ≤ 64) },
    pub(crate) ghost keyed: { board.shared.key ≡ setup first count },
}

/// One caller of a lock. At run time it is its number alone.
#[derive(Drop)]
pub struct Seat<T: Chronicle> {
    pub(crate) number: u8,
    pub(crate) pass: TableSeat<Option<T>, View<T::Entry>>,
    pub(crate) ghost proper: { IsProper T.seat_of number pass.me },
}

/// The value of a lock, for one turn. It is no `Drop`: `TicketLock::end` has to take it back.
pub struct Held<T> {
    pub value: T,
    pub(crate) ticket: u64,
    pub(crate) ghost room: { ticket < 2 ^ 64 - 1 },
}

/// No ticket is left: the next one would be 18446744073709551615.
#[derive(Drop)]
pub struct Spent;

/// Why `TicketLock::try_turn` gave no turn.
#[derive(Drop)]
pub enum Denied {
    /// The ticket `served` had its turn, and the tickets from there up to `next` were drawn. Both were
    /// loaded in this call, `next` after `served`.
    Busy { served: u64, next: u64 },
    /// No ticket is left.
    Spent,
}

/// `TicketLock::finish` was not given all seats. The lock and those that it was given come back.
#[derive(Drop)]
pub struct SeatsMissing<T: Chronicle> {
    pub lock: TicketLock<T>,
    pub seats: Vec<Seat<T>>,
}
