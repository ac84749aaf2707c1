//! How a lock begins, with all its seats.
ghost use Rattle.std.specs.Prelude.{◌≡◌, ◌≤◌, ◌<◌, ◌+◌, ◌-◌, [], length, IfOk};
ghost use Rattle.ticket_lock.specs.Lists.{span};
ghost use Rattle.ticket_lock.specs.Views.{issuer, IsSamePass};
ghost use Rattle.ticket_lock.specs.Seats.{number, IsNew, AllNew, IsBegun};

use crate::chronicle::Chronicle;
use crate::lock::{Seat, TicketLock};
use crate::plays::IssueSeat;
use crate::rule::{Pass, SERVING, Setup, TICKET, WORDS};
use atomic_table::Table;
use std::alloc::{AllocError, Global};

impl<T: Chronicle> TicketLock<T> {
    fn issue(&self, source: &mut Pass<T, T::Entry>, number: u8) -> Seat<T>
        requires own { source.old.table_id ≡ self.now.board.shared.table_id }
        requires next { (number < self.now.count) × (source.old.me ≡ (issuer self.now.first (span number (self.now.count - number)), [])) }
        ensures issuer { IsSamePass source.old source.new × (source.new.me ≡ (issuer self.now.first (span (number + 1) (self.now.count - (number + 1))), [])) }
        ensures seat { IsNew self.now number result }
    {
        let pass = self.board.shared.split_seat::<IssueSeat>(source);
        Seat { number, pass }
    }

    fn issue_all(
        &self,
        alloc: Global,
        mut source: Pass<T, T::Entry>,
    ) -> Result<Vec<Seat<T>>, AllocError>
        requires { (source.table_id ≡ self.now.board.shared.table_id) × (source.me ≡ (issuer self.now.first (span 0 self.now.count), [])) }
        ensures { IfOk result (λ v. (length v.items ≡ self.now.count) × AllNew self.now v.items) }
    {
        let mut issued = Vec::new(alloc);
        for number in 0..self.count {
            issued.push(self.issue(&mut source, number))?;
        }
        Ok(issued)
    }
}

impl<T: Chronicle + Drop> TicketLock<T> {
    /// A lock over a value that stands for the empty list, whose first ticket is `first`, and as
    /// many seats as asked: 1 to 64, numbered from 0. No other call takes memory.
    pub fn new(
        alloc: Global,
        value: T,
        first: u64,
        seats: usize,
    ) -> Result<(TicketLock<T>, Vec<Seat<T>>), AllocError>
        requires seats { (0 < seats) × (seats ≤ 64) }
        requires value { T.stands value first [] }
        ensures begun { IfOk result (λ r. IsBegun first seats r.0 r.1.items) }
    {
        let mut words = vec![in alloc; 0; WORDS]?;
        words[TICKET] = first;
        words[SERVING] = first;
        let mut slots = Vec::with_capacity(alloc, 1)?;
        slots.push(Some(value))?;
        let count = seats as u8;
        let setup = Setup { first, count };
        let Ok((board, source)) = Table::new(alloc, words.as_slice(), slots, &setup) else {
            return Err(AllocError);
        };
        let lock = TicketLock {
            board,
            first,
            count,
        };
        let issued = lock.issue_all(alloc, source)?;
        Ok((lock, issued))
    }
}

impl<T: Chronicle> Seat<T> {
    /// Its number among the seats of the lock, from 0 to 63.
    pub fn number(&self) -> u8
        ensures is { result ≡ number self.now }
        ensures few { result < 64 }
    {
        self.number
    }
}
