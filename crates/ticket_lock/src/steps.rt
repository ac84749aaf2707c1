//! The single steps of a turn: a ticket is drawn once it is served, the value is taken and released, and a seat that
//! sleeps is woken.
ghost use Rattle.std.specs.Prelude.{◌≡◌, ◌≤◌, ◌<◌, ◌+◌, ◌-◌, ◌^◌, ◌++◌, [], ◌∷◌, true, false, Some, None, IfSome, IfNone, IfOk, IfErr};
ghost use Rattle.ticket_lock.specs.Lists.{of_seat};
ghost use Rattle.ticket_lock.specs.Views.{looking, ended, IsSamePass};
ghost use Rattle.ticket_lock.specs.declared.rule.Look.TheVariants.{Serving, Next};
ghost use Rattle.ticket_lock.specs.Seats.{HasMetSpent};
ghost use Rattle.ticket_lock.specs.Steps.{DeniedAt, DrawsServed, FindsSpent, PutOffAt, HasDrawn, Took};

use crate::chronicle::Chronicle;
use crate::lock::{Denied, TicketLock};
use crate::plays::{AwaitTurn, DrawTicket, EndTurn, EndsWith, LoadServing, LoadTicket, MarkBed};
use crate::rule::{
    ASLEEP, AWAKE, BED, FREE, HOME, LOOKS, LOOKS_WOKEN, Pass, SERVING, SPINNER, TAKEN, TICKET,
};
use crossbeam_utils::Backoff;
use std::sync::Wait;

impl<T: Chronicle> TicketLock<T> {
    // Draws a ticket if it is served at once.
    pub(crate) fn try_draw(&self, pass: &mut Pass<T, T::Entry>) -> Result<u64, Denied>
        requires own { pass.old.table_id ≡ self.now.board.shared.table_id }
        requires free { (pass.old.me.0.sits ≡ true) × (pass.old.me.0.ticket ≡ None) }
        ensures same { IsSamePass pass.old pass.new }
        ensures ok { IfOk result (DrawsServed pass.old.me pass.new.me) }
        ensures looked { IfOk result (λ t. pass.new.me.0.looks ≡ Next t ∷ Next t ∷ Serving t ∷ pass.old.me.0.looks) }
        ensures err { IfErr result (λ d. DeniedAt pass.old.me d pass.new.me) }
        ensures spent { IfErr result (λ d. HasMetSpent pass.old.me.0.looks d pass.new.me.0.looks) }
    {
        let shared = &self.board.shared;
        let served = shared.load::<LoadServing>(pass, SERVING);
        let next = shared.load::<LoadTicket>(pass, TICKET);
        if next == u64::MAX {
            return Err(Denied::Spent);
        }
        if served < next {
            return Err(Denied::Busy { served, next });
        }
        let next = shared.compare_exchange::<DrawTicket>(pass, TICKET, served, served + 1);
        if next != served {
            return Err(Denied::Busy { served, next });
        }
        Ok(served)
    }

    // Looks for a free turn a number of times, with longer and longer pauses in between.
    fn look_often(&self, pass: &mut Pass<T, T::Entry>, looks: u64) -> Result<u64, Denied>
        requires own { pass.old.table_id ≡ self.now.board.shared.table_id }
        requires free { (pass.old.me.0.sits ≡ true) × (pass.old.me.0.ticket ≡ None) }
        ensures same { IsSamePass pass.old pass.new }
        ensures ok { IfOk result (DrawsServed pass.old.me pass.new.me) }
        ensures err { IfErr result (λ d. PutOffAt pass.old.me d pass.new.me) }
    {
        let backoff = Backoff::new();
        for _ in 1..looks {
            match self.try_draw(pass) {
                Err(Denied::Busy { .. }) => backoff.spin(),
                settled => return settled,
            }
        }
        self.try_draw(pass)
    }

    // Looks for a free turn, and looks often where no other seat does: one that spins takes little from
    // the seat that has the turn, and many take much.
    fn look(&self, pass: &mut Pass<T, T::Entry>, woken: bool) -> Result<u64, Denied>
        requires own { pass.old.table_id ≡ self.now.board.shared.table_id }
        requires free { (pass.old.me.0.sits ≡ true) × (pass.old.me.0.ticket ≡ None) }
        ensures same { IsSamePass pass.old pass.new }
        ensures ok { IfOk result (DrawsServed pass.old.me pass.new.me) }
        ensures err { IfErr result (λ d. PutOffAt pass.old.me d pass.new.me) }
    {
        let drawn = self.try_draw(pass);
        let Err(Denied::Busy { .. }) = drawn else {
            return drawn;
        };
        if !self.starts_to_spin(pass) {
            return drawn;
        }
        let looks = if woken { LOOKS_WOKEN } else { LOOKS };
        let drawn = self.look_often(pass, looks);
        self.mark(pass, SPINNER, FREE);
        drawn
    }

    // The same by a seat that may have been woken. Its mark was taken away then, while others may sleep
    // still: so it marks the bed again once it has a ticket.
    fn look_again(&self, pass: &mut Pass<T, T::Entry>, woken: bool) -> Result<u64, Denied>
        requires own { pass.old.table_id ≡ self.now.board.shared.table_id }
        requires free { (pass.old.me.0.sits ≡ true) × (pass.old.me.0.ticket ≡ None) }
        ensures same { IsSamePass pass.old pass.new }
        ensures ok { IfOk result (DrawsServed pass.old.me pass.new.me) }
        ensures err { IfErr result (λ d. PutOffAt pass.old.me d pass.new.me) }
    {
        let drawn = self.look(pass, woken);
        if woken && drawn.is_ok() {
            self.mark(pass, BED, ASLEEP);
        }
        drawn
    }

    // Marks the bed where no turn is free, and looks once more, so that whoever ends a turn meanwhile
    // either was seen or sees the mark. Then it sleeps until it is woken.
    fn draw_or_sleep<R: Wait>(
        &self,
        rt: &R,
        pass: &mut Pass<T, T::Entry>,
        woken: bool,
    ) -> Result<u64, Denied>
        requires own { pass.old.table_id ≡ self.now.board.shared.table_id }
        requires free { (pass.old.me.0.sits ≡ true) × (pass.old.me.0.ticket ≡ None) }
        ensures same { IsSamePass pass.old pass.new }
        ensures ok { IfOk result (DrawsServed pass.old.me pass.new.me) }
        ensures err { IfErr result (λ d. PutOffAt pass.old.me d pass.new.me) }
    {
        let drawn = self.look_again(pass, woken);
        let Err(Denied::Busy { .. }) = drawn else {
            return drawn;
        };
        self.mark(pass, BED, ASLEEP);
        let drawn = self.try_draw(pass);
        if let Err(Denied::Busy { .. }) = drawn {
            self.board.shared.park(rt, BED, ASLEEP as u32);
        }
        drawn
    }

    // Draws a ticket once it is served at once, unless none is left. Until then it has none, so that no
    // turn belongs to a thread that isn't running.
    pub(crate) fn draw_served<R: Wait>(&self, rt: &R, pass: &mut Pass<T, T::Entry>) -> Option<u64>
        requires own { pass.old.table_id ≡ self.now.board.shared.table_id }
        requires free { (pass.old.me.0.sits ≡ true) × (pass.old.me.0.ticket ≡ None) }
        ensures same { IsSamePass pass.old pass.new }
        ensures some { IfSome result (DrawsServed pass.old.me pass.new.me) }
        ensures none { IfNone result (FindsSpent pass.old.me pass.new.me) }
    {
        let mut woken = false;
        for _ in rt.forever() {
            match self.draw_or_sleep(rt, pass, woken) {
                Ok(ticket) => return Some(ticket),
                Err(Denied::Spent) => {
                    self.wake_all(pass);
                    return None;
                }
                Err(Denied::Busy { .. }) => woken = true,
            }
        }
        unreachable!()
    }

    // Takes the value, where the ticket was drawn at its turn.
    pub(crate) fn take_value(&self, pass: &mut Pass<T, T::Entry>, ticket: u64) -> T
        requires own { pass.old.table_id ≡ self.now.board.shared.table_id }
        requires drew { HasDrawn ticket pass.old.me }
        requires served { pass.old.me.0.loaded ≡ ticket }
        ensures same { IsSamePass pass.old pass.new }
        ensures takes { Took T.stands T.floor_of pass.old.me.0 ticket result pass.new.me }
    {
        let _ = ticket;
        self.board.shared.load::<AwaitTurn>(pass, SERVING);
        self.board.shared.exchange(pass, HOME, None).unwrap()
    }

    // Gives the value back, and the turn to the next ticket.
    pub(crate) fn release<J: EndsWith<T::Entry>>(
        &self,
        pass: &mut Pass<T, T::Entry>,
        value: T,
        ticket: u64,
        entry: &T::Entry,
    )
        requires own { pass.old.table_id ≡ self.now.board.shared.table_id }
        requires seat { (pass.old.me.0.sits ≡ true) × (pass.old.me.0.gathered ≡ []) × (pass.old.me.0.unissued ≡ []) }
        requires turn { (pass.old.me.0.holds ≡ true) × (pass.old.me.0.ticket ≡ Some ticket) × (pass.old.me.1 ≡ (0, None) ∷ []) × (ticket < 2 ^ 64 - 1) }
        requires said { J.entries ≡ entry.now ∷ [] }
        requires names { T.seat_of entry.now ≡ pass.old.me.0.kept.number }
        requires stands { T.stands value pass.old.me.0.kept.first (pass.old.me.0.found ++ entry.now ∷ []) }
        requires high { pass.old.me.0.raised ≤ T.floor_of value }
        ensures same { IsSamePass pass.old pass.new }
        ensures ended { pass.new.me ≡ (looking (ended pass.old.me.0 (entry.now ∷ [])) pass.new.me.0.looks, []) }
        ensures high { pass.old.me.0.kept.known ≤ T.floor_of value }
        ensures own_before { pass.old.me.0.kept.mine ≡ of_seat T.seat_of pass.old.me.0.kept.number pass.old.me.0.found }
    {
        let _ = entry;
        let shared = &self.board.shared;
        let empty = shared.exchange(pass, HOME, Some(value));
        let None = empty else { unreachable!() };
        shared.store::<EndTurn<J>>(pass, SERVING, ticket + 1);
        self.wake(pass);
    }

    // Wakes a seat that sleeps, if one does and none spins: that one has the next turn, or marks the bed
    // and looks. Where a seat marked it too late to be seen here, it will find that the turn is over.
    fn wake(&self, pass: &mut Pass<T, T::Entry>)
        requires own { pass.old.table_id ≡ self.now.board.shared.table_id }
        ensures same { IsSamePass pass.old pass.new × (pass.new.me ≡ (looking pass.old.me.0 pass.new.me.0.looks, pass.old.me.1)) }
    {
        let shared = &self.board.shared;
        if shared.peek(BED) == ASLEEP && shared.peek(SPINNER) == FREE {
            self.mark(pass, BED, AWAKE);
            shared.wake_one(BED);
        }
    }

    // Wakes all seats that sleep, since no turn will end any more.
    fn wake_all(&self, pass: &mut Pass<T, T::Entry>)
        requires own { pass.old.table_id ≡ self.now.board.shared.table_id }
        ensures same { IsSamePass pass.old pass.new × (pass.new.me ≡ (looking pass.old.me.0 pass.new.me.0.looks, pass.old.me.1)) }
    {
        self.mark(pass, BED, AWAKE);
        self.board.shared.wake_all(BED);
    }

    // Writes the bed or the spinner's word.
    fn mark(&self, pass: &mut Pass<T, T::Entry>, word: usize, state: u64)
        requires own { pass.old.table_id ≡ self.now.board.shared.table_id }
        requires word { (3 ≤ word) × (word < 5) }
        ensures same { IsSamePass pass.old pass.new × (pass.new.me ≡ (looking pass.old.me.0 pass.new.me.0.looks, pass.old.me.1)) }
    {
        self.board.shared.store::<MarkBed>(pass, word, state);
    }

    // Takes the spinner's word, unless another seat has it.
    fn starts_to_spin(&self, pass: &mut Pass<T, T::Entry>) -> bool
        requires own { pass.old.table_id ≡ self.now.board.shared.table_id }
        ensures same { IsSamePass pass.old pass.new × (pass.new.me ≡ (looking pass.old.me.0 pass.new.me.0.looks, pass.old.me.1)) }
    {
        let shared = &self.board.shared;
        if shared.peek(SPINNER) != FREE {
            return false;
        }
        shared.swap::<MarkBed>(pass, SPINNER, TAKEN) == FREE
    }
}
