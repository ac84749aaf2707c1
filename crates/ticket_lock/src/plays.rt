//! The kinds of step on the table's words: what each tells the seat that makes it.
ghost use Rattle.std.specs.Prelude.{List, []};
ghost use Rattle.ticket_lock.specs.Steps.{awaited, compared, drew, entered, raised_to, released, saw_floor, saw_serving, saw_ticket, stored_bed};
ghost use Rattle.ticket_lock.specs.Views.{after_issue, gathering, hearing, issued, nobody, report_of, telling};

use crate::chronicle::Chronicle;
use crate::rule::View;
use atomic_table::{Join, Play, Split};
use std::marker::{Brand, PhantomData};

/// A load of the ticket word.
pub struct LoadTicket;

impl<T: Chronicle> Play<Option<T>, View<T::Entry>> for LoadTicket {
    ghost then = { saw_ticket };
}

/// A compare-exchange of the ticket word to the next number.
pub struct DrawTicket;

impl<T: Chronicle> Play<Option<T>, View<T::Entry>> for DrawTicket {
    ghost then = { drew };
}

/// A load of the serving word by a seat without a ticket.
pub struct LoadServing;

impl<T: Chronicle> Play<Option<T>, View<T::Entry>> for LoadServing {
    ghost then = { saw_serving };
}

/// A load of the serving word by a seat with a ticket, which takes the value once it is served.
pub struct AwaitTurn;

impl<T: Chronicle> Play<Option<T>, View<T::Entry>> for AwaitTurn {
    ghost then = { awaited T.stands T.floor_of };
}

/// The entry that a turn ends with, as a list of one. A kind of step is a type, and names no value
/// of the run: the call of `release` says what this list is.
pub trait EndsWith<E> {
    ghost entries: { List E };
}

impl<E> EndsWith<E> for Brand {
    ghost entries = { [] };
}

/// A store of the serving word, which gives the value back.
pub struct EndTurn<J>(PhantomData<J>);

impl<T: Chronicle, J: EndsWith<T::Entry>> Play<Option<T>, View<T::Entry>> for EndTurn<J> {
    ghost then = { released T.seat_of T.floor_of J.entries };
}

/// A load of the serving word by a seat that has heard what another had seen.
pub struct CatchUp;

impl<T: Chronicle> Play<Option<T>, View<T::Entry>> for CatchUp {
    ghost then = { compared T.seat_of };
}

/// A fetch_max of the floor word by the seat that has the turn.
pub struct RaiseFloor;

impl<T: Chronicle> Play<Option<T>, View<T::Entry>> for RaiseFloor {
    ghost then = { raised_to };
}

/// A load of the floor word.
pub struct LoadFloor;

impl<T: Chronicle> Play<Option<T>, View<T::Entry>> for LoadFloor {
    ghost then = { saw_floor };
}

/// A store or a swap of the bed or of the spinner's word.
pub struct MarkBed;

impl<T: Chronicle> Play<Option<T>, View<T::Entry>> for MarkBed {
    ghost then = { stored_bed };
}

/// A new seat at the table, to gather the others.
pub struct EnterGatherer;

impl<T: Chronicle> Play<Option<T>, View<T::Entry>> for EnterGatherer {
    ghost then = { entered };
}

/// Splits off a report of what a seat has seen.
pub struct SplitReport;

impl<E> Split<View<E>> for SplitReport {
    ghost left = { telling };

    ghost right = { report_of };
}

/// Takes in the report of another seat.
pub struct HearReport;

impl<E> Join<View<E>> for HearReport {
    ghost both = { hearing };

    ghost spent = { nobody };
}

/// Takes in a whole seat.
pub struct GatherSeat;

impl<E> Join<View<E>> for GatherSeat {
    ghost both = { gathering };

    ghost spent = { nobody };
}

/// Splits off the next seat of the lock.
pub struct IssueSeat;

impl<E> Split<View<E>> for IssueSeat {
    ghost left = { after_issue };

    ghost right = { issued };
}
