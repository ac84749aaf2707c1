//! A box as its pointer.

ghost use Rattle.std.specs.Prelude.{◌≡◌, Option, Some, None, true, is_some};
ghost use Rattle.std.specs.Coded.{coded_option};
ghost use Rattle.ripsawbean.specs.Handles.{keeps};

use std::alloc::Global;
use std::marker::Model;
use std::ptr::null_mut;

/// A box of the program's heap as its bare pointer, which C can hold, or none. Nothing drops it, so no box is lost.
pub(crate) struct Loose<T> {
    pub(crate) at: *mut T,
    pub(crate) ghost value: { Option T } by { coded_option T.code },
}

impl<T> Model for Loose<T> {
    ghost also_owns = { λ l. keeps T.row l.at l.value };
}

impl<T: Drop> Loose<T> {
    pub(crate) fn none() -> Loose<T>
        ensures { result.value ≡ None }
    {
        Loose { at: null_mut() }
    }

    pub(crate) fn of(value: Box<T>) -> Loose<T>
        ensures { result.value ≡ Some value.value }
    {
        Loose {
            at: Box::into_raw(value),
        }
    }

    pub(crate) fn into_box(self, alloc: Global) -> Box<T>
        requires { is_some self.value ≡ true }
        ensures { Some result.value ≡ self.value }
    {
        let Loose { at } = self;
        unsafe { Box::from_raw(alloc, at) }
    }
}
