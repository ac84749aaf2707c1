//! What a program holds of its database.
ghost use Rattle.std.specs.Prelude.{◌≡◌, Option, Some, None, is_some, option_map};
ghost use Rattle.std.specs.Coded.{coded_option};
ghost use Rattle.ripsawbean.specs.Prelude.{Database};
ghost use Rattle.embedded.specs.contracts.database.Database.{the_row};
ghost use Rattle.ripsawbean.specs.Handles.{flagged};

use crate::loose::Loose;
use embedded::Database;
use std::alloc::Global;
use std::marker::Model;
use std::mem::replace;

/// A program's database, or none: a handle is closed where it is all zero bytes.
#[repr(C)]
#[derive(Drop)]
pub struct Handle {
    at: *mut u8,
    is_open: bool,
    pub ghost database: { Option Database } by { coded_option the_row.coded },
}

impl Model for Handle {
    ghost also_owns = { λ h. flagged the_row h.at h.is_open h.database };
}

// A program may hand it to another thread between two calls.
unsafe impl Send for Handle {}

impl Handle {
    /// Whether it has a database.
    pub(crate) fn is_open(&mut self, alloc: Global) -> bool
        ensures { (result ≡ is_some self.old.database) × (self.new.database ≡ self.old.database) }
    {
        let Some(database) = self.take(alloc) else {
            return false;
        };
        self.put(database);
        true
    }

    /// The database, after which the handle is closed.
    pub(crate) fn take(&mut self, alloc: Global) -> Option<Box<Database>>
        ensures taken { option_map (λ b. b.value) result ≡ self.old.database }
        ensures closed { self.new.database ≡ None }
    {
        let (is_open, loose) = replace(self, Handle::of(false, Loose::none())).into_parts();
        if is_open {
            Some(loose.into_box(alloc))
        } else {
            // it holds no box, and nothing drops it
            let Loose { at: _ } = loose;
            None
        }
    }

    /// Puts a database behind it. It is closed, since what it held would be lost.
    pub(crate) fn put(&mut self, database: Box<Database>)
        requires { self.old.database ≡ None }
        ensures { self.new.database ≡ Some database.value }
    {
        *self = Handle::of(true, Loose::of(database));
    }

    /// The handle of a box's pointer, if it is open.
    fn of(is_open: bool, loose: Loose<Database>) -> Handle
        requires { is_open ≡ is_some loose.value }
        ensures { result.database ≡ loose.value }
    {
        let Loose { at } = loose;
        Handle {
            at: at as *mut u8,
            is_open,
        }
    }

    /// Whether it is open, and its box's pointer.
    fn into_parts(self) -> (bool, Loose<Database>)
        ensures { (result.0 ≡ is_some self.database) × (result.1.value ≡ self.database) }
    {
        let Handle { at, is_open } = self;
        let at = at as *mut Database;
        (is_open, Loose { at })
    }
}
