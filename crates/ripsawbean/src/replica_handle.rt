//! What a program holds of its consumer.
ghost use Rattle.std.specs.Prelude.{◌≡◌, Option, Some, None, is_some, option_map};
ghost use Rattle.std.specs.Coded.{coded_option};
ghost use Rattle.ripsawbean.specs.Prelude.{Consumer};
ghost use Rattle.embedded_replica.specs.contracts.consumer.Consumer.{the_row};
ghost use Rattle.ripsawbean.specs.Handles.{flagged};

use crate::loose::Loose;
use embedded_replica::Consumer;
use std::alloc::Global;
use std::marker::Model;
use std::mem::replace;

/// A program's consumer, or none: a handle is closed where it is all zero bytes.
#[repr(C)]
#[derive(Drop)]
pub struct ReplicaHandle {
    at: *mut u8,
    is_open: bool,
    pub ghost consumer: { Option Consumer } by { coded_option the_row.coded },
}

impl Model for ReplicaHandle {
    ghost also_owns = { λ h. flagged the_row h.at h.is_open h.consumer };
}

// A program may hand it to another thread between two calls.
unsafe impl Send for ReplicaHandle {}

impl ReplicaHandle {
    /// Whether it has a consumer.
    pub(crate) fn is_open(&mut self, alloc: Global) -> bool
        ensures { (result ≡ is_some self.old.consumer) × (self.new.consumer ≡ self.old.consumer) }
    {
        let Some(consumer) = self.take(alloc) else {
            return false;
        };
        self.put(consumer);
        true
    }

    /// The consumer, after which the handle is closed.
    pub(crate) fn take(&mut self, alloc: Global) -> Option<Box<Consumer>>
        ensures taken { option_map (λ b. b.value) result ≡ self.old.consumer }
        ensures closed { self.new.consumer ≡ None }
    {
        let (is_open, loose) = replace(self, ReplicaHandle::of(false, Loose::none())).into_parts();
        if is_open {
            Some(loose.into_box(alloc))
        } else {
            // it holds no box, and nothing drops it
            let Loose { at: _ } = loose;
            None
        }
    }

    /// Puts a consumer behind it. It is closed, since what it held would be lost.
    pub(crate) fn put(&mut self, consumer: Box<Consumer>)
        requires { self.old.consumer ≡ None }
        ensures { self.new.consumer ≡ Some consumer.value }
    {
        *self = ReplicaHandle::of(true, Loose::of(consumer));
    }

    /// The handle of a box's pointer, if it is open.
    fn of(is_open: bool, loose: Loose<Consumer>) -> ReplicaHandle
        requires { is_open ≡ is_some loose.value }
        ensures { result.consumer ≡ loose.value }
    {
        let Loose { at } = loose;
        ReplicaHandle {
            at: at as *mut u8,
            is_open,
        }
    }

    /// Whether it is open, and its box's pointer.
    fn into_parts(self) -> (bool, Loose<Consumer>)
        ensures { (result.0 ≡ is_some self.consumer) × (result.1.value ≡ self.consumer) }
    {
        let ReplicaHandle { at, is_open } = self;
        let at = at as *mut Consumer;
        (is_open, Loose { at })
    }
}
