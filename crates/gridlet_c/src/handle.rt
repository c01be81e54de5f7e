//! The handle of a session, as C holds it: a box as its pointer.
ghost use Rattle.std.specs.Prelude.{◌≡◌, ◌≢◌, Option, Some, None};
ghost use Rattle.gridlet_c.specs.declared.live.Live.{Live};
ghost use Rattle.gridlet_c.specs.Owned.{owned, live_coded};

mod parts;

use crate::live::Live;
use parts::Parts;
use std::alloc::Global;
use std::marker::Model;
use std::mem::replace;
use std::ptr::null_mut;

/// Closed, or with a session. C sees a struct of one pointer, which is null where it is closed.
#[repr(C)]
#[derive(Drop)]
pub struct Session {
    at: *mut u8,
    alloc: Global,
    pub ghost live: { Option Live } by { live_coded },
}

impl Model for Session {
    ghost also_owns = { λ s. owned s.alloc s.at s.live };
}

impl Session {
    // There is no session in it.
    fn closed(alloc: Global) -> Session
        ensures { result.live ≡ None }
    {
        Session {
            at: null_mut(),
            alloc,
        }
    }

    fn of_parts(parts: Parts<Live, Global>) -> Session
        ensures { result.live ≡ Some parts.value }
    {
        let Parts { ptr, alloc } = parts;
        Session {
            at: ptr as *mut u8,
            alloc,
        }
    }

    fn into_parts(self) -> Parts<Live, Global>
        requires { self.live ≢ None }
        ensures { Some result.value ≡ self.live }
    {
        let Session { at, alloc } = self;
        Parts {
            ptr: at as *mut Live,
            alloc,
        }
    }

    /// Takes the session out, and leaves the handle closed.
    pub fn take(&mut self, alloc: Global) -> Box<Live>
        requires { self.old.live ≢ None }
        ensures taken { Some result.value ≡ self.old.live }
        ensures closed { self.new.live ≡ None }
    {
        replace(self, Session::closed(alloc))
            .into_parts()
            .into_box()
    }

    /// Puts a session in, where the handle is closed.
    pub fn put(&mut self, live: Box<Live>)
        requires { self.old.live ≡ None }
        ensures { self.new.live ≡ Some live.value }
    {
        *self = Session::of_parts(Parts::of(live));
    }
}
