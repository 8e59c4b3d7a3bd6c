//! The type `Held`: a box as its pointer.
ghost use Rattle.std.specs.Prelude.{◌≡◌, Bool, true, false};
ghost use Rattle.room_handles.specs.Held.{held};

use std::alloc::Allocator;
use std::marker::Model;
use std::ptr::null_mut;

/// A box as its pointer, or no box.
#[derive(Drop)]
pub struct Held<T, A: Allocator> {
    pub(crate) at: *mut T,
    pub(crate) alloc: A,
    /// Whether there is a box.
    pub ghost full: { Bool },
}

impl<T, A: Allocator> Model for Held<T, A> {
    ghost also_owns = { λ h. held (A.dealloc_token h.alloc) T.row h.at h.full };
}

impl<T: Drop, A: Allocator> Held<T, A> {
    /// Holds this box.
    pub fn of(value: Box<T, A>) -> Held<T, A>
        ensures { result.full ≡ true }
    {
        let (at, alloc) = Box::into_raw_with_allocator(value);
        Held { at, alloc }
    }

    /// Returns the box.
    pub fn into_box(self) -> Box<T, A>
        requires { self.full ≡ true }
    {
        let Held { at, alloc } = self;
        unsafe { Box::from_raw(alloc, at) }
    }

    /// Holds no box.
    pub fn none(alloc: A) -> Held<T, A>
        ensures { result.full ≡ false }
    {
        Held {
            at: null_mut(),
            alloc,
        }
    }
}
