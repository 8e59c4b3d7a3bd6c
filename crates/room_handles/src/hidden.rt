//! The type `Hidden`: a box of a room as a pointer whose type doesn't say what it points to.
ghost use Rattle.std.specs.Prelude.{◌≡◌, Bool, true, false};
ghost use Rattle.room_handles.specs.Hidden.{hidden};

use crate::held::Held;
use crate::rooms::CallRoom;
use std::alloc::Global;
use std::marker::Model;

/// A box of a room as its pointer, or no box. C can hold this struct.
#[repr(C)]
#[derive(Drop)]
pub struct Hidden {
    // The room, if there is one. Otherwise the pointer is null.
    at: *mut u8,
    // This takes no bytes.
    alloc: Global,
    /// Whether there is a box.
    pub ghost full: { Bool },
}

impl Model for Hidden {
    ghost also_owns = { λ h. hidden h.alloc h.at h.full };
}

impl Hidden {
    /// Holds this box.
    pub fn of(room: Box<CallRoom>) -> Hidden
        ensures { result.full ≡ true }
    {
        hide(Held::of(room))
    }

    /// Returns the box.
    pub fn into_box(self) -> Box<CallRoom>
        requires { self.full ≡ true }
    {
        show(self).into_box()
    }

    /// Holds no box.
    pub fn none(alloc: Global) -> Hidden
        ensures { result.full ≡ false }
    {
        hide(Held::none(alloc))
    }
}

/// Forgets what the pointer points to.
fn hide(held: Held<CallRoom, Global>) -> Hidden
    ensures { result.full ≡ held.full }
{
    let Held { at, alloc } = held;
    Hidden {
        at: at as *mut u8,
        alloc,
    }
}

/// Says again what the pointer points to.
fn show(hidden: Hidden) -> Held<CallRoom, Global>
    ensures { result.full ≡ hidden.full }
{
    let Hidden { at, alloc } = hidden;
    Held {
        at: at as *mut CallRoom,
        alloc,
    }
}
