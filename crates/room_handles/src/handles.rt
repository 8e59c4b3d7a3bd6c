//! The type `RoomHandle`, by which C holds a room.
ghost use Rattle.std.specs.Prelude.{◌≡◌, true, false, is_some};

use crate::hidden::Hidden;
use crate::rooms::CallRoom;
use std::alloc::Global;
use std::mem::replace;

/// A room or none, in a struct that C can hold. C makes it closed, and changes it only by calls.
#[repr(C)]
pub struct RoomHandle {
    /// Whether there is a room.
    pub is_open: bool,
    // The room, if there is one.
    room: Hidden,
    /// There is a room exactly if the handle is open.
    ghost agrees: { room.full ≡ is_open },
}

impl RoomHandle {
    /// Returns a handle without a room.
    fn closed(alloc: Global) -> RoomHandle
        ensures { result.is_open ≡ false }
    {
        RoomHandle {
            is_open: false,
            room: Hidden::none(alloc),
        }
    }

    /// Returns a handle with this room.
    fn of(room: Box<CallRoom>) -> RoomHandle
        ensures { result.is_open ≡ true }
    {
        RoomHandle {
            is_open: true,
            room: Hidden::of(room),
        }
    }

    /// Returns the room, if there is one.
    fn into_room(self) -> Option<Box<CallRoom>>
        ensures { is_some result ≡ self.is_open }
    {
        let RoomHandle { is_open, room } = self;
        if is_open { Some(room.into_box()) } else { None }
    }

    /// Takes the room out of the handle, if there is one.
    pub fn take(&mut self, alloc: Global) -> Option<Box<CallRoom>>
        ensures room { is_some result ≡ self.old.is_open }
        ensures closed { self.new.is_open ≡ false }
    {
        replace(self, RoomHandle::closed(alloc)).into_room()
    }

    /// Puts this room into the handle. If the handle has a room already, that room's memory is given back.
    pub fn put(&mut self, room: Box<CallRoom>)
        ensures { self.new.is_open ≡ true }
    {
        *self = RoomHandle::of(room);
    }
}

impl Drop for RoomHandle {
    fn drop(self) {
        drop(self.into_room());
    }
}
