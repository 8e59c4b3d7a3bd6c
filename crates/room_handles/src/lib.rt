//! The handle by which C holds a room: the memory that calls use again and again.
//!
//! A [`CallRoom`] is some 17 MB of memory for answers, for their text, for reports and for degrees. It is Rattle's, and C
//! can't hold it: C can hold a [`RoomHandle`], which has the layout of C and says whether there is a room. An *open*
//! handle has a room, and a *closed* one has none. [`RoomHandle::take`] takes the room out of the handle, and
//! [`RoomHandle::put`] puts it back. So a call over a room takes the room, uses it, and puts it back at the end.
//!
//! A handle has a pointer to its room, and the room is the handle's alone. Two structs with a pointer show this in two
//! steps. `Held` is a box as its pointer. A `Hidden` is the same for a room, but its type doesn't say what the pointer
//! points to, since the type of a struct of C may not. The proofs of `Held::of`, `Held::into_box`, `Held::none`, `hide`
//! and `show` are written by hand, step by step.
//!
//! Each call takes **O(1)** time besides the time for the memory of a room.
#![tactic(auto)]

mod handles;
mod held;
mod hidden;
mod rooms;

pub use handles::RoomHandle;
pub use rooms::CallRoom;
