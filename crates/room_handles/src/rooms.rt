//! The type `CallRoom`, which has the memory of calls.

use c_structs::{DegreeRoom, RowRoom};
use ca_cli::CommandRoom;
use std::alloc::{AllocError, Global};

/// The memory that calls of the C library use again and again, some 17 MB. No call depends on an earlier one.
#[derive(Drop)]
pub struct CallRoom {
    /// For commands.
    pub commands: CommandRoom,
    /// For reports and the letters of their words.
    pub reports: RowRoom,
    /// For degrees and the letters of their words.
    pub degrees: DegreeRoom,
}

impl CallRoom {
    /// Takes all the memory of a room. The only error is lack of memory.
    pub fn new(alloc: Global) -> Result<CallRoom, AllocError> {
        Ok(CallRoom {
            degrees: DegreeRoom::new(alloc)?,
            reports: RowRoom::new(alloc)?,
            commands: CommandRoom::new(alloc)?,
        })
    }

    /// Takes all the memory of a room, in a box. The only error is lack of memory.
    pub fn boxed(alloc: Global) -> Result<Box<CallRoom>, AllocError> {
        Ok(Box::new(alloc, CallRoom::new(alloc)?)?)
    }
}
