//! The type `CommandRoom`, which has the memory that calls of `run_in` use again and again.

use ca_text::Output;
use std::alloc::{AllocError, Global};
use tail_config::TailRoom;

/// The memory that calls of `run_in` use again and again, some 15 MB.
#[derive(Drop)]
pub struct CommandRoom {
    /// For what an answer needs besides the room.
    pub alloc: Global,
    /// For the configuration that the words describe.
    pub tails: TailRoom,
    /// For the long lists of answers.
    pub answers: ca_answering::AnswerRoom,
    /// For the text of a reply.
    pub output: Output,
}

impl CommandRoom {
    /// Takes all the memory of a room. The only error is lack of memory.
    pub fn new(alloc: Global) -> Result<CommandRoom, AllocError> {
        Ok(CommandRoom {
            alloc,
            output: Output::new(alloc)?,
            tails: TailRoom::new(alloc)?,
            answers: ca_answering::AnswerRoom::new(alloc)?,
        })
    }
}
