//! The statuses with which the program ends.
ghost use Rattle.std.specs.Prelude.{◌≡◌};
ghost use Rattle.list_run.specs.Statuses.{code_of};

/// The status with which the program ends.
#[derive(Clone, Copy, Debug, PartialEq, Eq)]
pub enum Status {
    /// The list was written to its end.
    Done,
    /// The words aren't the name of a property and a text.
    Usage,
    /// The text isn't an accepted beginning of a table text.
    RuleFault,
    /// A write to the output failed.
    WriteFault,
    /// There was not enough memory.
    Memory,
}

impl Status {
    /// Returns the exit code of the program for this status.
    pub fn code(&self) -> u8
        ensures { result ≡ code_of self.now }
    {
        match self {
            Status::Done => 0,
            Status::Usage => 2,
            Status::RuleFault => 3,
            Status::WriteFault => 7,
            Status::Memory => 8,
        }
    }
}
