//! The statuses of the program.
ghost use Rattle.std.specs.Prelude.{◌≡◌};
ghost use Rattle.ca_questions.specs.Values.{reply_of};
ghost use Rattle.ca_cli.specs.Statuses.{code_of, reply_status};

use ca_questions::Reply;

/// The status with which the program ends.
#[derive(Clone, Copy, Debug, PartialEq, Eq)]
pub enum Status {
    /// The command was carried out, and its whole output was written.
    Done,
    /// The judge refuses the input of `check`.
    Refused,
    /// The words are no command.
    Usage,
    /// An operand isn't the text of a rule.
    RuleFault,
    /// The words ask a question that has no answer.
    NotFit,
    /// The input of `check` is longer than the judge accepts.
    TooLong,
    /// A read of the source failed.
    ReadFault,
    /// A write to the sink failed.
    WriteFault,
    /// There was no memory.
    Memory,
}

impl Status {
    /// Returns the status that belongs to this reply.
    pub fn of(reply: &Reply) -> Status
        ensures { result ≡ reply_status (reply_of reply.now) }
    {
        match reply {
            Reply::Found(_) | Reply::Accepted(_) => Status::Done,
            Reply::NotFit(_) => Status::NotFit,
            Reply::RuleFault(..) => Status::RuleFault,
            Reply::Refused(_) => Status::Refused,
            Reply::TooLong => Status::TooLong,
            Reply::Usage => Status::Usage,
        }
    }

    /// Returns the exit code for this status.
    pub fn code(&self) -> u8
        ensures { result ≡ code_of self.now }
    {
        match self {
            Status::Done => 0,
            Status::Refused => 1,
            Status::Usage => 2,
            Status::RuleFault => 3,
            Status::NotFit => 4,
            Status::TooLong => 5,
            Status::ReadFault => 6,
            Status::WriteFault => 7,
            Status::Memory => 8,
        }
    }
}
