//! How a run ends.

ghost use Rattle.std.specs.Prelude.{◌≡◌};
ghost use Rattle.vs_reply.specs.Status.{code_of};

/// How a run ended.
#[derive(Clone, Copy, Debug, PartialEq, Eq)]
pub enum Status {
    /// The work is done. Of a search: the plan is optimal. Of a judgement: the document holds.
    Done,
    /// The document doesn't hold.
    SaysNo,
    /// The words aren't in their grammar. Nothing was read.
    BadWords,
    /// The input isn't in the command's grammar.
    BadInput,
    /// Reading failed. Nothing was written.
    ReadFault,
    /// Writing failed. A prefix of the output was written.
    WriteFault,
    /// There was no memory. Nothing was written.
    NoMemory,
    /// The input is longer than 536,870,912 bytes. Nothing was written.
    TooLong,
    /// There is no plan.
    Infeasible,
    /// The cases that the search may work on ran out before the plan was shown to be optimal.
    StillOpen,
}

impl Status {
    /// The exit status of the program: 0 to 7, 10 and 11 in the order above.
    pub fn code(&self) -> u8
        ensures { result ≡ code_of self.now }
    {
        match self {
            Status::Done => 0,
            Status::SaysNo => 1,
            Status::BadWords => 2,
            Status::BadInput => 3,
            Status::ReadFault => 4,
            Status::WriteFault => 5,
            Status::NoMemory => 6,
            Status::TooLong => 7,
            Status::Infeasible => 10,
            Status::StillOpen => 11,
        }
    }
}
