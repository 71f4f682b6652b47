// Exit statuses.
ghost use Rattle.std.specs.Prelude.{◌≡◌};

/// The end of a run, by its exit status.
#[derive(Clone, Copy, Debug, PartialEq, Eq)]
pub enum Status {
    /// The job was done, and all its claims hold.
    Done = 0,
    /// The words name no job.
    NoJob = 2,
    /// The search ended before the bound reached the cost.
    Bounded = 3,
    /// The plan isn't accepted.
    NotAccepted = 4,
    /// The instance file isn't fit for the job.
    BadInstance = 5,
    /// The plan file isn't fit for the job.
    BadPlan = 6,
    /// A read failed.
    ReadFault = 7,
    /// A write failed.
    WriteFault = 8,
    /// Memory ran out.
    OutOfMemory = 9,
}

impl Status {
    ghost use Rattle.strip_answer.specs.Status.{code_of};

    /// Returns the exit status as a number.
    pub fn code(self) -> u8
        ensures { result ≡ code_of self }
    {
        self as u8
    }
}
