//! How a call ended, and its exit status.
ghost use Rattle.std.specs.Prelude.{◌≡◌};

/// How a call of the program ended.
#[derive(Clone, Copy, Debug, PartialEq, Eq)]
pub enum Status {
    /// The whole text was written, and no check failed.
    Done,
    /// The whole text was written, and it names a failed check.
    Violation,
    /// The input is refused, and the text says why.
    Refused,
    /// The words are no command.
    Usage,
    /// The input failed while it was read, and nothing was written.
    ReadFault,
    /// The output failed, and a prefix of the text was written.
    WriteFault,
    /// No memory was left, and nothing or a prefix of the text was written.
    Memory,
}

impl Status {
    ghost use Rattle.levee_top.specs.Status.{code_of};

    /// The exit status of the process.
    pub fn code(&self) -> u8
        ensures { result ≡ code_of self.now }
    {
        match self {
            Status::Done => 0,
            Status::Violation => 1,
            Status::Refused => 2,
            Status::Usage => 3,
            Status::ReadFault => 4,
            Status::WriteFault => 5,
            Status::Memory => 6,
        }
    }
}
