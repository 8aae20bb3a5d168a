ghost use Rattle.std.specs.Prelude.{◌≡◌};
ghost use Rattle.own_tree.specs.Status.{code_of};

/// How a call of the program ended.
#[derive(Clone, Copy, Debug, PartialEq, Eq)]
pub enum Status {
    /// Everything was done.
    Done,
    /// The text was refused, by a refusal or by findings.
    Refused,
    /// The words of the command line are no command.
    Usage,
    /// The run trapped.
    Trapped,
    /// The steps ran out before the run ended.
    OutOfSteps,
    /// Memory was refused.
    Memory,
    /// A file could not be read.
    ReadFault,
    /// A write to a sink or a file failed.
    WriteFault,
    /// The bytes are no module that is taken.
    BadModule,
}

impl Status {
    /// The exit status of the process, from 0 to 8.
    pub fn code(self) -> u8
        ensures { result ≡ code_of self }
    {
        match self {
            Status::Done => 0,
            Status::Refused => 1,
            Status::Usage => 2,
            Status::Trapped => 3,
            Status::OutOfSteps => 4,
            Status::Memory => 5,
            Status::ReadFault => 6,
            Status::WriteFault => 7,
            Status::BadModule => 8,
        }
    }
}
