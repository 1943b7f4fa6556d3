//! How a command ends.
ghost use Rattle.std.specs.Prelude.{◌≡◌};
ghost use Rattle.qir_cli.specs.Statuses as spec;

/// How a command ended. Its number is the exit status of the program.
#[derive(Clone, Copy, Debug, PartialEq, Eq)]
pub enum Status {
    /// The answer was written whole.
    Done,
    /// A refusal was written whole.
    Refused,
    /// The words are no command. Nothing was read or written.
    BadWords,
    /// A run ended otherwise than by returning, and all was written.
    Stopped,
    /// A read failed. Nothing was written.
    ReadFault,
    /// A write failed. The beginning of the answer was written.
    WriteFault,
    /// Out of memory: no clause says when. Nothing was written.
    Memory,
}

impl Status {
    /// The number of the status, from 0 for `Done` to 6 for `Memory`.
    pub fn number(self) -> u8
        ensures { result ≡ spec.number_of self }
    {
        match self {
            Status::Done => 0,
            Status::Refused => 1,
            Status::BadWords => 2,
            Status::Stopped => 3,
            Status::ReadFault => 4,
            Status::WriteFault => 5,
            Status::Memory => 6,
        }
    }
}
