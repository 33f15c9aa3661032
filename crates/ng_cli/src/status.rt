ghost use Rattle.std.specs.Prelude.{◌≡◌};
ghost use Rattle.ng_cli.specs.Steps.{code_of, ended};

use ng_outside::SinkError;

/// How a call ended. The numbers are the exit statuses of the program.
#[derive(Clone, Copy, Debug, PartialEq, Eq)]
pub enum Status {
    /// The list of events was taken to its end.
    Done = 0,
    /// Memory ran out.
    NoMemory = 1,
    /// The words ask for nothing that is there.
    Usage = 2,
    /// A file is refused.
    Refused = 3,
    /// A file couldn't be fetched.
    NoFile = 5,
    /// The output couldn't be put.
    NoOutput = 6,
}

impl Status {
    /// The number of the status.
    pub fn code(self) -> u8
        ensures { result ≡ code_of self }
    {
        self as u8
    }

    // This status, unless the output couldn't be put.
    pub(crate) fn unless_stopped(self, put: Result<(), SinkError>) -> Status
        ensures { result ≡ ended self put }
    {
        match put {
            Ok(()) => self,
            Err(SinkError::Failed) => Status::NoOutput,
            Err(SinkError::Memory) => Status::NoMemory,
        }
    }
}
