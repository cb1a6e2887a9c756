//! How the program ends.

ghost use Rattle.std.specs.Prelude.{◌≡◌};
ghost use Rattle.dns_run.specs.Status.{status_number, status_once_written};

use dns_flood::WriteError;

/// How a run ended.
#[derive(Clone, Copy, Debug, PartialEq, Eq)]
pub enum Status {
    /// The source was read to its end, and all lines were written.
    Done,
    /// The words are none of the forms.
    Usage,
    /// The source is no script. One line says where and why.
    Refused,
    /// A read failed.
    ReadFault,
    /// A write failed.
    WriteFault,
    OutOfMemory,
    /// The source has more than 67,108,864 octets.
    TooLong,
    /// A socket, an accept or a thread of a running server failed.
    HostFault,
}

impl Status {
    /// The exit status of the program.
    pub fn number(self) -> u8
        ensures { result ≡ status_number self }
    {
        match self {
            Status::Done => 0,
            Status::Usage => 2,
            Status::Refused => 3,
            Status::ReadFault => 4,
            Status::WriteFault => 5,
            Status::OutOfMemory => 6,
            Status::TooLong => 7,
            Status::HostFault => 8,
        }
    }

    /// This status if all was written, and else why it wasn't.
    pub(crate) fn after(self, written: Result<(), WriteError>) -> Status
        ensures { result ≡ status_once_written self written }
    {
        match written {
            Ok(()) => self,
            Err(WriteError::OutOfMemory) => Status::OutOfMemory,
            Err(WriteError::Fault) => Status::WriteFault,
        }
    }
}
