//! Errors of the servers.

ghost use Rattle.std.specs.Prelude.{Some, codes};

use std::fmt;

/// Why a command to a server was refused.
#[derive(Clone, Copy, Debug, PartialEq, Eq)]
pub enum Error {
    /// The command can't be sent to the server.
    CommandCouldNotBeSent,
}

impl fmt::Display for Error {
    ghost output = { λ _. Some (codes "Command could not be sent") };

    fn fmt<W: fmt::Write>(&self, f: &mut fmt::Formatter<W>) -> fmt::Result {
        f.write_str("Command could not be sent")
    }
}

impl std::error::Error for Error {}
