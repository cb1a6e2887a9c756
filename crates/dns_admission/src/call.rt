//! The five calls of a book as values, and their replies.

use crate::admission::Admission;
use dns_events::{DgramConfig, Error, Look, StreamConfig};

/// A call of a book.
#[derive(Clone, Copy, Debug, PartialEq, Eq)]
pub enum Call {
    /// Asks for a slot.
    Admit,
    /// Gives a slot back.
    Release,
    /// Replaces both configurations.
    Reconfigure {
        dgram: DgramConfig,
        stream: StreamConfig,
    },
    /// Shuts the server down.
    Shutdown,
    /// Reads the book.
    Look,
}

/// The reply to a call.
#[derive(Clone, Copy, Debug, PartialEq, Eq)]
pub enum Reply {
    /// To an admit.
    Admission(Admission),
    /// To a release: how many slots are taken now.
    Left(u64),
    /// To a reconfigure: the version that is in force now.
    Version(Result<u64, Error>),
    /// To a shutdown or a look.
    Look(Look),
}
