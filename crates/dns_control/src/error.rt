//! Why there is no control.

use std::alloc::AllocError;
use std::io;
use thiserror::Error;

/// Why a program can't be controlled, or does not what is asked.
#[derive(Debug, Drop, Error)]
pub enum ControlError {
    /// A running program answers at the path already.
    #[error("a program answers there already")]
    Answered,
    /// What stands at the path is no socket.
    #[error("there is a file that is no socket")]
    OtherFile,
    /// The program refuses the order, and says why.
    #[error("{0}")]
    Refused(String),
    /// The system refuses.
    #[error("{0}")]
    System(#[from] io::Error),
    /// Out of memory.
    #[error("{0}")]
    Memory(#[from(alloc)] AllocError),
}
