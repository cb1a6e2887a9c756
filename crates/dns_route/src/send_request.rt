//! Transports that requests are sent on by, and what they are refused with.

ghost use Rattle.std.specs.Prelude.{◌≡◌, ◌≤◌, ℕ, IfOk, Some, length};
ghost use Rattle.dns_route.specs.OwnReplies.{send_error_text};
ghost use Rattle.dns_route.specs.Relays.{SentAnswer};
ghost use Rattle.dns_route.specs.RequestMessage.{RequestState};

use crate::request::RequestMessage;
use dns_base::Message;
use dns_name::OutOfMemory;
use dns_service::Polled;
use std::alloc::Global;
use std::error::Error;
use std::fmt;

/// Why a transport has no answer.
#[derive(Clone, Copy, Debug, PartialEq, Eq)]
pub enum SendError {
    Closed,
    Timeout,
    Unreachable,
}

impl SendError {
    /// The text.
    pub(crate) fn text(self) -> &'static str
        ensures value { result.now ≡ send_error_text self }
        ensures short { length result.now ≤ 65000 }
    {
        match self {
            SendError::Closed => "connection closed",
            SendError::Timeout => "request timed out",
            SendError::Unreachable => "no route",
        }
    }
}

impl fmt::Display for SendError {
    ghost output = { λ e. Some (send_error_text e) };

    fn fmt<W: fmt::Write>(&self, f: &mut fmt::Formatter<W>) -> fmt::Result {
        f.write_str(self.text())
    }
}

impl Error for SendError {}

/// Sends a request on, and has its answer when it is asked for it often enough: whoever asks counts from 0.
pub trait SendRequest: Drop {
    /// The answer to a request at number k.
    ghost answer: { Self → RequestState → ℕ → SentAnswer };

    /// The answer to a request, if it is asked for at number k.
    fn poll_response(
        &self,
        alloc: Global,
        request: &RequestMessage,
        k: u64,
    ) -> Result<Polled<Result<Message, SendError>>, OutOfMemory>
        ensures { IfOk result (λ p. p ≡ answer self.now request.now k) };
}
