//! Services with one reply at most, asked turn by turn.

ghost use Rattle.std.specs.Prelude.{◌≡◌, ℕ, IfOk};
ghost use Rattle.dns_service.specs.declared.message.Request.{Request};
ghost use Rattle.dns_route.specs.Turns.{TurnAnswer};

use crate::reply::ReplyMessage;
use dns_service::{OutOfMemory, Polled, Request, ServiceError};
use std::alloc::Global;

/// What a turn gives: nothing yet, or the reply, or the error.
pub type Turned = Polled<Result<ReplyMessage, ServiceError>>;

/// Answers a request with one reply or error, which may take turns: whoever asks counts them from 0, and makes none
/// after one that isn't pending.
pub trait SingleService: Drop {
    /// The answer to a request at turn k.
    ghost answer: { Self → Request (Unit {0}) → ℕ → TurnAnswer };

    /// Turn k of a request.
    fn turn(&self, alloc: Global, request: &Request<()>, k: u64) -> Result<Turned, OutOfMemory>
        ensures { IfOk result (λ p. p ≡ answer self.now request.now k) };
}
