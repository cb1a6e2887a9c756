//! Turns of an exchange's request.

ghost use Rattle.std.specs.Prelude.{IfOk};
ghost use Rattle.dns_framing.specs.PolledRequest.{request_answer};
ghost use Rattle.dns_session.specs.Serving.{Serving};
ghost use Rattle.dns_session.specs.Goings.{TurnsAs};

use crate::kept::KeptRequest;
use dns_framing::{ReplyFuture, ReplyStream};
use dns_name::{Octets, OutOfMemory};
use std::alloc::Global;

/// A Turn of a request, if one is kept, which is let go if it is done. The octets that its client is sent are given.
pub fn turn_unfinished<F: ReplyFuture<Stream = R>, R: ReplyStream>(
    alloc: Global,
    unfinished: &mut Option<KeptRequest<F, R>>,
) -> Result<Option<Octets>, OutOfMemory>
    ensures { IfOk result (λ octets. (answers : Serving)
        → TurnsAs (request_answer F.answer R.answer) answers unfinished.old unfinished.new octets) }
{
    let (octets, done) = match unfinished {
        None => return Ok(None),
        Some(kept) => kept.turn(alloc)?,
    };
    if done {
        *unfinished = None;
        return Ok(octets);
    }
    Ok(octets)
}
