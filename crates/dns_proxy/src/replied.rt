//! What a client is sent for an item.

ghost use Rattle.std.specs.Prelude.{◌≡◌, IfOk, Some, option_map};
ghost use Rattle.dns_base.specs.Wire.{wire};
ghost use Rattle.dns_session.specs.Turns.{reply_to};
ghost use Rattle.dns_layers.specs.Rewritten.{rewritten};
ghost use Rattle.dns_proxy.specs.Queries.{replied};
ghost use Rattle.dns_service.specs.declared.service.Polled.TheVariants.{Ready};

use dns_base::Message;
use dns_layers::{Rewrite, rewrite_answer};
use dns_service::{Octets, OutOfMemory, Polled, ServiceResult};
use dns_session::{answered, datagram_of};
use std::alloc::Global;

/// The octets that are sent for an item to the sender of a message, of that many at most if that is limited.
pub(crate) fn replied(
    alloc: Global,
    message: &Message,
    limit: Option<u16>,
    item: ServiceResult,
) -> Result<Option<Octets>, OutOfMemory>
    ensures { IfOk result (λ o. o ≡ replied limit message.now item) }
{
    let (reply, _) = answered(alloc, message, limit, item)?;
    match reply {
        Some(reply) => Ok(Some(datagram_of(reply))),
        None => Ok(None),
    }
}

/// The datagram that answers a message by an item that a rule rewrites first.
pub(crate) fn replied_by<R: Rewrite>(
    alloc: Global,
    rule: &R,
    message: &Message,
    limit: Option<u16>,
    item: ServiceResult,
) -> Result<Option<Octets>, OutOfMemory>
    ensures { IfOk result (λ o. o ≡ replied limit message.now (rewritten (R.rewriting rule.now) item)) }
{
    let mut answer = Polled::Ready(Some(item));
    rewrite_answer(rule, alloc, &mut answer)?;
    match answer {
        Polled::Ready(Some(item)) => replied(alloc, message, limit, item),
        Polled::Ready(None) => Ok(None),
        Polled::Pending => Ok(None),
    }
}
