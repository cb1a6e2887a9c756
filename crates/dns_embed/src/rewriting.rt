//! How a service's reply becomes the one that is sent.

ghost use Rattle.std.specs.Prelude.{◌≡◌, IfOk};
ghost use Rattle.dns_replies.specs.Cut.{sized};
ghost use Rattle.dns_replies.specs.ErrorReply.{error_reply};
ghost use Rattle.dns_route.specs.ReplyMessage.{Composes};
ghost use Rattle.dns_service.specs.Errors.{rcode_of};
ghost use Rattle.dns_embed.specs.Embedded.{Refuses, Rewrites, composed_of};

use crate::rule::ReplyRule;
use dns_base::{AdditionalBuilder, Message, MessageRef, OutOfMemory};
use dns_layers::Rewrite;
use dns_name::OptRcode;
use dns_route::{ComposeReply, ReplyMessage};
use dns_service::{ReplyError, ServiceError};
use dns_session::refused;
use std::alloc::Global;

/// The reply that octets are, rewritten by a rule. FormatError if they can't be read.
pub fn rewrite_message(
    alloc: Global,
    rule: &ReplyRule,
    octets: &[u8],
) -> Result<AdditionalBuilder, ReplyError>
    ensures { Rewrites rule.now octets.now result }
{
    let Ok(message) = MessageRef::from_slice(octets) else {
        return Err(ReplyError::Service(ServiceError::FormatError));
    };
    let mut reply = composed(alloc, &message)?;
    match rule.rewrite(alloc, &mut reply) {
        Ok(()) => Ok(reply),
        Err(_) => Err(ReplyError::OutOfMemory),
    }
}

/// The message that octets compose.
fn composed(alloc: Global, message: &MessageRef<'_>) -> Result<AdditionalBuilder, ReplyError>
    ensures { Composes (composed_of message.now) result }
{
    let reply = ReplyMessage::from_message(alloc, message)?;
    reply.additional_builder_stream_target(alloc)
}

/// What is sent for a request whose service fails with an error (RFC 1035, section 4.1.1), by the rule for its replies. None
/// if the octets are no message.
pub fn refuse_message(
    alloc: Global,
    rule: &ReplyRule,
    octets: &[u8],
    error: ServiceError,
) -> Result<Option<AdditionalBuilder>, OutOfMemory>
    ensures { IfOk result (Refuses rule.now octets.now error) }
{
    let octets = Vec::from_slice(alloc, octets)?;
    let Ok(message) = Message::from_octets(octets) else {
        return Ok(None);
    };
    let rcode = OptRcode::from(error.rcode());
    let reply = refused(alloc, &message, rule.mandatory.limit, rcode)?;
    Ok(Some(reply))
}
