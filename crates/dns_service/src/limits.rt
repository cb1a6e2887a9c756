//! How many octets a reply may take.

ghost use Rattle.std.specs.Prelude.{◌≡◌, ◌≤◌, OnErr, OnOk};
ghost use Rattle.dns_replies.specs.Cut.{sized};
ghost use Rattle.dns_service.specs.Transport.{limit, limit_over};

use crate::message::TransportSpecificContext;
use dns_base::AdditionalBuilder;
use dns_name::OutOfMemory;
use dns_replies::cut;
use std::alloc::Global;

/// The least size in octets that a response over UDP may take (RFC 1035, section 4.2.1).
pub const MINIMUM_RESPONSE_BYTE_LEN: u16 = 512;

/// How many octets a reply over UDP may take, by its request's hint.
pub fn reply_limit(hint: Option<u16>) -> u16
    ensures value { result ≡ limit hint }
    ensures least { 512 ≤ result }
    ensures most { result ≤ 65535 }
{
    match hint {
        Some(hint) => hint.max(MINIMUM_RESPONSE_BYTE_LEN),
        None => MINIMUM_RESPONSE_BYTE_LEN,
    }
}

/// How many octets a reply to a request of this transport may take, if that is limited, by the hint after the call.
pub fn limit_over(transport: &TransportSpecificContext, hint: Option<u16>) -> Option<u16>
    ensures { result ≡ limit_over transport.now (limit hint) }
{
    match transport {
        TransportSpecificContext::Udp(_) => Some(reply_limit(hint)),
        TransportSpecificContext::NonUdp(_) => None,
    }
}

/// Cuts a reply if there is a limit, and changes nothing else of it. If there is no memory the reply is as it was.
pub fn fit(
    alloc: Global,
    limit: Option<u16>,
    reply: &mut AdditionalBuilder,
) -> Result<(), OutOfMemory>
    ensures ok { OnOk result (reply.new.message ≡ sized limit reply.old.message) }
    ensures rest { OnOk result (reply.new.limit ≡ reply.old.limit) }
    ensures err { OnErr result (reply.new ≡ reply.old) }
{
    match limit {
        Some(limit) => cut(alloc, reply, limit),
        None => Ok(()),
    }
}
