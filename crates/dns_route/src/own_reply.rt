//! Replies that a router and the adapters give of their own.

ghost use Rattle.std.specs.Prelude.{◌≡◌, ◌≤◌, ◌+◌, IfOk, OnOk, Some, length};
ghost use Rattle.dns_opt.specs.Extended.{extended, extended_octets};
ghost use Rattle.dns_route.specs.OwnReplies.{error_state, explained, no_upstream};
ghost use Rattle.dns_route.specs.ReplyMessage.{begun, with_reply_option};

use crate::reply::{ComposeReply, ReplyMessage};
use dns_base::Message;
use dns_name::{BuildDataError, ExtendedErrorCode, OptRcode, OutOfMemory};
use dns_opt::ExtendedErrorRef;
use dns_service::mk_error_response;
use std::alloc::Global;

/// The error reply to a query.
pub(crate) fn error_begun(
    alloc: Global,
    query: &Message,
    rcode: OptRcode,
) -> Result<ReplyMessage, OutOfMemory>
    ensures { IfOk result (λ r. r ≡ error_state query.now rcode) }
{
    let built = mk_error_response(alloc, query, rcode)?;
    ReplyMessage::from_builder(alloc, built)
}

/// SERVFAIL with an extended error of code 0 and a text.
pub(crate) fn explained(
    alloc: Global,
    query: &Message,
    text: &str,
) -> Result<ReplyMessage, OutOfMemory>
    requires { length text.now ≤ 65000 }
    ensures { IfOk result (λ r. r ≡ explained query.now text.now) }
{
    let mut reply = error_begun(alloc, query, OptRcode::SERVFAIL)?;
    push_text(&mut reply, alloc, text)?;
    Ok(reply)
}

/// Adds an extended error of code 0 and a text that has room.
fn push_text(reply: &mut ReplyMessage, alloc: Global, text: &str) -> Result<(), OutOfMemory>
    requires short { length text.now ≤ 65000 }
    requires room { length (begun reply.old.opt).options + 4 + length (extended_octets (extended 0 (Some text.now))) ≤ 65535 }
    ensures { OnOk result (reply.new ≡ with_reply_option 15 (extended_octets (extended 0 (Some text.now))) reply.old) }
{
    let why = ExtendedErrorRef::new(ExtendedErrorCode::OTHER, Some(text.as_bytes()));
    let Ok(why) = why else {
        unreachable!();
    };
    push_why(reply, alloc, &why)
}

/// Adds an extended error that has room.
fn push_why(
    reply: &mut ReplyMessage,
    alloc: Global,
    why: &ExtendedErrorRef<'_>,
) -> Result<(), OutOfMemory>
    requires { length (begun reply.old.opt).options + 4 + length (extended_octets why.now) ≤ 65535 }
    ensures { OnOk result (reply.new ≡ with_reply_option 15 (extended_octets why.now) reply.old) }
{
    match reply.add_opt(alloc, why) {
        Ok(()) => Ok(()),
        Err(BuildDataError::OutOfMemory) => Err(OutOfMemory),
        Err(_) => unreachable!(),
    }
}

/// SERVFAIL, since a router has no service for a name.
pub(crate) fn no_service(alloc: Global, query: &Message) -> Result<ReplyMessage, OutOfMemory>
    ensures { IfOk result (λ r. r ≡ explained query.now no_upstream) }
{
    explained(alloc, query, "No upstream for request")
}
