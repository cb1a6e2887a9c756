//! The reply to a NOTIFY by its verdict (RFC 1996, section 4.7).

ghost use Rattle.std.specs.Prelude.{◌≡◌, IfOk};
ghost use Rattle.dns_service.specs.Copied.{copied};
ghost use Rattle.dns_layers.specs.Notify.{confirmation, confirming, notify_reply};

use crate::notifiable::NotifyError;
use dns_base::{AdditionalBuilder, Message, OutOfMemory, ParseError, PushError, Rcode};
use dns_name::OptRcode;
use dns_service::{CopiedMessage, mk_error_response};
use std::alloc::Global;

/// The reply to a message, by its verdict.
pub(crate) fn notify_reply(
    alloc: Global,
    request: &Message,
    verdict: Result<(), NotifyError>,
) -> Result<AdditionalBuilder, OutOfMemory>
    ensures { IfOk result (λ b. b.message ≡ notify_reply request.now verdict) }
{
    match verdict {
        Ok(()) => confirmation(alloc, request),
        Err(NotifyError::NotAuthForZone) => mk_error_response(alloc, request, OptRcode::NOTAUTH),
        Err(NotifyError::Other) => mk_error_response(alloc, request, OptRcode::SERVFAIL),
    }
}

/// The copy of a message, confirmed, or SERVFAIL.
fn confirmation(alloc: Global, request: &Message) -> Result<AdditionalBuilder, OutOfMemory>
    ensures { IfOk result (λ b. b.message ≡ confirmation request.now (copied request.now)) }
{
    match CopiedMessage::read(alloc, &request.for_ref()) {
        Ok(copy) => confirmed(alloc, request, copy),
        Err(ParseError::OutOfMemory) => Err(OutOfMemory),
        Err(_) => mk_error_response(alloc, request, OptRcode::SERVFAIL),
    }
}

/// A copy, confirmed, or SERVFAIL to the message if it is too long.
fn confirmed(
    alloc: Global,
    request: &Message,
    copy: CopiedMessage,
) -> Result<AdditionalBuilder, OutOfMemory>
    ensures { IfOk result (λ b. b.message ≡ confirmation request.now (Ok copy)) }
{
    let mut copy = copy;
    confirm(&mut copy);
    match copy.build(alloc, None) {
        Ok(reply) => Ok(reply),
        Err(PushError::ShortBuf) => mk_error_response(alloc, request, OptRcode::SERVFAIL),
        Err(PushError::OutOfMemory) => Err(OutOfMemory),
    }
}

/// Makes a message the response that confirms it.
fn confirm(copy: &mut CopiedMessage)
    ensures { copy.new ≡ confirming copy.old }
{
    let mut header = copy.header();
    header.qr = true;
    header.aa = true;
    header.rcode = Rcode::NOERROR;
    copy.set_header(header);
}
