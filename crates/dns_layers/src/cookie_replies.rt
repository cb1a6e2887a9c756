//! The replies of the cookie layer's own (RFC 7873, section 5.2).

ghost use Rattle.std.specs.Prelude.{◌≡◌, IfOk, option_map, Some};
ghost use Rattle.dns_opt.specs.Drafts.{Appended};
ghost use Rattle.dns_service.specs.declared.message.Request.{Request};
ghost use Rattle.dns_service.specs.Asked.{asked_of};
ghost use Rattle.dns_service.specs.Given.{message_in};
ghost use Rattle.dns_layers.specs.Cookies.{cookie_draft, cookie_own, fresh_reply, own_message, with_cookie, zero_reply};

use crate::cookie_verdict::{CookieAnswer, cookie_answer, now_of};
use dns_base::{AdditionalBuilder, Message, MessageBuilder, PushError};
use dns_cookie::Cookie;
use dns_name::{BuildDataError, IpAddr, OptRcode, OutOfMemory, Rcode, Serial};
use dns_opt::{BuildOpt, ComposeOptData, OptBuilder};
use dns_service::{Asked, Request, mk_builder_for_target, mk_error_response};
use std::alloc::Global;

/// A header alone.
fn zero_reply(alloc: Global, rcode: Rcode, tc: bool) -> Result<AdditionalBuilder, OutOfMemory>
    ensures { IfOk result (λ b. b.message ≡ zero_reply rcode tc) }
{
    let mut reply = MessageBuilder::new(alloc)?;
    let mut header = reply.header();
    header.rcode = rcode;
    header.tc = tc;
    reply.set_header(header);
    Ok(reply.additional())
}

/// An answer with a cookie, or SERVFAIL if the questions have no room.
fn fresh_reply(
    alloc: Global,
    request: &Message,
    rcode: OptRcode,
    cookie: Cookie,
) -> Result<AdditionalBuilder, OutOfMemory>
    ensures { IfOk result (λ b. b.message ≡ fresh_reply request.now rcode cookie) }
{
    let reply = mk_builder_for_target(alloc)?;
    match reply.start_answer(alloc, request, rcode.rcode()) {
        Ok(reply) => with_cookie(reply.additional(), alloc, rcode, cookie),
        Err(PushError::ShortBuf) => mk_error_response(alloc, request, OptRcode::SERVFAIL),
        Err(PushError::OutOfMemory) => Err(OutOfMemory),
    }
}

/// The reply with an OPT record that holds the code and the cookie, if it has room.
fn with_cookie(
    reply: AdditionalBuilder,
    alloc: Global,
    rcode: OptRcode,
    cookie: Cookie,
) -> Result<AdditionalBuilder, OutOfMemory>
    ensures { IfOk result (λ b. b ≡ with_cookie reply rcode cookie) }
{
    let mut reply = reply;
    match put_cookie(&mut reply, alloc, rcode, cookie) {
        Err(BuildDataError::OutOfMemory) => Err(OutOfMemory),
        _ => Ok(reply),
    }
}

/// Appends an OPT record that holds the code and the cookie.
fn put_cookie(
    reply: &mut AdditionalBuilder,
    alloc: Global,
    rcode: OptRcode,
    cookie: Cookie,
) -> Result<(), BuildDataError>
    ensures { Appended (cookie_draft reply.old rcode cookie) reply.old reply.new result }
{
    let _readable = cookie.compose_len();
    reply.opt(alloc, |opt: &mut OptBuilder| {
        opt.set_rcode(rcode);
        opt.cookie(alloc, cookie)
    })
}

/// The message of an answer of the layer's own, at a time, to a client.
fn own_message(
    alloc: Global,
    secret: &[u8; 16],
    request: &Message,
    now: Serial,
    address: IpAddr,
    answer: CookieAnswer,
) -> Result<AdditionalBuilder, OutOfMemory>
    ensures { IfOk result (λ b. b.message ≡ own_message secret.now request.now now.0 address answer) }
{
    match answer {
        CookieAnswer::HeaderAlone { rcode, tc } => zero_reply(alloc, rcode, tc),
        CookieAnswer::Fresh { rcode, cookie } => {
            let made = cookie.create_response(now, address, secret);
            fresh_reply(alloc, request, rcode, made)
        }
    }
}

/// The layer's own reply to a request, if the layer is on and has one. This was read of the request.
pub fn cookie_own<Meta>(
    alloc: Global,
    secret: Option<[u8; 16]>,
    denied: &[IpAddr],
    request: &Request<Meta>,
    asked: &Asked,
) -> Result<Option<AdditionalBuilder>, OutOfMemory>
    requires { asked.now ≡ asked_of request.now.octets }
    ensures { IfOk result (λ own. message_in own ≡ cookie_own secret denied.now request.now) }
{
    let Some(secret) = secret else {
        return Ok(None);
    };
    own_where_on(alloc, &secret, denied, request, asked)
}

/// The own reply of a layer that is on, if it has one. This was read of the request.
#[inline(never)]
fn own_where_on<Meta>(
    alloc: Global,
    secret: &[u8; 16],
    denied: &[IpAddr],
    request: &Request<Meta>,
    asked: &Asked,
) -> Result<Option<AdditionalBuilder>, OutOfMemory>
    requires { asked.now ≡ asked_of request.now.octets }
    ensures { IfOk result (λ own. message_in own ≡ cookie_own (Some secret.now) denied.now request.now) }
{
    match cookie_answer(secret, denied, request, asked) {
        None => Ok(None),
        Some(answer) => {
            let address = request.client_addr().ip;
            let now = now_of(request);
            let reply = own_message(alloc, secret, request.message(), now, address, answer)?;
            Ok(Some(reply))
        }
    }
}
