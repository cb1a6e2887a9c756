//! The cookie layer (RFC 7873).

ghost use Rattle.std.specs.Prelude.{◌≡◌, Some, None, true, IfOk, OnErr};
ghost use Rattle.dns_service.specs.declared.message.Request.{Request};
ghost use Rattle.dns_service.specs.Given.{message_in};
ghost use Rattle.dns_layers.specs.Calls.{AnswersAs, LeavesHint};
ghost use Rattle.dns_layers.specs.Cookies.{cookie_own, cookies, cookies_hint, secret_where, verdict};

use crate::cookie_replies::cookie_own;
use crate::cookie_verdict::{CookieVerdict, now_of, verdict_by};
use crate::layered::{of_inner, of_own};
use crate::refusal::read_request;
use dns_base::{AdditionalBuilder, Addrs};
use dns_name::IpAddr;
use dns_service::{ReplyFuture, Request, Service};
use dns_stream::{MiddlewareStream, Now, Once, OutOfMemory};
use std::alloc::Global;

/// The stream of a cookie layer round a service: the inner replies, or a reply of the layer's own.
pub type CookieStream<S, Meta> = MiddlewareStream<
    <S as Service<Meta>>::Future,
    <S as Service<Meta>>::Stream,
    Once,
    Once,
>;

/// A service behind DNS cookies. A disabled layer passes each request.
#[derive(Drop)]
pub struct CookiesMiddlewareSvc<S> {
    next: S,
    secret: [u8; 16],
    denied: Addrs,
    enabled: bool,
}

impl<S> CookiesMiddlewareSvc<S> {
    ghost use Rattle.std.specs.Prelude.{[]};

    /// Round a service, under a secret of the server's, with no address denied, and enabled.
    pub fn new(alloc: Global, next: S, secret: [u8; 16]) -> Self
        ensures { result ≡ record { next = next; secret = secret; denied = []; enabled = true } }
    {
        CookiesMiddlewareSvc {
            next,
            secret,
            denied: Addrs::from_vec(Vec::new(alloc)),
            enabled: true,
        }
    }

    /// Sets the addresses that are refused service over UDP without a good cookie, in place of those set before.
    pub fn with_denied_ips(self, denied: Vec<IpAddr>) -> Self
        ensures { result ≡ record self { denied = denied.items } }
    {
        CookiesMiddlewareSvc {
            next: self.next,
            secret: self.secret,
            denied: Addrs::from_vec(denied),
            enabled: self.enabled,
        }
    }

    /// Enables or disables the layer; secret and denied addresses stay.
    pub fn enable(self, enabled: bool) -> Self
        ensures { result ≡ record self { enabled = enabled } }
    {
        CookiesMiddlewareSvc {
            next: self.next,
            secret: self.secret,
            denied: self.denied,
            enabled,
        }
    }

    /// The layer's own reply to a request, if it has one.
    fn own_reply<Meta>(
        &self,
        alloc: Global,
        request: &Request<Meta>,
    ) -> Result<Option<AdditionalBuilder>, OutOfMemory>
        ensures { IfOk result (λ own. message_in own
            ≡ cookie_own (secret_where self.now.enabled self.now.secret) self.now.denied request.now) }
    {
        let asked = read_request(request);
        let secret = self.secret();
        cookie_own(alloc, secret, self.denied.as_slice(), request, &asked)
    }

    /// The secret, if the layer is enabled.
    fn secret(&self) -> Option<[u8; 16]>
        ensures { result ≡ secret_where self.now.enabled self.now.secret }
    {
        if self.enabled {
            Some(self.secret)
        } else {
            None
        }
    }
}

impl<S, Meta> Service<Meta> for CookiesMiddlewareSvc<S>
where
    S: Service<Meta>,
{
    type Stream = CookieStream<S, Meta>;

    type Future = Now<CookieStream<S, Meta>>;

    ghost answer = { λ s. cookies (secret_where s.enabled s.secret) s.denied (S.answer s.next) };

    ghost hint = { λ s. cookies_hint (secret_where s.enabled s.secret) s.denied (S.hint s.next) };

    ghost can_call = { λ s. S.can_call s.next };

    fn call(
        &self,
        alloc: Global,
        request: &mut Request<Meta>,
    ) -> Result<Now<CookieStream<S, Meta>>, OutOfMemory> {
        match self.own_reply(alloc, request)? {
            Some(reply) => Ok(of_own::<S, Meta, _>(reply)),
            None => pass(alloc, &self.next, request),
        }
    }
}

/// The inner replies to the request.
fn pass<S: Service<Meta>, Meta>(
    alloc: Global,
    next: &S,
    request: &mut Request<Meta>,
) -> Result<Now<CookieStream<S, Meta>>, OutOfMemory>
    requires { S.can_call next.now }
    ensures answers { AnswersAs ⟦<Now<CookieStream<S, Meta>> as ReplyFuture>⟧.answer
        (S.answer next.now request.old) result }
    ensures kept { LeavesHint (S.hint next.now request.old) request.old request.new result }
    ensures refused { OnErr result (request.new ≡ request.old) }
{
    let future = next.call(alloc, request)?;
    Ok(of_inner::<S, Meta, _, _>(future))
}

/// How a server with this secret takes the first cookie of a request (RFC 7873, section 5.2), for who answers it otherwise than
/// the layer does.
pub fn cookie_verdict_of<Meta>(secret: &[u8; 16], request: &Request<Meta>) -> CookieVerdict
    ensures { result ≡ verdict secret.now request.now }
{
    let asked = read_request(request);
    verdict_by(
        secret,
        request.client_addr().ip,
        now_of(request),
        asked.opt.cookie(),
    )
}
