//! The layer that gives replies a server cookie.

ghost use Rattle.std.specs.Prelude.{◌≡◌};
ghost use Rattle.dns_reply_options.specs.ServerCookies.{server_cookies};

use crate::cookie_choice::cookie_for;
use crate::cookie_post::CookiePost;
use dns_rewriting::{RewrittenFuture, RewrittenStream, call_rewritten};
use dns_service::{OutOfMemory, Request, Service};
use std::alloc::Global;

/// A service whose replies to requests with a client cookie carry a server cookie, if there is a secret.
#[derive(Drop)]
pub struct ServerCookieSvc<S> {
    next: S,
    secret: Option<[u8; 16]>,
}

impl<S> ServerCookieSvc<S> {
    /// Round a service, under a secret of the server's, if it has one.
    pub fn new(next: S, secret: Option<[u8; 16]>) -> Self
        ensures { result ≡ record { next = next; secret = secret } }
    {
        ServerCookieSvc { next, secret }
    }
}

impl<S, Meta> Service<Meta> for ServerCookieSvc<S>
where
    S: Service<Meta>,
{
    type Stream = RewrittenStream<S::Stream, CookiePost>;

    type Future = RewrittenFuture<S::Future, CookiePost>;

    ghost answer = { λ s. server_cookies s.secret (S.answer s.next) (S.hint s.next) };

    ghost hint = { λ s. S.hint s.next };

    ghost can_call = { λ s. S.can_call s.next };

    fn call(
        &self,
        alloc: Global,
        request: &mut Request<Meta>,
    ) -> Result<RewrittenFuture<S::Future, CookiePost>, OutOfMemory> {
        let cookie = cookie_for(&self.secret, request);
        call_rewritten(alloc, &self.next, request, cookie)
    }
}
