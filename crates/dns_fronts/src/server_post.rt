//! The rule for what a server says of itself in its replies.

ghost use Rattle.std.specs.Prelude.{◌≡◌, OnOk};
ghost use Rattle.dns_service.specs.Transport.{hint_of, limit, limit_over};
ghost use Rattle.dns_fronts.specs.ServerReplies.{and_cookie, behind, post_of, server_by};

use dns_base::AdditionalBuilder;
use dns_cookie::Cookie;
use dns_layers::Rewrite;
use dns_own_opt::OwnOpt;
use dns_reply_options::CookiePost;
use dns_service::{OutOfMemory, Request, fit, limit_over};
use std::alloc::Global;

/// What the replies to a request say of the server.
#[derive(Clone, Copy)]
pub struct ServerPost {
    /// The cookie that they carry, if there is one.
    pub cookie: Option<CookiePost>,
    /// What their OPT records state.
    pub opt: OwnOpt,
    /// How many octets a reply may take, if that is limited.
    pub limit: Option<u16>,
}

/// A rule, and after it what the replies say of the server.
#[derive(Drop)]
pub struct ServerRule<R> {
    pub inner: R,
    pub post: ServerPost,
}

impl ServerPost {
    /// What the replies to a request say, by the hint that it has now.
    pub(crate) fn new(cookie: Option<Cookie>, opt: OwnOpt, request: &Request<()>) -> ServerPost
        ensures { let t = request.now.transport in result ≡ post_of cookie opt (limit_over t (limit (hint_of t))) }
    {
        let transport = request.transport_ctx();
        let limit = limit_over(transport, transport.hint());
        ServerPost {
            cookie: cookie.map(|cookie| CookiePost { cookie, limit }),
            opt,
            limit,
        }
    }
}

impl Rewrite for ServerPost {
    ghost rewriting = { server_by };

    /// The limit of the reply is cleared.
    fn rewrite(&self, alloc: Global, reply: &mut AdditionalBuilder) -> Result<(), OutOfMemory> {
        put_cookie(alloc, &self.cookie, reply)?;
        self.opt.rewrite(alloc, reply)?;
        fit(alloc, self.limit, reply)
    }
}

impl<R: Rewrite> Rewrite for ServerRule<R> {
    ghost rewriting = { behind R.rewriting };

    fn rewrite(&self, alloc: Global, reply: &mut AdditionalBuilder) -> Result<(), OutOfMemory> {
        self.inner.rewrite(alloc, reply)?;
        self.post.rewrite(alloc, reply)
    }
}

/// Adds a cookie to a reply, if there is one.
fn put_cookie(
    alloc: Global,
    cookie: &Option<CookiePost>,
    reply: &mut AdditionalBuilder,
) -> Result<(), OutOfMemory>
    ensures { OnOk result (reply.new.message ≡ and_cookie cookie.now reply.old.message) }
{
    match cookie {
        Some(post) => post.rewrite(alloc, reply),
        None => Ok(()),
    }
}
