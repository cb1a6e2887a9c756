//! The layer that gives replies the identifier of the server.

ghost use Rattle.std.specs.Prelude.{◌≡◌, IfOk};
ghost use Rattle.dns_opt.specs.OptRecords.{opt_of};
ghost use Rattle.dns_reply_options.specs.Nsids.{asks_nsid, nsid_for, nsids};

use crate::nsid_post::NsidPost;
use dns_opt::{MessageOpt, Nsid};
use dns_rewriting::{RewrittenFuture, RewrittenStream, call_rewritten};
use dns_service::{OutOfMemory, Request, Service};
use std::alloc::Global;

/// A service whose replies to requests that ask for it carry the identifier of the server, if it has one (RFC 5001).
#[derive(Drop)]
pub struct NsidSvc<S> {
    next: S,
    nsid: Option<Nsid>,
}

impl<S> NsidSvc<S> {
    /// Round a service, with the identifier of the server, if it has one.
    pub fn new(next: S, nsid: Option<Nsid>) -> Self
        ensures { result ≡ record { next = next; nsid = nsid } }
    {
        NsidSvc { next, nsid }
    }
}

impl<S, Meta> Service<Meta> for NsidSvc<S>
where
    S: Service<Meta>,
{
    type Stream = RewrittenStream<S::Stream, NsidPost>;

    type Future = RewrittenFuture<S::Future, NsidPost>;

    ghost answer = { λ s. nsids s.nsid (S.answer s.next) (S.hint s.next) };

    ghost hint = { λ s. S.hint s.next };

    ghost can_call = { λ s. S.can_call s.next };

    fn call(
        &self,
        alloc: Global,
        request: &mut Request<Meta>,
    ) -> Result<RewrittenFuture<S::Future, NsidPost>, OutOfMemory> {
        let nsid = nsid_for(alloc, &self.nsid, request)?;
        call_rewritten(alloc, &self.next, request, nsid)
    }
}

/// Whether a request asks for the identifier.
fn asks_nsid<Meta>(request: &Request<Meta>) -> bool
    ensures { result ≡ asks_nsid (opt_of request.now.octets) }
{
    match request.message().opt() {
        Some(opt) => opt.opt().nsid().is_some(),
        None => false,
    }
}

/// The identifier of the replies to a request.
fn nsid_for<Meta>(
    alloc: Global,
    nsid: &Option<Nsid>,
    request: &Request<Meta>,
) -> Result<Option<Nsid>, OutOfMemory>
    ensures { IfOk result (λ found. found ≡ nsid_for nsid.now request.now) }
{
    if !asks_nsid(request) {
        return Ok(None);
    }
    match nsid {
        Some(nsid) => Ok(Some(nsid.for_slice().to_owned(alloc)?)),
        None => Ok(None),
    }
}
