//! The layer for requests without EDNS.

ghost use Rattle.std.specs.Prelude.{◌≡◌, IfOk, OnErr};
ghost use Rattle.dns_service.specs.declared.message.Request.{Request};
ghost use Rattle.dns_layers.specs.Calls.{AnswersAs, LeavesHint};
ghost use Rattle.dns_udp_size.specs.UdpSizes.{classic, classic_hint, classic_size, size_of};

use dns_layers::{call_passed, read_request};
use dns_service::{AskedOpt, OutOfMemory, Request, Service};
use std::alloc::Global;

/// How many octets a message over UDP has at most without EDNS (RFC 1035, section 4.2.1).
const CLASSIC_SIZE: u16 = 512;

/// A service whose replies over UDP to requests without an OPT record are to have at most 512 octets.
#[derive(Drop)]
pub struct ClassicUdpSize<S> {
    next: S,
}

impl<S> ClassicUdpSize<S> {
    /// Round a service, whose replies keep to the hint of a request.
    pub fn new(next: S) -> Self
        ensures { result ≡ record { next = next } }
    {
        ClassicUdpSize { next }
    }
}

/// The size by which a request is passed on.
fn classic_size(opt: &AskedOpt) -> Option<u16>
    ensures { result ≡ classic_size opt.now }
{
    if opt.has_item() {
        return None;
    }
    Some(CLASSIC_SIZE)
}

/// The size by which a request is passed on, by what is read of it.
fn size_of<Meta>(request: &Request<Meta>) -> Option<u16>
    ensures { result ≡ size_of request.now }
{
    let asked = read_request(request);
    classic_size(&asked.opt)
}

impl<S, Meta> Service<Meta> for ClassicUdpSize<S>
where
    S: Service<Meta>,
{
    type Stream = S::Stream;

    type Future = S::Future;

    ghost answer = { λ s. classic (S.answer s.next) };

    ghost hint = { λ _. classic_hint };

    ghost can_call = { λ s. S.can_call s.next };

    fn call(&self, alloc: Global, request: &mut Request<Meta>) -> Result<S::Future, OutOfMemory> {
        let size = size_of(request);
        call_passed(alloc, &self.next, size, request)
    }
}
