//! The rule by which the replies to one request are rewritten, as values that a caller may read and keep.

ghost use Rattle.std.specs.Prelude.{◌≡◌};
ghost use Rattle.dns_service.specs.Asked.{asked_of};
ghost use Rattle.dns_embed.specs.Embedded.{rewrite_by, rule_left};

use dns_base::AdditionalBuilder;
use dns_layers::{EdnsPost, MandatoryPost, Rewrite, read_request};
use dns_service::{OutOfMemory, Request};
use std::alloc::Global;

/// The rules of EDNS, if it is on, and then what each server does.
#[derive(Clone, Copy)]
pub struct ReplyRule {
    /// Whether EDNS is on.
    pub speaks_edns: bool,
    /// What EDNS makes of a reply.
    pub edns: EdnsPost,
    /// What each server makes of a reply.
    pub mandatory: MandatoryPost,
}

impl ReplyRule {
    /// The rule for the replies to a request, by the hint that it has.
    pub fn of(speaks_edns: bool, request: &Request<()>) -> ReplyRule
        ensures { result ≡ rule_left speaks_edns request.now.transport (asked_of request.now.octets) }
    {
        let asked = read_request(request);
        let transport = request.transport_ctx();
        ReplyRule {
            speaks_edns,
            edns: EdnsPost::new(&asked, transport),
            mandatory: MandatoryPost::new(&asked, transport, transport.hint()),
        }
    }
}

impl Rewrite for ReplyRule {
    ghost rewriting = { rewrite_by };

    fn rewrite(&self, alloc: Global, reply: &mut AdditionalBuilder) -> Result<(), OutOfMemory> {
        if self.speaks_edns {
            self.edns.rewrite(alloc, reply)?;
        }
        self.mandatory.rewrite(alloc, reply)
    }
}
