//! What the mandatory layer makes of a reply: it fits, and answers its request.

ghost use Rattle.std.specs.Prelude.{◌≡◌, ◌≤◌, ℕ, length, Option, OnOk, true};
ghost use Rattle.dns_base.specs.Msg.{Msg};
ghost use Rattle.dns_base.specs.Wire.{wire};
ghost use Rattle.dns_service.specs.Req.{Req};
ghost use Rattle.dns_service.specs.Transport.{limit};
ghost use Rattle.dns_layers.specs.Mandatory.{as_response, mand_by, mand_post, mand_rule};

use crate::rewrite::Rewrite;
use dns_base::AdditionalBuilder;
use dns_service::{Asked, TransportSpecificContext, cut_fits, fit, limit_over};
use dns_stream::OutOfMemory;
use std::alloc::Global;

/// How the replies to a request are made to fit its transport and to answer it.
#[derive(Clone, Copy, Debug)]
pub struct MandatoryPost {
    /// The identifier of the request.
    pub id: u16,
    /// The request's RD flag.
    pub rd: bool,
    /// How many octets a reply may take, if that is limited.
    pub limit: Option<u16>,
}

impl MandatoryPost {
    /// The rule for what is asked over a transport, if the hint is this one after the call.
    pub fn new(
        asked: &Asked,
        transport: &TransportSpecificContext,
        hint: Option<u16>,
    ) -> MandatoryPost
        ensures { result ≡ mand_rule transport.now (limit hint) asked.now }
    {
        MandatoryPost {
            id: asked.id,
            rd: asked.rd,
            limit: limit_over(transport, hint),
        }
    }
}

impl Rewrite for MandatoryPost {
    ghost rewriting = { mand_by };

    fn rewrite(&self, alloc: Global, reply: &mut AdditionalBuilder) -> Result<(), OutOfMemory> {
        fit(alloc, self.limit, reply)?;
        respond(self.id, self.rd, reply);
        Ok(())
    }
}

/// Makes a reply the response to a query of this identifier and RD.
fn respond(id: u16, rd: bool, reply: &mut AdditionalBuilder)
    ensures { reply.new.message ≡ as_response id rd reply.old.message }
{
    let mut header = reply.header();
    header.id = id;
    header.qr = true;
    header.rd = rd;
    reply.set_header(header);
}

/// A rewritten reply over UDP has no more octets than the hint allows, and 512 if the hint allows less.
pub fn replies_fit()
    ensures { (r : Req (Unit {0})) (before hint : Option ℕ) (m : Msg) → r.transport ≡ TransportSpecificContext.Udp before
        → length (wire (mand_post (limit hint) r m)) ≤ limit hint }
{
    cut_fits();
}
