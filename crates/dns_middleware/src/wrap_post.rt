//! How the replies of the service in its layers are rewritten, each once and in place.

ghost use Rattle.std.specs.Prelude.{◌≡◌, IfOk, OnOk};
ghost use Rattle.dns_service.specs.Transport.{limit};
ghost use Rattle.dns_middleware.specs.WrappedStreams.{refused_reply, wrap_by, wrap_rule};

use dns_base::{AdditionalBuilder, Message};
use dns_layers::{EdnsPost, MandatoryPost, Refusal, Rewrite, refuse};
use dns_service::{Asked, OutOfMemory, TransportSpecificContext};
use std::alloc::Global;

/// The rules of EDNS, if it is on, and then what each server does.
#[derive(Clone, Copy, Debug)]
pub struct WrapPost {
    speaks_edns: bool,
    edns: EdnsPost,
    mandatory: MandatoryPost,
}

impl WrapPost {
    /// The rule for what is asked over a transport, if the hint is this one after the call.
    pub fn new(
        speaks_edns: bool,
        asked: &Asked,
        transport: &TransportSpecificContext,
        hint: Option<u16>,
    ) -> WrapPost
        ensures { result ≡ wrap_rule speaks_edns transport.now (limit hint) asked.now }
    {
        WrapPost {
            speaks_edns,
            edns: EdnsPost::new(asked, transport),
            mandatory: MandatoryPost::new(asked, transport, hint),
        }
    }

    /// The reply to a message that is refused.
    pub fn refuse(
        &self,
        alloc: Global,
        request: &Message,
        refused: Refusal,
    ) -> Result<AdditionalBuilder, OutOfMemory>
        ensures { IfOk result (λ b. b.message ≡ refused_reply self.now request.now refused) }
    {
        match refused {
            Refusal::ByMandatory(rcode) => refuse(&self.mandatory, alloc, request, rcode),
            Refusal::ByEdns(rcode) => refuse(self, alloc, request, rcode),
        }
    }
}

impl Rewrite for WrapPost {
    ghost rewriting = { wrap_by };

    #[inline(always)]
    fn rewrite(&self, alloc: Global, reply: &mut AdditionalBuilder) -> Result<(), OutOfMemory> {
        if self.speaks_edns {
            self.edns.rewrite(alloc, reply)?;
        }
        self.mandatory.rewrite(alloc, reply)
    }
}
