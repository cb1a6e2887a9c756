//! What is refused before a request is looked at for cookies and notices.

ghost use Rattle.std.specs.Prelude.{◌≡◌};
ghost use Rattle.dns_service.specs.Asked.{asked_of};
ghost use Rattle.dns_layers.specs.Refusals.{refusal_by, size_by};

use crate::edns::opt_refusal;
use crate::mandatory::mandatory_refusal;
use dns_name::OptRcode;
use dns_service::{Asked, Request, Settings, TransportSpecificContext, read_asked};

/// Why a request is refused: by what each server does, or by EDNS, whose rule its reply then goes through.
#[derive(Clone, Copy, Debug, PartialEq, Eq)]
pub enum Refusal {
    /// By what each server does: its reply goes through that rule alone.
    ByMandatory(OptRcode),
    /// By EDNS: its reply goes through the rule of EDNS too.
    ByEdns(OptRcode),
}

/// What is asked with a request.
#[inline(always)]
pub fn read_request<Meta>(request: &Request<Meta>) -> Asked
    ensures { result ≡ asked_of request.now.octets }
{
    read_asked(request.message())
}

/// Why what is asked over a transport is refused, if it is.
pub fn refusal_by(
    settings: &Settings,
    transport: &TransportSpecificContext,
    asked: &Asked,
) -> Option<Refusal>
    ensures { result ≡ refusal_by settings.now transport.now asked.now }
{
    if let Some(rcode) = mandatory_refusal(settings.strict, asked) {
        return Some(Refusal::ByMandatory(rcode));
    }
    if !settings.edns {
        return None;
    }
    match opt_refusal(transport.is_non_udp(), &asked.opt) {
        Some(rcode) => Some(Refusal::ByEdns(rcode)),
        None => None,
    }
}

/// The client's size, if EDNS is on.
pub fn size_by(settings: &Settings, asked: &Asked) -> Option<u16>
    ensures { result ≡ size_by settings.now asked.now }
{
    if settings.edns {
        asked.opt.client_size()
    } else {
        None
    }
}
