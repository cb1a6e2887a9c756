//! A service that refuses each request.

ghost use Rattle.std.specs.Prelude.{◌≡◌, Some, None, Ok};
ghost use Rattle.std.specs.Result.{ForOk};
ghost use Rattle.dns_service.specs.ErrorReply.{error_reply};

use dns_name::{OptRcode, OutOfMemory, Rcode};
use dns_service::{CallResult, Gives, Request, ServiceResult, mk_error_response};
use std::alloc::Global;

/// What the service gives: the error reply to the request, with the code of a header that stands beside it.
pub struct Refusal {}

impl Gives<Rcode> for Refusal {
    ghost item = { λ request rcode. Ok (record { response = Some (error_reply request.octets rcode); feedback = None }) };
}

/// Answers a request with an error reply.
pub fn refuse(
    alloc: Global,
    request: &Request<()>,
    rcode: &Rcode,
) -> Result<ServiceResult, OutOfMemory>
    ensures { ForOk result (λ item. item ≡ Ok (record { response = Some (error_reply request.now.octets rcode.now); feedback = None })) }
{
    let reply = mk_error_response(alloc, request.message(), OptRcode::from(*rcode))?;
    Ok(Ok(CallResult::new(reply)))
}
