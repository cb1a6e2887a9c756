//! The service inside the layers, made of a closure.

ghost use Rattle.std.specs.Prelude.{◌≡◌, IfOk};
ghost use Rattle.std.specs.Result.{ForOk};

use dns_service::{CallResult, Gives, OutOfMemory, Request, ServiceResult};
use std::alloc::Global;

/// The item that stands beside the closure, to any request.
pub(crate) struct AsPlanned {}

impl Gives<ServiceResult> for AsPlanned {
    ghost item = { λ _ item. item };
}

/// Answers with a copy of the item.
pub(crate) fn planned(
    alloc: Global,
    _request: &Request<()>,
    item: &ServiceResult,
) -> Result<ServiceResult, OutOfMemory>
    ensures { ForOk result (λ i. i ≡ item.now) }
{
    match item {
        Ok(given) => Ok(Ok(copied(alloc, given)?)),
        Err(error) => Ok(Err(*error)),
    }
}

/// A copy of a reply; there is none of a feedback.
fn copied(alloc: Global, given: &CallResult) -> Result<CallResult, OutOfMemory>
    ensures { IfOk result (λ copy. copy ≡ given.now) }
{
    match (given.response(), given.feedback()) {
        (Some(reply), None) => Ok(CallResult::new(reply.try_clone(alloc)?)),
        _ => Err(OutOfMemory),
    }
}
