//! A stream and a future that are pending some times, and a mapping to one error.

ghost use Rattle.std.specs.Prelude.{◌-◌, Err, None, Some, nat_lt, if◌then◌else◌};
ghost use Rattle.dns_service.specs.declared.service.Polled.TheVariants.{Pending};
ghost use Rattle.dns_service.specs.declared.service.ServiceError.TheVariants.{NotImplemented};
ghost use Rattle.dns_service.specs.Once.{once_of, items_left, now_of};

use dns_service::{Polled, ReplyFuture, ReplyStream, Request, ServiceError, ServiceResult};
use dns_stream::{OutOfMemory, Postprocess};
use std::alloc::Global;

/// A stream that is pending some times, gives an item and ends.
#[derive(Drop)]
pub(crate) struct Slow {
    pub(crate) waits: u8,
    pub(crate) item: Option<ServiceResult>,
}

impl ReplyStream for Slow {
    ghost answer = { λ s k. if nat_lt k s.waits then Pending else once_of s.item (k - s.waits) };

    ghost size = { λ s. (items_left s.item, None) };

    fn poll_next(&mut self, _alloc: Global) -> Result<Polled<Option<ServiceResult>>, OutOfMemory> {
        match self.waits.checked_sub(1) {
            Some(waits) => {
                self.waits = waits;
                Ok(Polled::Pending)
            }
            None => Ok(Polled::Ready(self.item.take())),
        }
    }

    fn size_hint(&self) -> (usize, Option<usize>) {
        match &self.item {
            Some(_) => (1, None),
            None => (0, None),
        }
    }
}

/// A future that is pending some times, and then gives a stream.
#[derive(Drop)]
pub(crate) struct Later<S> {
    pub(crate) waits: u8,
    pub(crate) stream: Option<S>,
}

impl<S: ReplyStream> ReplyFuture for Later<S> {
    type Stream = S;

    ghost answer = { λ s k. if nat_lt k s.waits then Pending else now_of S.answer s.stream (k - s.waits) };

    fn poll(&mut self, _alloc: Global) -> Result<Polled<S>, OutOfMemory> {
        match self.waits.checked_sub(1) {
            Some(waits) => {
                self.waits = waits;
                Ok(Polled::Pending)
            }
            None => match self.stream.take() {
                Some(stream) => Ok(Polled::Ready(stream)),
                None => Ok(Polled::Pending),
            },
        }
    }
}

/// Makes each item the same error.
#[derive(Drop)]
pub(crate) struct SameError {}

impl Postprocess<()> for SameError {
    ghost post = { λ _ _ _. Err NotImplemented };

    fn map(
        &self,
        _alloc: Global,
        _request: &Request<()>,
        _item: ServiceResult,
    ) -> Result<ServiceResult, OutOfMemory> {
        Ok(Err(ServiceError::NotImplemented))
    }
}
