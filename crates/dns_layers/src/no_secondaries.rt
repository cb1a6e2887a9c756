//! A target for a server that is no secondary.

ghost use Rattle.std.specs.Prelude.{◌≡◌, Err};
ghost use Rattle.dns_service.specs.declared.service.Polled.TheVariants.{Ready};
ghost use Rattle.dns_layers.specs.declared.notifiable.NotifyError.TheVariants.{NotAuthForZone};

use crate::notifiable::{Notifiable, NotifyError, VerdictFuture};
use dns_base::{Class, IpAddr, Name, Serial};
use dns_service::{OutOfMemory, Polled};
use std::alloc::Global;

/// A server that is a secondary of no zone: a NOTIFY is answered NOTAUTH at once.
#[derive(Clone, Copy, Debug)]
pub struct NoSecondaries {}

impl Notifiable for NoSecondaries {
    type Future = NoSecondaries;

    ghost verdict = { λ _ _ _ _ _ _. Ready (Err NotAuthForZone) };

    fn notify_zone_changed(
        &self,
        _: Global,
        _: Class,
        _: &Name,
        _: Option<Serial>,
        _: IpAddr,
    ) -> Result<NoSecondaries, OutOfMemory> {
        Ok(NoSecondaries {})
    }
}

impl VerdictFuture for NoSecondaries {
    ghost verdict = { λ _ _. Ready (Err NotAuthForZone) };

    fn poll(&mut self, _: Global) -> Result<Polled<Result<(), NotifyError>>, OutOfMemory> {
        Ok(Polled::Ready(Err(NotifyError::NotAuthForZone)))
    }
}
