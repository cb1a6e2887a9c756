//! A target of NOTIFY whose verdict is known before it is asked.

ghost use Rattle.std.specs.Prelude.{◌≡◌};
ghost use Rattle.dns_service.specs.declared.service.Polled.TheVariants.{Ready};

use dns_base::{Class, IpAddr, Name, OutOfMemory, Serial};
use dns_layers::{Notifiable, NotifyError, VerdictFuture};
use dns_service::Polled;
use std::alloc::Global;

/// The verdict on each change of a zone (RFC 1996).
#[derive(Clone, Copy)]
pub struct KnownVerdict {
    /// Why the change isn't taken, if it isn't.
    pub verdict: Result<(), NotifyError>,
}

impl Notifiable for KnownVerdict {
    type Future = KnownVerdict;

    ghost verdict = { λ g _ _ _ _ _. Ready g.verdict };

    fn notify_zone_changed(
        &self,
        _: Global,
        _: Class,
        _: &Name,
        _: Option<Serial>,
        _: IpAddr,
    ) -> Result<KnownVerdict, OutOfMemory> {
        Ok(*self)
    }
}

impl VerdictFuture for KnownVerdict {
    ghost verdict = { λ g _. Ready g.verdict };

    fn poll(&mut self, _: Global) -> Result<Polled<Result<(), NotifyError>>, OutOfMemory> {
        Ok(Polled::Ready(self.verdict))
    }
}
