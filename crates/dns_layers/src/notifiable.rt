//! Who is told that a zone changed (RFC 1996).

ghost use Rattle.std.specs.Prelude.{◌≡◌, ℕ, suc, IfOk, Option, Result};
ghost use Rattle.std.specs.Arc.{arc_value};
ghost use Rattle.dns_name.specs.declared.name.Name.{Name};
ghost use Rattle.dns_name.specs.declared.address.IpAddr.{IpAddr};
ghost use Rattle.dns_name.specs.declared.serial.Serial.{Serial};
ghost use Rattle.dns_service.specs.Answer.{IfPending};
ghost use Rattle.dns_service.specs.declared.service.Polled.{Polled};
ghost use Rattle.dns_layers.specs.declared.notifiable.NotifyError.{NotifyError};

use dns_base::{Class, IpAddr, Name, Serial};
use dns_service::{OutOfMemory, Polled};
use std::alloc::Global;
use std::sync::Arc;

/// Why a change isn't taken.
#[derive(Clone, Copy, Debug, PartialEq, Eq)]
pub enum NotifyError {
    /// The target isn't authoritative for the zone: the reply is NOTAUTH.
    NotAuthForZone,
    /// Anything else: the reply is SERVFAIL.
    Other,
}

/// A verdict that may still have to come.
pub trait VerdictFuture: Drop {
    /// The verdict at poll k from now on.
    ghost verdict: { Self → ℕ → Polled (Result (Unit {0}) NotifyError) };

    /// A poll that is pending takes a verdict. What is answered after one that is ready is left open.
    fn poll(&mut self, alloc: Global) -> Result<Polled<Result<(), NotifyError>>, OutOfMemory>
        ensures now { IfOk result (λ p. p ≡ verdict self.old 0) }
        ensures later { IfOk result (IfPending ((k : ℕ) → verdict self.new k ≡ verdict self.old (suc k))) };
}

/// Is told of zones that changed (NOTIFY, RFC 1996), and gives a verdict on each, by its future.
pub trait Notifiable: Drop {
    type Future: VerdictFuture;

    /// The verdict at poll k, by class, name of the zone, serial if there is one, and sender.
    ghost verdict: { Self → ℕ → Name → Option Serial → IpAddr → ℕ → Polled (Result (Unit {0}) NotifyError) };

    fn notify_zone_changed(
        &self,
        alloc: Global,
        class: Class,
        apex_name: &Name,
        serial: Option<Serial>,
        source: IpAddr,
    ) -> Result<Self::Future, OutOfMemory>
        ensures { IfOk result (λ f. (k : ℕ) → Self.Future.verdict f k ≡ verdict self.now class apex_name.now serial source k) };
}

impl<T: Notifiable> Notifiable for Arc<T> {
    type Future = T::Future;

    ghost verdict = { λ a. T.verdict (arc_value a) };

    fn notify_zone_changed(
        &self,
        alloc: Global,
        class: Class,
        apex_name: &Name,
        serial: Option<Serial>,
        source: IpAddr,
    ) -> Result<T::Future, OutOfMemory> {
        let inner: &T = self;
        inner.notify_zone_changed(alloc, class, apex_name, serial, source)
    }
}
