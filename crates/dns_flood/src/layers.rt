//! A service in the layers of the settings.

ghost use Rattle.std.specs.Prelude.{◌≡◌, IfOk};
ghost use Rattle.dns_middleware.specs.Verdicts.{verdict_on};
ghost use Rattle.dns_middleware.specs.Wrapped.{hint_left, replies};

use dns_core::{Notifiable, Settings, wrap};
use dns_middleware::Wrapped;
use dns_name::OutOfMemory;
use dns_service::{Service, WithoutMeta};
use std::alloc::Global;

/// A service in the layers of the settings, where the target is told of changed zones, to be served.
pub fn layered<S: Service<()>, N: Notifiable>(
    alloc: Global,
    settings: &Settings,
    service: S,
    target: N,
) -> Result<WithoutMeta<Wrapped<S, N>>, OutOfMemory>
    ensures can_call { IfOk result (λ p. S.can_call service → ⟦<Wrapped<S, N> as Service<()>>⟧.can_call p.service) }
    ensures replies { IfOk result (λ p. ⟦<Wrapped<S, N> as Service<()>>⟧.answer p.service
        ≡ replies settings.now (S.answer service) (verdict_on (N.verdict target))) }
    ensures hint { IfOk result (λ p. ⟦<Wrapped<S, N> as Service<()>>⟧.hint p.service ≡ hint_left settings.now) }
{
    match wrap(alloc, settings, service, target) {
        Ok(service) => Ok(WithoutMeta { service }),
        Err(error) => Err(error),
    }
}
