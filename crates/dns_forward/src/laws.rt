//! What holds of forwarders in the layers of a server.

ghost use Rattle.std.specs.Prelude.{◌≡◌, ℕ, List};
ghost use Rattle.dns_service.specs.Req.{Req};
ghost use Rattle.dns_layers.specs.declared.notice.Notice.{Notice};
ghost use Rattle.dns_events.specs.declared.settings.Settings.{Settings};
ghost use Rattle.dns_middleware.specs.Notify.{PolledVerdict};
ghost use Rattle.dns_middleware.specs.ReplyLaws.{IsResponseTo, ReplyHas};
ghost use Rattle.dns_middleware.specs.Wrapped.{replies};
ghost use Rattle.dns_route.specs.Relays.{relayed};
ghost use Rattle.dns_route.specs.Routes.{Route};
ghost use Rattle.dns_route.specs.Turns.{turned_over};
ghost use Rattle.dns_forward.specs.Forwarded.{Forwards, Upstream, answered_under, forwarded};

use dns_middleware::wrapped_replies_respond;
use dns_route::SingleService;

/// Each reply of a forwarder in the layers has the identifier of the request that it answers, and QR (RFC 1035, section 4.1.1),
/// whatever its upstreams answer.
pub fn forwarded_replies_respond()
    ensures { (us : List (Route Upstream)) (settings : Settings) (verdict : Notice → ℕ → PolledVerdict) (request : Req (Unit {0})) (k : ℕ)
        → ReplyHas (IsResponseTo request) (replies settings (turned_over (forwarded us)) verdict request k) }
{
    wrapped_replies_respond();
}

/// Services of one type stand for upstreams if they answer under their names as these are relayed: what a forwarder of them
/// answers is what is forwarded to these.
pub fn relaying_services_forward<S: SingleService>()
    ensures { (us : List (Route Upstream)) (rs : List (Route S)) → answered_under S.answer rs ≡ answered_under relayed us
        → Forwards S.answer us rs }
{}
