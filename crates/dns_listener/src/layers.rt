//! The service of a listener, layer by layer: each is put round by a function of its own, which is generic in what is inside.

ghost use Rattle.std.specs.Prelude.{◌≡◌, unwrap_or};
ghost use Rattle.std.specs.Arc.{arc_value};
ghost use Rattle.dns_listener.specs.Listeners.{GivesBack};

use crate::listener::Listener;
use crate::place::{Place, serve_at};
use dns_key_access::{KeyAccess, KeyAccessSvc};
use dns_middleware::{Notifiable, Settings, wrap};
use dns_opt::Nsid;
use dns_own_opt::OwnOptSvc;
use dns_reply_counts::{CountingSvc, ReplyCounts};
use dns_reply_options::{NsidSvc, ServerCookieSvc};
use dns_secondary_service::Withholding;
use dns_service::{Service, WithoutMeta};
use dns_signing::{KeyStore, TsigMiddlewareSvc};
use dns_transfer_notes::{NotingSvc, TransferNotes};
use dns_udp_size::ClassicUdpSize;
use dns_workers::HostEnd;
use std::alloc::Global;
use std::rt::Clock;
use std::sync::{Arc, Wait};
use std::thread::Threads;

/// How many octets the server takes over UDP if the settings say nothing.
const UDP_SIZE: u16 = 1_232;

/// How many octets the MAC of a request has at least: those of the shortest whole one (RFC 8945, section 5.2.4).
const LEAST_MAC: usize = 20;

/// How many seconds the clock of a client may differ from that of a reply (RFC 8945, section 10).
const FUDGE: u16 = 300;

/// How many octets the server takes over UDP.
fn udp_size(settings: &Settings) -> u16
    ensures { result ≡ unwrap_or settings.now.dgram.max_response_size 1232 }
{
    match settings.dgram.max_response_size() {
        Some(size) => size,
        None => UDP_SIZE,
    }
}

/// What counts the replies and notes the transfers of a listener.
#[derive(Drop)]
pub struct Tally {
    pub(crate) counts: Arc<ReplyCounts>,
    pub(crate) notes: Arc<TransferNotes>,
}

/// The keys that requests are verified under, and what wants one.
#[derive(Drop)]
pub struct KeyRules {
    pub keys: KeyStore,
    pub access: Arc<KeyAccess>,
}

/// What the outer layers need.
#[derive(Drop)]
pub(crate) struct Outside {
    pub(crate) tally: Tally,
    pub(crate) rules: KeyRules,
}

/// Serves with the replies counted.
fn serve_counted<
    R: Clock + Threads + Wait + Copy + Send + Sync + 'static,
    S: Service<()> + Send + Sync + 'static,
>(
    rt: R,
    alloc: Global,
    place: Place<R>,
    counts: Arc<ReplyCounts>,
    service: S,
) -> (Listener<R>, HostEnd)
where
    S::Future: Send,
    S::Stream: Send,
    requires { S.can_call service }
    ensures { GivesBack place.listener result.0 }
{
    let service = CountingSvc::new(service, counts);
    serve_at(rt, alloc, place, WithoutMeta { service })
}

/// Serves with the transfers noted.
fn serve_noted<
    R: Clock + Threads + Wait + Copy + Send + Sync + 'static,
    S: Service<()> + Send + Sync + 'static,
>(rt: R, alloc: Global, place: Place<R>, tally: Tally, service: S) -> (Listener<R>, HostEnd)
where
    S::Future: Send,
    S::Stream: Send,
    requires { S.can_call service }
    ensures { GivesBack place.listener result.0 }
{
    let Tally { counts, notes } = tally;
    serve_counted(rt, alloc, place, counts, NotingSvc::new(rt, service, notes))
}

/// Serves with at most 512 octets over UDP without EDNS (RFC 1035, section 4.2.1).
fn serve_sized<
    R: Clock + Threads + Wait + Copy + Send + Sync + 'static,
    S: Service<()> + Send + Sync + 'static,
>(rt: R, alloc: Global, place: Place<R>, tally: Tally, service: S) -> (Listener<R>, HostEnd)
where
    S::Future: Send,
    S::Stream: Send,
    requires { S.can_call service }
    ensures { GivesBack place.listener result.0 }
{
    serve_noted(rt, alloc, place, tally, ClassicUdpSize::new(service))
}

/// Serves with requests that are verified and replies that are signed, if they have a TSIG (RFC 8945).
fn serve_signed<
    R: Clock + Threads + Wait + Copy + Send + Sync + 'static,
    S: Service<Option<usize>> + Send + Sync + 'static,
>(
    rt: R,
    alloc: Global,
    place: Place<R>,
    tally: Tally,
    keys: KeyStore,
    service: S,
) -> (Listener<R>, HostEnd)
where
    S::Future: Send,
    S::Stream: Send,
    requires { S.can_call service }
    ensures { GivesBack place.listener result.0 }
{
    let service = TsigMiddlewareSvc::new(service, keys, LEAST_MAC, FUDGE);
    serve_sized(rt, alloc, place, tally, service)
}

/// Serves with transfers and NOTIFYs that are refused without the key that they want.
fn serve_judged<
    R: Clock + Threads + Wait + Copy + Send + Sync + 'static,
    S: Service<()> + Send + Sync + 'static,
>(rt: R, alloc: Global, place: Place<R>, outside: Outside, service: S) -> (Listener<R>, HostEnd)
where
    S::Future: Send,
    S::Stream: Send,
    requires { S.can_call service }
    ensures { GivesBack place.listener result.0 }
{
    let Outside { tally, rules } = outside;
    let KeyRules { keys, access } = rules;
    let service = KeyAccessSvc::new(service, access);
    serve_signed(rt, alloc, place, tally, keys, service)
}

/// Serves with OPT records that state the server's own size and the request's DO (RFC 6891, section 6.2.3; RFC 3225, section 3).
fn serve_stating<
    R: Clock + Threads + Wait + Copy + Send + Sync + 'static,
    S: Service<()> + Send + Sync + 'static,
>(
    rt: R,
    alloc: Global,
    place: Place<R>,
    outside: Outside,
    service: S,
    size: u16,
) -> (Listener<R>, HostEnd)
where
    S::Future: Send,
    S::Stream: Send,
    requires { S.can_call service }
    ensures { GivesBack place.listener result.0 }
{
    serve_judged(rt, alloc, place, outside, OwnOptSvc::new(service, size))
}

/// Serves with the identifier of the server if it is asked for (RFC 5001).
fn serve_identified<
    R: Clock + Threads + Wait + Copy + Send + Sync + 'static,
    S: Service<()> + Send + Sync + 'static,
>(
    rt: R,
    alloc: Global,
    place: Place<R>,
    outside: Outside,
    service: S,
    size: u16,
    nsid: Option<Nsid>,
) -> (Listener<R>, HostEnd)
where
    S::Future: Send,
    S::Stream: Send,
    requires { S.can_call service }
    ensures { GivesBack place.listener result.0 }
{
    serve_stating(rt, alloc, place, outside, NsidSvc::new(service, nsid), size)
}

/// Serves with a server cookie in each reply to a request with a client cookie, if there is a secret (RFC 7873, section 5.2).
fn serve_with_cookies<
    R: Clock + Threads + Wait + Copy + Send + Sync + 'static,
    S: Service<()> + Send + Sync + 'static,
>(
    rt: R,
    alloc: Global,
    place: Place<R>,
    outside: Outside,
    settings: &Settings,
    nsid: Option<Nsid>,
    service: S,
) -> (Listener<R>, HostEnd)
where
    S::Future: Send,
    S::Stream: Send,
    requires { S.can_call service }
    ensures { GivesBack place.listener result.0 }
{
    let service = ServerCookieSvc::new(service, settings.cookies);
    serve_identified(rt, alloc, place, outside, service, udp_size(settings), nsid)
}

/// Serves by a service in the layers of the settings, and the target of NOTIFY.
fn serve_wrapped<
    R: Clock + Threads + Wait + Copy + Send + Sync + 'static,
    S: Service<()> + Send + Sync + 'static,
    N: Notifiable + Send + Sync + 'static,
>(
    rt: R,
    alloc: Global,
    place: Place<R>,
    outside: Outside,
    settings: &Settings,
    nsid: Option<Nsid>,
    service: S,
    target: N,
) -> (Listener<R>, HostEnd)
where
    S::Future: Send,
    S::Stream: Send,
    N::Future: Send,
    requires { S.can_call service }
    ensures { GivesBack place.listener result.0 }
{
    match wrap(alloc, settings, service, target) {
        Ok(wrapped) => serve_with_cookies(rt, alloc, place, outside, settings, nsid, wrapped),
        Err(_) => place.give_up(rt),
    }
}

/// Serves by a service behind zones that have no data, in all layers.
pub(crate) fn serve_zones<
    R: Clock + Threads + Wait + Copy + Send + Sync + 'static,
    S: Service<()> + Send + Sync + 'static,
    N: Notifiable + Send + Sync + 'static,
>(
    rt: R,
    alloc: Global,
    place: Place<R>,
    outside: Outside,
    settings: &Settings,
    nsid: Option<Nsid>,
    service: Arc<Withholding<S>>,
    target: N,
) -> (Listener<R>, HostEnd)
where
    S::Future: Send,
    S::Stream: Send,
    N::Future: Send,
    requires { ⟦<Withholding<S> as Service<()>>⟧.can_call (arc_value service) }
    ensures { GivesBack place.listener result.0 }
{
    serve_wrapped(rt, alloc, place, outside, settings, nsid, service, target)
}
