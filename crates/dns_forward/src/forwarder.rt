//! A service that forwards requests to the upstreams of their names.

ghost use Rattle.std.specs.Prelude.{◌≡◌, ◌++◌, ◌∷◌, [], List, OnOk, OnErr};
ghost use Rattle.dns_route.specs.Relays.{relayed};
ghost use Rattle.dns_route.specs.Routes.{Route, routed};
ghost use Rattle.dns_forward.specs.Forwarded.{Forwards, Upstream};

use crate::box_transport::BoxClientTransport;
use dns_name::Name;
use dns_route::{ClientTransportToSingleService, QnameRouter, SendRequest, SingleService, Turned};
use dns_service::{OutOfMemory, Request};
use std::alloc::Global;
use std::hash::RandomState;
use std::marker::Model;

/// A single service over a transport in a box.
type Relay = ClientTransportToSingleService<BoxClientTransport>;

/// Forwards each request to the upstream whose name ends the question's, up to ASCII case: of several the one with the most
/// labels, and of those of one name the one that was added last.
pub type Forwarder = Forwarding<ClientTransportToSingleService<BoxClientTransport>>;

/// A forwarder to services of one type, each of which asks an upstream. Contracts see their names and the services in the order
/// in which they were added.
#[derive(Drop)]
pub struct Forwarding<S> {
    router: QnameRouter<S>,
}

impl<S> Model for Forwarding<S> {
    ghost use Rattle.std.specs.Prelude.{List};
    ghost use Rattle.dns_route.specs.Routes.{Route};

    ghost Value = { List (Route S) };

    ghost view = { λ f. f.router };
}

impl<S: SingleService> Forwarding<S> {
    /// A forwarder that has no upstream.
    pub fn new(alloc: Global) -> Self
        ensures empty { result ≡ [] }
        ensures forwards { Forwards S.answer [] result }
    {
        Forwarding {
            router: QnameRouter::new(alloc),
        }
    }

    /// A forwarder without upstreams, where names are hashed from a random state, as `RandomState::new(&rt)` gives.
    pub fn new_with_seed(alloc: Global, seed: RandomState) -> Self
        ensures empty { result ≡ [] }
        ensures forwards { Forwards S.answer [] result }
    {
        Forwarding {
            router: QnameRouter::new_with_seed(alloc, seed),
        }
    }

    /// Adds a service under a name, after those that were added before. A refused call leaves the forwarder.
    pub fn add_service(&mut self, alloc: Global, name: Name, service: S) -> Result<(), OutOfMemory>
        ensures ok { OnOk result (self.new ≡ self.old ++ (name, service) ∷ []) }
        ensures forwards { (us : List (Route Upstream)) (u : Upstream) → S.answer service ≡ relayed u → Forwards S.answer us self.old
            → OnOk result (Forwards S.answer (us ++ (name, u) ∷ []) self.new) }
        ensures err { OnErr result (self.new ≡ self.old) }
    {
        self.router.add(alloc, name, service)
    }
}

impl Forwarding<ClientTransportToSingleService<BoxClientTransport>> {
    /// Adds an upstream under a name, after those that were added before. A refused call leaves the forwarder.
    pub fn add(
        &mut self,
        alloc: Global,
        name: Name,
        upstream: Box<dyn SendRequest + Send + Sync>,
    ) -> Result<(), OutOfMemory>
        ensures ok { (us : List (Route Upstream)) → Forwards ⟦<Relay as SingleService>⟧.answer us self.old
            → OnOk result (Forwards ⟦<Relay as SingleService>⟧.answer
            (us ++ (name, (SendRequest-box upstream).answer upstream.value) ∷ []) self.new) }
        ensures err { OnErr result (self.new ≡ self.old) }
    {
        let relay = ClientTransportToSingleService::new(BoxClientTransport { conn: upstream });
        self.add_service(alloc, name, relay)
    }
}

impl<S: SingleService> SingleService for Forwarding<S> {
    ghost answer = { routed S.answer };

    /// The turn by the upstream that is chosen. Without a readable question the reply is FORMERR, and without an upstream for it
    /// SERVFAIL, with an extended error that says so.
    fn turn(&self, alloc: Global, request: &Request<()>, k: u64) -> Result<Turned, OutOfMemory> {
        self.router.turn(alloc, request, k)
    }
}
