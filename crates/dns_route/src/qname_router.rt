//! A router of requests by the name of their question.

ghost use Rattle.std.specs.Prelude.{◌≡◌, ◌++◌, ◌∷◌, [], IfOk, Ok, OnOk, OnErr};
ghost use Rattle.std.specs.Option.{option_copied};
ghost use Rattle.dns_service.specs.declared.service.Polled.TheVariants.{Ready};
ghost use Rattle.dns_route.specs.OwnReplies.{error_state, explained, no_upstream};
ghost use Rattle.dns_route.specs.Routes.{chosen, routed, served_by};

use crate::own_reply::{error_begun, no_service};
use crate::single_service::{SingleService, Turned};
use dns_base::Message;
use dns_name::{Name, OptRcode, ParsedName};
use dns_routes::{Routes, Seed};
use dns_service::{OutOfMemory, Polled, Request};
use std::alloc::Global;
use std::hash::RandomState;
use std::marker::Model;

/// Asks the service whose name ends the question's, up to ASCII case: of several the one with the most labels, and of
/// those of one name the one that was added last. Contracts see the names and their services in the order in which
/// they were added.
#[derive(Drop)]
pub struct QnameRouter<S> {
    routes: Routes<S>,
}

impl<S> Model for QnameRouter<S> {
    ghost use Rattle.std.specs.Prelude.{List, ℕ};

    ghost Value = { List (List (List ℕ) × S) };

    ghost view = { λ r. r.routes };
}

impl<S: SingleService> QnameRouter<S> {
    /// A router that has no service. Names are hashed from a fixed seed: if strangers choose names that are added,
    /// `new_with_seed` is the call to take.
    pub fn new(alloc: Global) -> Self
        ensures { result ≡ [] }
    {
        QnameRouter {
            routes: Routes::new(alloc, Seed::fixed()),
        }
    }

    /// A router without services whose names are hashed from a random state. `RandomState::new(&rt)` gives one. Nobody
    /// can then pick names whose hashes collide.
    pub fn new_with_seed(alloc: Global, seed: RandomState) -> Self
        ensures { result ≡ [] }
    {
        QnameRouter {
            routes: Routes::new(alloc, Seed::random(seed)),
        }
    }

    /// Adds a service under a name, after those that were added before. A refused call leaves the router.
    pub fn add(&mut self, alloc: Global, name: Name, service: S) -> Result<(), OutOfMemory>
        ensures ok { OnOk result (self.new ≡ self.old ++ (name, service) ∷ []) }
        ensures err { OnErr result (self.new ≡ self.old) }
    {
        self.routes.add(alloc, name, service)
    }

    /// The service for a name.
    fn service_for(&self, alloc: Global, name: &ParsedName<'_>) -> Result<Option<&S>, OutOfMemory>
        ensures { IfOk result (λ s. option_copied s ≡ chosen name.now self.now) }
    {
        self.routes.for_name(alloc, name)
    }

    /// Turn k of a request whose question has a name.
    fn turn_for(
        &self,
        alloc: Global,
        request: &Request<()>,
        name: &ParsedName<'_>,
        k: u64,
    ) -> Result<Turned, OutOfMemory>
        ensures { IfOk result (λ p. p ≡ served_by S.answer request.now k (chosen name.now self.now)) }
    {
        match self.service_for(alloc, name)? {
            Some(service) => service.turn(alloc, request, k),
            None => unserved(alloc, request.message()),
        }
    }
}

impl<S: SingleService> SingleService for QnameRouter<S> {
    ghost answer = { routed S.answer };

    /// The turn of the service that is chosen. Without a readable question the reply is FORMERR; without a service for
    /// it SERVFAIL, with an extended error that says so.
    fn turn(&self, alloc: Global, request: &Request<()>, k: u64) -> Result<Turned, OutOfMemory> {
        match request.message().first_question() {
            Some(question) => self.turn_for(alloc, request, &question.qname(), k),
            None => unreadable(alloc, request.message()),
        }
    }
}

/// FORMERR, since a query has no readable question.
fn unreadable(alloc: Global, query: &Message) -> Result<Turned, OutOfMemory>
    ensures { IfOk result (λ p. p ≡ Ready (Ok (error_state query.now 1))) }
{
    let reply = error_begun(alloc, query, OptRcode::FORMERR)?;
    Ok(Polled::Ready(Ok(reply)))
}

/// SERVFAIL, since there is no service for a query's name.
fn unserved(alloc: Global, query: &Message) -> Result<Turned, OutOfMemory>
    ensures { IfOk result (λ p. p ≡ Ready (Ok (explained query.now no_upstream))) }
{
    let reply = no_service(alloc, query)?;
    Ok(Polled::Ready(Ok(reply)))
}
