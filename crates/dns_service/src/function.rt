//! A service that is made of a closure.

ghost use Rattle.std.specs.Prelude.{◌≡◌, ℕ};
ghost use Rattle.std.specs.Result.{ForOk};
ghost use Rattle.dns_service.specs.declared.message.Request.{Request};
ghost use Rattle.dns_service.specs.Answer.{Item};
ghost use Rattle.dns_service.specs.Req.{hint_at_entry};
ghost use Rattle.dns_service.specs.ServiceFn.{answers_once};

use crate::message::Request;
use crate::once::{Now, Once};
use crate::service::{Service, ServiceResult};
use dns_name::OutOfMemory;
use std::alloc::Global;
use std::marker::PhantomData;

/// What a closure answers. The caller's type that has it holds no value: it names the function.
pub trait Gives<Metadata> {
    /// The item of a request, by the metadata that stand beside the closure.
    ghost item: { Request (Unit {0}) → Metadata → Item };
}

/// A service by a closure, which is called once a request and answers at once.
#[derive(Drop)]
pub struct ServiceFn<G, T, Metadata> {
    closure: T,
    metadata: Metadata,
    gives: PhantomData<G>,
}

/// Makes a service of a closure and of metadata that each call is lent.
pub fn service_fn<G, T, Metadata>(closure: T, metadata: Metadata) -> ServiceFn<G, T, Metadata>
where
    G: Gives<Metadata>,
    T: Fn(Global, &Request<()>, &Metadata) -> Result<ServiceResult, OutOfMemory> + Drop,
    Metadata: Drop,
    requires callable { T.IsAlwaysCallable closure }
    requires gives_item { (alloc : _) (r : _) (m : _) (x : _) → T.post closure alloc r m x → ForOk x (λ i. i ≡ G.item r.now m.now) }
    ensures can_call { ⟦<ServiceFn<G, T, Metadata> as Service<()>>⟧.can_call result }
    ensures answers { ⟦<ServiceFn<G, T, Metadata> as Service<()>>⟧.answer result ≡ answers_once G.item metadata }
    ensures hint { ⟦<ServiceFn<G, T, Metadata> as Service<()>>⟧.hint result ≡ hint_at_entry }
{
    ServiceFn {
        closure,
        metadata,
        gives: PhantomData,
    }
}

impl<G, T, Metadata> ServiceFn<G, T, Metadata>
where
    G: Gives<Metadata>,
    T: Fn(Global, &Request<()>, &Metadata) -> Result<ServiceResult, OutOfMemory> + Drop,
    Metadata: Drop,
{
    fn item(&self, alloc: Global, request: &Request<()>) -> Result<ServiceResult, OutOfMemory>
        requires { ⟦<ServiceFn<G, T, Metadata> as Service<()>>⟧.can_call self.now }
        ensures { ForOk result (λ i. i ≡ G.item request.now self.now.metadata) }
    {
        (self.closure)(alloc, request, &self.metadata)
    }
}

impl<G, T, Metadata> Service<()> for ServiceFn<G, T, Metadata>
where
    G: Gives<Metadata>,
    T: Fn(Global, &Request<()>, &Metadata) -> Result<ServiceResult, OutOfMemory> + Drop,
    Metadata: Drop,
{
    type Stream = Once;

    type Future = Now<Once>;

    ghost answer = { λ s. answers_once G.item s.metadata };

    ghost hint = { λ _. hint_at_entry };

    ghost can_call = { λ s. T.IsAlwaysCallable s.closure
        × ((alloc : _) (r : _) (m : _) (x : _) → T.post s.closure alloc r m x → ForOk x (λ i. i ≡ G.item r.now m.now)) };

    fn call(&self, alloc: Global, request: &mut Request<()>) -> Result<Now<Once>, OutOfMemory> {
        let item = self.item(alloc, request)?;
        Ok(Now::new(Once::new(item)))
    }
}
