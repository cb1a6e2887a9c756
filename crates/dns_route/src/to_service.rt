//! A service that is made of a single one.

ghost use Rattle.std.specs.Prelude.{◌≡◌, Err, IfOk};
ghost use Rattle.std.specs.Arc.{arc_value};
ghost use Rattle.dns_service.specs.Once.{once};
ghost use Rattle.dns_service.specs.declared.service.ServiceError.TheVariants.{InternalError};
ghost use Rattle.dns_service.specs.Req.{hint_at_entry};
ghost use Rattle.dns_route.specs.ReplyMessage.{reply_message};
ghost use Rattle.dns_route.specs.Turns.{built_item, turn_item, turned_over, turns_answer};

use crate::reply::ReplyMessage;
use crate::single_service::SingleService;
use dns_service::{
    CallResult, Once, OutOfMemory, Polled, ReplyError, ReplyFuture, ReplyStream, Request, Service,
    ServiceError, ServiceResult,
};
use std::alloc::Global;
use std::sync::Arc;

/// A single service as a service: it is pending as the turns are, gives one item and ends. The item is InternalError if a turn gave
/// an error or the reply couldn't be built. So it is if the turn of the last number was pending.
#[derive(Drop)]
pub struct SingleServiceToService<S> {
    service: Arc<S>,
}

impl<S: SingleService> SingleServiceToService<S> {
    /// Over a single service, which may be shared.
    pub fn new(service: Arc<S>) -> Self
        ensures answers { ⟦<SingleServiceToService<S> as Service<()>>⟧.answer result ≡ turned_over (S.answer (arc_value service)) }
        ensures hint { ⟦<SingleServiceToService<S> as Service<()>>⟧.hint result ≡ hint_at_entry }
    {
        SingleServiceToService { service }
    }
}

impl<S: SingleService> Service<()> for SingleServiceToService<S> {
    type Stream = Once;

    type Future = SingleServiceFuture<S>;

    ghost answer = { λ s. turned_over (S.answer (arc_value s.service)) };

    ghost hint = { λ _. hint_at_entry };

    fn call(
        &self,
        alloc: Global,
        request: &mut Request<()>,
    ) -> Result<SingleServiceFuture<S>, OutOfMemory> {
        let service = Arc::try_clone(&self.service)?;
        let request = request.try_clone(alloc, ())?;
        Ok(SingleServiceFuture {
            service,
            request,
            turn: 0,
        })
    }
}

/// A request that is asked of a single service turn by turn. Once it was ready it isn't to be polled again.
#[derive(Drop)]
pub struct SingleServiceFuture<S> {
    service: Arc<S>,
    request: Request<()>,
    turn: u64,
}

impl<S: SingleService> ReplyFuture for SingleServiceFuture<S> {
    type Stream = Once;

    ghost answer = { λ f. turns_answer (S.answer (arc_value f.service) f.request) f.turn };

    fn poll(&mut self, alloc: Global) -> Result<Polled<Once>, OutOfMemory> {
        match self.service.turn(alloc, &self.request, self.turn) {
            Ok(Polled::Ready(turned)) => match given(alloc, turned) {
                Ok(stream) => Ok(Polled::Ready(stream)),
                Err(OutOfMemory) => Err(OutOfMemory),
            },
            Ok(Polled::Pending) => match self.turn.checked_add(1) {
                Some(next) => {
                    self.turn = next;
                    Ok(Polled::Pending)
                }
                None => Ok(Polled::Ready(failed())),
            },
            Err(OutOfMemory) => Err(OutOfMemory),
        }
    }
}

/// The stream of InternalError.
fn failed() -> Once
    ensures { ⟦<Once as ReplyStream>⟧.answer result ≡ once (Err InternalError) }
{
    Once::new(Err(ServiceError::InternalError))
}

/// The stream of the item that a turn's reply or error becomes.
fn given(alloc: Global, turned: Result<ReplyMessage, ServiceError>) -> Result<Once, OutOfMemory>
    ensures { IfOk result (λ s. ⟦<Once as ReplyStream>⟧.answer s ≡ once (turn_item turned)) }
{
    let item = turn_item(alloc, turned)?;
    Ok(Once::new(item))
}

/// The item that a turn's reply or error becomes.
pub fn turn_item(
    alloc: Global,
    turned: Result<ReplyMessage, ServiceError>,
) -> Result<ServiceResult, OutOfMemory>
    ensures { IfOk result (λ i. i ≡ turn_item turned) }
{
    match turned {
        Ok(reply) => built_item(alloc, reply),
        Err(_) => Ok(Err(ServiceError::InternalError)),
    }
}

/// The item that a reply becomes.
fn built_item(alloc: Global, reply: ReplyMessage) -> Result<ServiceResult, OutOfMemory>
    ensures { IfOk result (λ i. i ≡ built_item (reply_message reply)) }
{
    match reply.into_builder(alloc) {
        Ok(built) => Ok(Ok(CallResult::new(built))),
        Err(ReplyError::Service(_)) => Ok(Err(ServiceError::InternalError)),
        Err(ReplyError::OutOfMemory) => Err(OutOfMemory),
    }
}
