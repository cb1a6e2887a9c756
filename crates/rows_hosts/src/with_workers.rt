//! Hosts with one worker, whose service stands in all layers.

ghost use Rattle.std.specs.Prelude.{◌≡◌};
ghost use Rattle.std.specs.Arc.{arc_value};

use crate::hosts::{Connection, Given, HostCase, host_book, spawner_over_witnesses};
use dns_book::{Book, BookSeat};
use dns_middleware::{Notifiable, Settings};
use dns_outside::{AsyncAccept, MemoryClock, MemorySock, MemorySpawner, Spawner};
use dns_server::{
    Status, WitnessAccept, WitnessClock, WitnessSock, WitnessSpawner, Worker, WorkersHost,
    serve_workers_over,
};
use dns_service::Service;
use dns_transport::Silent;
use rows_links::clock;
use std::alloc::Global;
use std::sync::{Arc, Wait};
use std::thread::Threads;

/// A host with workers, over witnesses of objects in memory.
type Witnessed<A, P> = WorkersHost<
    WitnessAccept<A>,
    WitnessSock<MemorySock>,
    WitnessClock<MemoryClock>,
    WitnessSpawner<P>,
    Silent,
>;

/// How a host ends by a service in the layers of the first settings, and how many slots of a book are taken then.
fn end_in<
    R: Threads + Wait + Copy + Send + Sync + 'static,
    A: AsyncAccept,
    S: Service<()> + Send + Sync + 'static,
    N: Notifiable + Send + Sync + 'static,
    P: Spawner<Connection<A::Link, S, N>>,
>(
    rt: &R,
    alloc: Global,
    host: &mut Witnessed<A, P>,
    service: S,
    target: N,
    book: &Arc<Book>,
    seat: BookSeat,
    count: u64,
) -> (Status, u64)
where
    A::Link: Send + Drop + 'static,
    S::Future: Send,
    S::Stream: Send,
    N::Future: Send,
    requires book { seat.book ≡ arc_value book.now }
    requires can_call { S.can_call service }
{
    let settings = Settings::new(alloc);
    let own = WitnessClock::new(clock(alloc));
    let (mut seat, status) = serve_workers_over(
        rt, alloc, &settings, service, target, &own, book, seat, host, count,
    );
    (status, book.look(rt, &mut seat).taken)
}

/// How a host ends in a new book with ten slots, and how many of them are taken then.
fn host_end<
    R: Threads + Wait + Copy + Send + Sync + 'static,
    A: AsyncAccept,
    S: Service<()> + Send + Sync + 'static,
    N: Notifiable + Send + Sync + 'static,
    P: Spawner<Connection<A::Link, S, N>>,
>(
    rt: &R,
    alloc: Global,
    host: &mut Witnessed<A, P>,
    service: S,
    target: N,
    count: u64,
) -> (Status, u64)
where
    A::Link: Send + Drop + 'static,
    S::Future: Send,
    S::Stream: Send,
    N::Future: Send,
    requires { S.can_call service }
{
    match host_book(alloc) {
        Ok((book, seat)) => end_in(rt, alloc, host, service, target, &book, seat, count),
        Err(_) => (Status::OutOfMemory, 1),
    }
}

/// Whether a host with these workers ends as is wanted, and the last of them sent what it should.
fn host_ends<
    R: Threads + Wait + Copy + Send + Sync + 'static,
    A: AsyncAccept + Drop,
    S: Service<()> + Send + Sync + 'static,
    N: Notifiable + Send + Sync + 'static,
    P: Spawner<Connection<A::Link, S, N>> + Drop,
>(
    rt: &R,
    alloc: Global,
    case: &HostCase<'_>,
    mut host: Witnessed<A, P>,
    service: S,
    target: N,
) -> bool
where
    A::Link: Send + Drop + 'static,
    S::Future: Send,
    S::Stream: Send,
    N::Future: Send,
    requires { S.can_call service }
{
    let end = host_end(rt, alloc, &mut host, service, target, case.count);
    match host.workers.pop() {
        Some(Worker { sock, .. }) => case.is_ended(end, sock.into_inner().sent()),
        None => false,
    }
}

/// Whether a host with one worker and this accept object ends as is wanted.
pub(crate) fn ends_over<
    R: Threads + Wait + Copy + Send + Sync + 'static,
    A: AsyncAccept + Drop,
    S: Service<()> + Send + Sync + 'static,
    N: Notifiable + Send + Sync + 'static,
>(rt: &R, alloc: Global, case: &HostCase<'_>, accept: A, given: Given<S, N>) -> bool
where
    A::Link: Send + Drop + 'static,
    S::Future: Send,
    S::Stream: Send,
    N::Future: Send,
    requires { S.can_call given.service }
{
    let Given {
        sock,
        failed_starts,
        service,
        target,
    } = given;
    let spawner: MemorySpawner<Connection<A::Link, S, N>> = spawner_over_witnesses(
        alloc,
        failed_starts,
    );
    let worker = Worker::new(
        WitnessSock::new(sock),
        WitnessClock::new(clock(alloc)),
        Silent::new(),
    );
    let mut workers = Vec::new(alloc);
    if workers.push(worker).is_err() {
        return false;
    }
    let host = WorkersHost {
        accept: WitnessAccept::new(accept),
        workers,
        spawner: WitnessSpawner::new(spawner),
    };
    host_ends(rt, alloc, case, host, service, target)
}
