//! A server with several workers that runs, as a whole.

ghost use Rattle.std.specs.Prelude.{◌≡◌, ◌⊎◌, IfOk};
ghost use Rattle.std.specs.Arc.{arc_value};
ghost use Rattle.dns_middleware.specs.Verdicts.{verdict_on};
ghost use Rattle.dns_middleware.specs.Wrapped.{hint_left, replies};
ghost use Rattle.dns_session.specs.Serving.{Serving, serving};
ghost use Rattle.dns_transport.specs.Hosting.{NeitherBegan};
ghost use Rattle.dns_workers.specs.Workers.{WorkersServed};
ghost use Rattle.dns_workers.specs.Faults.{RoseBy};
ghost use Rattle.dns_host_status.specs.HostStatus.{OfHost};

use crate::server_host::{by_status, without_memory};
use dns_book::{Book, BookSeat};
use dns_core::{Notifiable, Settings};
use dns_io::{AsyncAccept, AsyncDgramSock, Clock, Spawner};
use dns_middleware::Wrapped;
use dns_name::OutOfMemory;
use dns_run::{Status, layered};
use dns_service::{Service, SharedService, WithoutMeta};
use dns_transport::{ConnectionWork, Recorder, Silent};
use dns_workers::{AcceptContext, ServeContext, WorkersHost};
use std::alloc::Global;
use std::sync::{Arc, Wait};
use std::thread::Threads;

/// Serves by a service that is shared.
fn serve_shared<
    R: Threads + Wait + Copy + Send + Sync + 'static,
    A: AsyncAccept,
    D: AsyncDgramSock + Send,
    C: Clock + Send + Drop + 'static,
    T: SharedService + Send + Sync + 'static,
    P: Spawner<ConnectionWork<A::Link, C, Silent, T>>,
    J: Recorder + Send,
>(
    rt: &R,
    alloc: Global,
    host: &mut WorkersHost<A, D, C, P, J>,
    service: &Arc<T>,
    clock: &C,
    book: &Arc<Book>,
    seat: BookSeat,
    count: u64,
) -> (BookSeat, Status)
where
    A::Link: Send + Drop + 'static,
    T::Future: Send,
    T::Stream: Send,
    requires book { seat.book ≡ arc_value book.now }
    requires can_call { T.can_call (arc_value service.now) }
    ensures served { OfHost (λ end. WorkersServed D.tells D.sock_traffic D.failed_receives D.failed_sends C.tells C.readings J.tells J.noted
        (serving (T.answer (arc_value service.now)) (T.hint (arc_value service.now))) count
        A.tells A.accept_traffic A.faults P.tells P.given P.faults end seat.known result.0.known host.old host.new
        ⊎ (NeitherBegan end seat.known result.0.known × (host.new ≡ host.old))) result.1 }
    ensures cause { OfHost (λ end. RoseBy D.failed_receives D.failed_sends A.faults P.faults end host.old host.new) result.1 }
    ensures same { result.0.book ≡ seat.book }
{
    let accept_context = AcceptContext {
        serve_context: ServeContext {
            rt,
            alloc,
            book,
            service,
        },
        clock,
    };
    by_status(host.serve(&accept_context, seat, count))
}

/// Serves by a service, which is shared if there is memory for that.
fn serve_made<
    R: Threads + Wait + Copy + Send + Sync + 'static,
    A: AsyncAccept,
    D: AsyncDgramSock + Send,
    C: Clock + Send + Drop + 'static,
    T: SharedService + Send + Sync + 'static,
    P: Spawner<ConnectionWork<A::Link, C, Silent, T>>,
    J: Recorder + Send,
>(
    rt: &R,
    alloc: Global,
    host: &mut WorkersHost<A, D, C, P, J>,
    service: T,
    clock: &C,
    book: &Arc<Book>,
    seat: BookSeat,
    count: u64,
) -> (BookSeat, Status)
where
    A::Link: Send + Drop + 'static,
    T::Future: Send,
    T::Stream: Send,
    requires book { seat.book ≡ arc_value book.now }
    requires can_call { T.can_call service }
    ensures served { OfHost (λ end. WorkersServed D.tells D.sock_traffic D.failed_receives D.failed_sends C.tells C.readings J.tells J.noted
        (serving (T.answer service) (T.hint service)) count
        A.tells A.accept_traffic A.faults P.tells P.given P.faults end seat.known result.0.known host.old host.new
        ⊎ (NeitherBegan end seat.known result.0.known × (host.new ≡ host.old))) result.1 }
    ensures cause { OfHost (λ end. RoseBy D.failed_receives D.failed_sends A.faults P.faults end host.old host.new) result.1 }
    ensures same { result.0.book ≡ seat.book }
{
    match Arc::new(alloc, service) {
        Ok(shared) => serve_shared(rt, alloc, host, &shared, clock, book, seat, count),
        Err(_) => without_memory(rt, book, seat),
    }
}

/// Serves by a service in its layers, if there was memory for them.
fn serve_layered<
    R: Threads + Wait + Copy + Send + Sync + 'static,
    A: AsyncAccept,
    D: AsyncDgramSock + Send,
    C: Clock + Send + Drop + 'static,
    T: SharedService + Send + Sync + 'static,
    P: Spawner<ConnectionWork<A::Link, C, Silent, T>>,
    J: Recorder + Send,
>(
    rt: &R,
    alloc: Global,
    host: &mut WorkersHost<A, D, C, P, J>,
    made: Result<T, OutOfMemory>,
    clock: &C,
    book: &Arc<Book>,
    seat: BookSeat,
    count: u64,
) -> (BookSeat, Status)
where
    A::Link: Send + Drop + 'static,
    T::Future: Send,
    T::Stream: Send,
    requires book { seat.book ≡ arc_value book.now }
    requires can_call { IfOk made (λ s. T.can_call s) }
    ensures served { (answers : Serving) → IfOk made (λ s. answers ≡ serving (T.answer s) (T.hint s))
        → OfHost (λ end. WorkersServed D.tells D.sock_traffic D.failed_receives D.failed_sends C.tells C.readings J.tells J.noted
        answers count
        A.tells A.accept_traffic A.faults P.tells P.given P.faults end seat.known result.0.known host.old host.new
        ⊎ (NeitherBegan end seat.known result.0.known × (host.new ≡ host.old))) result.1 }
    ensures cause { OfHost (λ end. RoseBy D.failed_receives D.failed_sends A.faults P.faults end host.old host.new) result.1 }
    ensures same { result.0.book ≡ seat.book }
{
    match made {
        Ok(service) => serve_made(rt, alloc, host, service, clock, book, seat, count),
        Err(_) => without_memory(rt, book, seat),
    }
}

/// Serves connections, and besides that datagrams by each worker of the host, as `WorkersHost::serve` does. The clock of each
/// connection is made of the one given here. The wrapped service is the given one in the layers of the settings, where the target is
/// told of changed zones.
#[tactic(auto, using(crate::proofs::Hosted::may_call))]
pub fn serve_workers<
    R: Threads + Wait + Copy + Send + Sync + 'static,
    A: AsyncAccept,
    D: AsyncDgramSock + Send,
    C: Clock + Send + Drop + 'static,
    S: Service<()> + Send + Sync + 'static,
    N: Notifiable + Send + Sync + 'static,
    P: Spawner<ConnectionWork<A::Link, C, Silent, WithoutMeta<Wrapped<S, N>>>>,
    J: Recorder + Send,
>(
    rt: &R,
    alloc: Global,
    settings: &Settings,
    service: S,
    target: N,
    clock: &C,
    book: &Arc<Book>,
    seat: BookSeat,
    host: &mut WorkersHost<A, D, C, P, J>,
    count: u64,
) -> (BookSeat, Status)
where
    A::Link: Send + Drop + 'static,
    S::Future: Send,
    S::Stream: Send,
    N::Future: Send,
    requires book { seat.book ≡ arc_value book.now }
    requires can_call { S.can_call service }
    // All were served by the wrapped service. Or memory ran out before, in `wrap` too: then the book was shut down, and nothing
    // else was done.
    ensures served { OfHost (λ end. WorkersServed D.tells D.sock_traffic D.failed_receives D.failed_sends C.tells C.readings J.tells J.noted
        (serving (replies settings.now (S.answer service) (verdict_on (N.verdict target))) (hint_left settings.now)) count
        A.tells A.accept_traffic A.faults P.tells P.given P.faults end seat.known result.0.known host.old host.new
        ⊎ (NeitherBegan end seat.known result.0.known × (host.new ≡ host.old))) result.1 }
    ensures cause { OfHost (λ end. RoseBy D.failed_receives D.failed_sends A.faults P.faults end host.old host.new) result.1 }
    ensures same { result.0.book ≡ seat.book }
{
    let made = layered(alloc, settings, service, target);
    serve_layered(rt, alloc, host, made, clock, book, seat, count)
}
