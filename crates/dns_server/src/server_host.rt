//! A server that runs, as a whole.

ghost use Rattle.std.specs.Prelude.{◌≡◌, IfOk};
ghost use Rattle.std.specs.Arc.{arc_value};
ghost use Rattle.dns_middleware.specs.Verdicts.{verdict_on};
ghost use Rattle.dns_middleware.specs.Wrapped.{hint_left, replies};
ghost use Rattle.dns_session.specs.Serving.{Serving, serving};
ghost use Rattle.dns_transport.specs.Hosting.{HostServed, ShutDown, host_seen, accept_observed, sock_observed};
ghost use Rattle.dns_host_status.specs.HostStatus.{OfHost, status_of_host};

use dns_book::{Book, BookSeat};
use dns_core::{Notifiable, Settings};
use dns_host_status::status_of_host;
use dns_io::{AsyncAccept, AsyncDgramSock, Clock, Spawner};
use dns_middleware::Wrapped;
use dns_name::OutOfMemory;
use dns_run::{Status, layered};
use dns_service::{Service, SharedService, WithoutMeta};
use dns_transport::{ConnectionWork, Host, HostEnd, Recorder, Silent, host_service};
use std::alloc::Global;
use std::sync::{Arc, Wait};
use std::thread::Threads;

/// A host's end as a status, beside the seat.
pub(crate) fn by_status(served: (BookSeat, HostEnd)) -> (BookSeat, Status)
    ensures seat { result.0 ≡ served.0 }
    ensures status { result.1 ≡ status_of_host served.1 }
{
    let (seat, end) = served;
    (seat, status_of_host(end))
}

/// Shuts the book down because memory ran out.
pub(crate) fn without_memory<R: Wait>(rt: &R, book: &Book, seat: BookSeat) -> (BookSeat, Status)
    requires { seat.book ≡ book.now }
    ensures shut { ShutDown seat.known result.0.known }
    ensures same { result.0.book ≡ seat.book }
    ensures status { result.1 ≡ Status.OutOfMemory }
{
    let mut seat = seat;
    book.shutdown(rt, &mut seat);
    (seat, Status::OutOfMemory)
}

/// Serves both by a service in its layers, if there was memory for them.
fn serve_layered<
    R: Threads + Wait + Copy + Send + Sync + 'static,
    A: AsyncAccept,
    D: AsyncDgramSock + Send,
    C: Clock + Send + Drop + 'static,
    T: SharedService + Send + Sync + 'static,
    P: Spawner<ConnectionWork<A::Link, C, Silent, T>>,
    J: Recorder + Send,
>(
    rt: &R,
    alloc: Global,
    host: &mut Host<A, D, C, P, J>,
    made: Result<T, OutOfMemory>,
    book: &Arc<Book>,
    seat: BookSeat,
    count: u64,
) -> (BookSeat, Status)
where
    A::Link: Send + Drop + 'static,
    T::Future: Send,
    T::Stream: Send,
    requires book { seat.book ≡ arc_value book.now }
    requires can_call { IfOk made (λ s. T.can_call s) }
    ensures served { (answers : Serving) → IfOk made (λ s. answers ≡ serving (T.answer s) (T.hint s))
        → OfHost (λ end. HostServed (host_seen A.accept_traffic P.given J.noted D.sock_traffic C.readings A.faults P.faults
        D.failed_receives D.failed_sends)
        (accept_observed A.tells P.tells) (sock_observed D.tells C.tells J.tells) answers end count seat.known result.0.known
        host.old host.new) result.1 }
    ensures same { result.0.book ≡ seat.book }
{
    match made {
        Ok(service) => by_status(host_service(rt, alloc, service, book, seat, host, count)),
        Err(_) => without_memory(rt, book, seat),
    }
}

/// Serves connections and datagrams beside each other, until `count` of each were taken, `count` not 0, or a look shows a
/// shutdown. Then `join_all` of the spawner waits for the work, of which no clause says that it has ended, and the book is
/// shut down. The wrapped service is the given one in the layers of the settings, where the target is told of changed zones.
#[tactic(auto, using(crate::proofs::Hosted::may_call))]
pub fn serve_host<
    R: Threads + Wait + Copy + Send + Sync + 'static,
    A: AsyncAccept,
    D: AsyncDgramSock + Send,
    C: Clock + Send + Drop + 'static,
    S: Service<()> + Send + Sync + 'static,
    N: Notifiable + Send + Sync + 'static,
    P: Spawner<ConnectionWork<A::Link, C, Silent, WithoutMeta<Wrapped<S, N>>>>,
    J: Recorder + Send,
>(
    rt: &R,
    alloc: Global,
    settings: &Settings,
    service: S,
    target: N,
    book: &Arc<Book>,
    seat: BookSeat,
    host: &mut Host<A, D, C, P, J>,
    count: u64,
) -> (BookSeat, Status)
where
    A::Link: Send + Drop + 'static,
    S::Future: Send,
    S::Stream: Send,
    N::Future: Send,
    requires book { seat.book ≡ arc_value book.now }
    requires can_call { S.can_call service }
    // Both were served by the wrapped service. Or memory ran out before, in `wrap` too: then the book was shut down, and nothing
    // else was done.
    ensures served { OfHost (λ end. HostServed
        (host_seen A.accept_traffic P.given J.noted D.sock_traffic C.readings A.faults P.faults D.failed_receives D.failed_sends)
        (accept_observed A.tells P.tells) (sock_observed D.tells C.tells J.tells)
        (serving (replies settings.now (S.answer service) (verdict_on (N.verdict target))) (hint_left settings.now))
        end count seat.known result.0.known host.old host.new) result.1 }
    ensures same { result.0.book ≡ seat.book }
{
    let made = layered(alloc, settings, service, target);
    serve_layered(rt, alloc, host, made, book, seat, count)
}
