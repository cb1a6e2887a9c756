//! A host that serves by a service in no layers.

ghost use Rattle.std.specs.Prelude.{◌≡◌};
ghost use Rattle.std.specs.Arc.{arc_value};

use dns_book::{Book, BookSeat};
use dns_outside::{AsyncAccept, AsyncDgramSock, Clock, Spawner};
use dns_service::SharedService;
use dns_workers::{
    AcceptContext, ConnectionWork, HostEnd, Recorder, ServeContext, Silent, WorkersHost,
};
use std::alloc::Global;
use std::sync::{Arc, Wait};
use std::thread::Threads;

/// How a host ends that serves by this book, and how many slots are taken then.
pub(crate) fn end_of<
    R: Threads + Wait + Copy + Send + Sync + 'static,
    A: AsyncAccept,
    D: AsyncDgramSock + Send,
    C: Clock + Send + Drop + 'static,
    W: SharedService + Send + Sync + 'static,
    P: Spawner<ConnectionWork<A::Link, C, Silent, W>>,
    J: Recorder + Send,
>(
    rt: &R,
    alloc: Global,
    host: &mut WorkersHost<A, D, C, P, J>,
    service: &Arc<W>,
    clock: &C,
    book: &Arc<Book>,
    seat: BookSeat,
    count: u64,
) -> (HostEnd, u64)
where
    A::Link: Send + Drop + 'static,
    W::Future: Send,
    W::Stream: Send,
    requires book { seat.book ≡ arc_value book.now }
    requires can_call { W.can_call (arc_value service.now) }
{
    let accept_context = AcceptContext {
        serve_context: ServeContext {
            rt,
            alloc,
            book,
            service,
        },
        clock,
    };
    let (mut seat, end) = host.serve(&accept_context, seat, count);
    (end, book.look(rt, &mut seat).taken)
}
