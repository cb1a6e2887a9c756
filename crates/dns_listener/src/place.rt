//! A listener and a seat at the book of its slots.

ghost use Rattle.std.specs.Prelude.{◌≡◌, length};
ghost use Rattle.std.specs.Arc.{arc_value};
ghost use Rattle.dns_listener.specs.Listeners.{GivesBack};

use crate::listener::Listener;
use dns_book::{Book, BookSeat};
use dns_outside::{AsyncAccept, AsyncDgramSock, HostClock, Link, MioLink, Spawner, ThreadSpawner};
use dns_query_link::QueryLink;
use dns_service::SharedService;
use dns_workers::{AcceptContext, ConnectionWork, HostEnd, ServeContext, Silent, WorkersHost};
use std::alloc::Global;
use std::rt::Clock;
use std::sync::{Arc, Wait};
use std::thread::Threads;

/// What serves the connections of a listener, each in a thread of its own.
type Connections<R, W> = ThreadSpawner<ConnectionWork<QueryLink<MioLink>, HostClock<R>, Silent, W>>;

/// A listener that is to serve, and a seat at the book of its slots.
#[derive(Drop)]
pub(crate) struct Place<R> {
    pub(crate) listener: Listener<R>,
    pub(crate) book: Arc<Book>,
    pub(crate) seat: BookSeat,
    ghost at_book: { seat.book ≡ arc_value book },
}

impl<R: Wait + Copy> Place<R> {
    /// Shuts the book down because memory ran out.
    pub(crate) fn give_up(self, rt: R) -> (Listener<R>, HostEnd)
        ensures listener { result.0 ≡ self.listener }
        ensures end { result.1 ≡ HostEnd.OutOfMemory }
    {
        let Place {
            listener,
            book,
            mut seat,
        } = self;
        let _ = book.shutdown(&rt, &mut seat);
        (listener, HostEnd::OutOfMemory)
    }
}

/// Serves over a host by a service that is shared, until the book is shut down.
fn serve_shared<
    R: Threads + Wait + Copy + Send + Sync + 'static,
    A: AsyncAccept,
    D: AsyncDgramSock + Send,
    C: dns_outside::Clock + Send + Drop + 'static,
    W: SharedService + Send + Sync + 'static,
    P: Spawner<ConnectionWork<A::Link, C, Silent, W>>,
>(
    rt: &R,
    alloc: Global,
    service: &Arc<W>,
    clock: &C,
    book: &Arc<Book>,
    seat: BookSeat,
    host: &mut WorkersHost<A, D, C, P, Silent>,
) -> HostEnd
where
    A::Link: Send + Drop + 'static,
    W::Future: Send,
    W::Stream: Send,
    requires book { seat.book ≡ arc_value book.now }
    requires can_call { W.can_call (arc_value service.now) }
    ensures { length host.new.workers.items ≡ length host.old.workers.items }
{
    let accept_context = AcceptContext {
        serve_context: ServeContext {
            rt,
            alloc,
            book,
            service,
        },
        clock,
    };
    let (_seat, end) = host.serve(&accept_context, seat, 0);
    end
}

/// Serves over a host until the book is shut down.
fn serve_over<
    R: Threads + Wait + Copy + Send + Sync + 'static,
    A: AsyncAccept,
    D: AsyncDgramSock + Send,
    C: dns_outside::Clock + Send + Drop + 'static,
    W: SharedService + Send + Sync + 'static,
    P: Spawner<ConnectionWork<A::Link, C, Silent, W>>,
>(
    rt: &R,
    alloc: Global,
    service: W,
    clock: &C,
    book: &Arc<Book>,
    mut seat: BookSeat,
    host: &mut WorkersHost<A, D, C, P, Silent>,
) -> HostEnd
where
    A::Link: Send + Drop + 'static,
    W::Future: Send,
    W::Stream: Send,
    requires book { seat.book ≡ arc_value book.now }
    requires can_call { W.can_call service }
    ensures { length host.new.workers.items ≡ length host.old.workers.items }
{
    match Arc::new(alloc, service) {
        Ok(shared) => serve_shared(rt, alloc, &shared, clock, book, seat, host),
        Err(_) => {
            let _ = book.shutdown(rt, &mut seat);
            HostEnd::OutOfMemory
        }
    }
}

/// Gives each connection over such a link, by such a clock and service, a thread of its own.
fn spawner_over<
    L: Link + Send + Drop + 'static,
    C: dns_outside::Clock + Send + Drop + 'static,
    W: SharedService + Send + Sync + 'static,
>(alloc: Global) -> ThreadSpawner<ConnectionWork<L, C, Silent, W>>
where
    W::Future: Send,
    W::Stream: Send,
{
    ThreadSpawner::new(alloc)
}

/// Serves at a listener until the book is shut down, and gives the listener back, whose sockets stay open.
pub(crate) fn serve_at<
    R: Clock + Threads + Wait + Copy + Send + Sync + 'static,
    W: SharedService + Send + Sync + 'static,
>(rt: R, alloc: Global, place: Place<R>, service: W) -> (Listener<R>, HostEnd)
where
    W::Future: Send,
    W::Stream: Send,
    requires { W.can_call service }
    ensures { GivesBack place.listener result.0 }
{
    let Place {
        listener,
        book,
        seat,
    } = place;
    let Listener {
        address,
        accept,
        workers,
    } = listener;
    let spawner: Connections<R, W> = spawner_over(alloc);
    let mut host = WorkersHost {
        accept,
        workers,
        spawner,
    };
    let clock = HostClock::new(rt);
    let end = serve_over(&rt, alloc, service, &clock, &book, seat, &mut host);
    let WorkersHost {
        accept,
        workers,
        ..
    } = host;
    let listener = Listener {
        address,
        accept,
        workers,
    };
    (listener, end)
}
