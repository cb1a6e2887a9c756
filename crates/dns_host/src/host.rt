//! Accepts and datagrams beside each other.

ghost use Rattle.std.specs.Prelude.{◌≡◌, ◌||◌, MatchOption, IfOk};
ghost use Rattle.std.specs.Arc.{arc_value};
ghost use Rattle.dns_session.specs.Serving.{serving};
ghost use Rattle.dns_host.specs.Hosting.{host_end, host_seen, accept_observed, sock_observed, AcceptsWent, DgramsWent, HalvesClosed, HostServed};

use crate::serve_context::{AcceptContext, ServeContext};
use dns_accepts::{AcceptEnd, ConnectionWork, Recorder, Silent};
use dns_book::{Book, BookSeat};
use dns_dgram_driver::DgramEnd;
use dns_io::{AsyncAccept, AsyncDgramSock, Clock, Spawner};
use dns_name::OutOfMemory;
use dns_service::SharedService;
use std::alloc::Global;
use std::sync::{Arc, Wait};
use std::thread::{Threads, join_mut};

/// What a server stands on outside.
#[derive(Drop)]
pub struct Host<A, D, C, P, J> {
    /// What connections come from.
    pub accept: A,
    /// What datagrams come from.
    pub sock: D,
    pub clock: C,
    /// What starts the work of each connection.
    pub spawner: P,
    /// What the events of datagrams are noted in.
    pub journal: J,
}

/// How a host was served.
#[derive(Clone, Copy, Debug, PartialEq, Eq)]
pub enum HostEnd {
    /// As many connections and datagrams were taken as were to be, or the book was shut down.
    Done,
    /// A call found no memory.
    OutOfMemory,
    /// Something outside failed: an accept, a start of work, a receive or a send.
    HostFault,
}

/// How a host was served, by how the two ended and whether an accept or a send failed or a start was refused.
fn host_end(datagrams: DgramEnd, accepts: AcceptEnd, faulted: bool, send_failed: bool) -> HostEnd
    ensures { result ≡ host_end datagrams accepts (faulted || send_failed) }
{
    match (datagrams, accepts) {
        (DgramEnd::OutOfMemory, _) | (_, AcceptEnd::OutOfMemory) => HostEnd::OutOfMemory,
        (DgramEnd::Fault, _) => HostEnd::HostFault,
        (DgramEnd::Shutdown | DgramEnd::Counted, _) => {
            if faulted || send_failed {
                HostEnd::HostFault
            } else {
                HostEnd::Done
            }
        }
    }
}

impl<
    A: AsyncAccept,
    D: AsyncDgramSock + Send,
    C: Clock + Send + Drop + 'static,
    P,
    J: Recorder + Send,
> Host<A, D, C, P, J>
where
    A::Link: Send + Drop + 'static,
{
    /// Accepts connections and serves datagrams beside each other, the latter in a thread of their own.
    fn both_beside<
        R: Threads + Wait + Copy + Send + Sync + 'static,
        W: SharedService + Send + Sync + 'static,
    >(
        &mut self,
        accept_context: &AcceptContext<'_, R, C, W>,
        halves: (BookSeat, BookSeat),
        count: u64,
    ) -> ((BookSeat, DgramEnd, bool), (BookSeat, AcceptEnd, bool))
    where
        W::Future: Send,
        W::Stream: Send,
        P: Spawner<ConnectionWork<A::Link, C, Silent, W>>,
        requires halves { (halves.0.book ≡ arc_value accept_context.now.serve_context.book.now)
            × (halves.1.book ≡ arc_value accept_context.now.serve_context.book.now) }
        requires can_call { W.can_call (arc_value accept_context.now.serve_context.service.now) }
        ensures dgrams { DgramsWent D.tells D.sock_traffic D.failed_receives D.failed_sends C.tells C.readings J.tells J.noted
            (serving (W.answer (arc_value accept_context.now.serve_context.service.now))
            (W.hint (arc_value accept_context.now.serve_context.service.now))) result.0.1 result.0.2 count halves.1.known result.0.0.known
            self.old.sock self.new.sock self.old.clock self.new.clock self.old.journal self.new.journal }
        ensures accepts { AcceptsWent A.tells A.accept_traffic A.faults P.tells P.given P.faults result.1.1 result.1.2 count
            halves.0.known result.1.0.known
            self.old.accept self.new.accept self.old.spawner self.new.spawner }
        ensures seats { (result.0.0.book ≡ arc_value accept_context.now.serve_context.book.now)
            × (result.1.0.book ≡ arc_value accept_context.now.serve_context.book.now) }
    {
        let Host {
            accept,
            sock,
            clock,
            spawner,
            journal,
        } = self;
        let serve_context = &accept_context.serve_context;
        let (mut left, mut right) = (Some(halves.0), Some(halves.1));
        join_mut(
            serve_context.rt,
            &mut || serve_context.datagrams_beside(&mut right, sock, clock, journal, count),
            &mut || -> (BookSeat, AcceptEnd, bool)
                requires place { MatchOption left ⊥ (λ seat. seat.book ≡ arc_value accept_context.now.serve_context.book.now) }
                requires can_call { W.can_call (arc_value accept_context.now.serve_context.service.now) }
            { accept_context.accepts_beside(accept, spawner, &mut left, count) },
        )
    }

    /// Serves both from the halves of a seat. Then `join_all` waits for the work, and the book is shut down.
    #[tactic(auto, using(crate::proofs::ServedHost::host_served))]
    fn serve<
        R: Threads + Wait + Copy + Send + Sync + 'static,
        W: SharedService + Send + Sync + 'static,
    >(
        &mut self,
        accept_context: &AcceptContext<'_, R, C, W>,
        seat: BookSeat,
        count: u64,
    ) -> (BookSeat, HostEnd)
    where
        W::Future: Send,
        W::Stream: Send,
        P: Spawner<ConnectionWork<A::Link, C, Silent, W>>,
        requires book { seat.book ≡ arc_value accept_context.now.serve_context.book.now }
        requires can_call { W.can_call (arc_value accept_context.now.serve_context.service.now) }
        ensures served { HostServed (host_seen A.accept_traffic P.given J.noted D.sock_traffic C.readings A.faults P.faults
            D.failed_receives D.failed_sends)
            (accept_observed A.tells P.tells) (sock_observed D.tells C.tells J.tells)
            (serving (W.answer (arc_value accept_context.now.serve_context.service.now))
            (W.hint (arc_value accept_context.now.serve_context.service.now))) result.1 count seat.known result.0.known self.old self.new }
        ensures same { result.0.book ≡ seat.book }
    {
        let ServeContext { rt, book, .. } = accept_context.serve_context;
        let halves = book.split(rt, seat);
        let ends = self.both_beside(accept_context, halves, count);
        self.spawner.join_all(rt);
        close_both(rt, book, ends)
    }

    /// Serves both with a service and a clock of connections of their own.
    fn serve_shared<
        R: Threads + Wait + Copy + Send + Sync + 'static,
        W: SharedService + Send + Sync + 'static,
    >(
        &mut self,
        rt: &R,
        alloc: Global,
        book: &Arc<Book>,
        seat: BookSeat,
        count: u64,
        made: (Arc<W>, C),
    ) -> (BookSeat, HostEnd)
    where
        W::Future: Send,
        W::Stream: Send,
        P: Spawner<ConnectionWork<A::Link, C, Silent, W>>,
        requires book { seat.book ≡ arc_value book.now }
        requires can_call { W.can_call (arc_value made.0) }
        ensures served { HostServed (host_seen A.accept_traffic P.given J.noted D.sock_traffic C.readings A.faults P.faults
            D.failed_receives D.failed_sends)
            (accept_observed A.tells P.tells) (sock_observed D.tells C.tells J.tells)
            (serving (W.answer (arc_value made.0)) (W.hint (arc_value made.0))) result.1 count seat.known result.0.known self.old self.new }
        ensures same { result.0.book ≡ seat.book }
    {
        let (service, clock) = made;
        let accept_context = AcceptContext {
            serve_context: ServeContext {
                rt,
                alloc,
                book,
                service: &service,
            },
            clock: &clock,
        };
        self.serve(&accept_context, seat, count)
    }
}

/// Joins the halves of a seat after both loops, and shuts the book down.
fn close_both<R: Wait>(
    rt: &R,
    book: &Book,
    ends: ((BookSeat, DgramEnd, bool), (BookSeat, AcceptEnd, bool)),
) -> (BookSeat, HostEnd)
    requires first { ends.1.0.book ≡ book.now }
    requires second { ends.0.0.book ≡ book.now }
    ensures closed { HalvesClosed ends.1.0.known ends.0.0.known result.0.known }
    ensures same { result.0.book ≡ ends.1.0.book }
    ensures end { result.1 ≡ host_end ends.0.1 ends.1.1 (ends.1.2 || ends.0.2) }
{
    let ((second, datagrams, send_failed), (first, accepts, faulted)) = ends;
    let mut seat = book.join(rt, first, second);
    book.shutdown(rt, &mut seat);
    (seat, host_end(datagrams, accepts, faulted, send_failed))
}

/// The service, to be shared, and a clock.
fn shared<C: Clock, W: SharedService>(
    alloc: Global,
    service: W,
    clock: &C,
) -> Result<(Arc<W>, C), OutOfMemory>
    ensures { IfOk result (λ r. arc_value r.0 ≡ service) }
{
    let service = Arc::new(alloc, service)?;
    let clock = clock.another(alloc)?;
    Ok((service, clock))
}

/// Serves connections and datagrams beside each other, until `count` of each were taken, `count` not 0, or a look shows a
/// shutdown. Then `join_all` of the spawner waits for the work, of which no clause says that it has ended, and the book is
/// shut down.
#[tactic(auto, using(crate::proofs::ServedHost::none_served))]
pub fn host_service<
    R: Threads + Wait + Copy + Send + Sync + 'static,
    A: AsyncAccept,
    D: AsyncDgramSock + Send,
    C: Clock + Send + Drop + 'static,
    W: SharedService + Send + Sync + 'static,
    P: Spawner<ConnectionWork<A::Link, C, Silent, W>>,
    J: Recorder + Send,
>(
    rt: &R,
    alloc: Global,
    service: W,
    book: &Arc<Book>,
    mut seat: BookSeat,
    host: &mut Host<A, D, C, P, J>,
    count: u64,
) -> (BookSeat, HostEnd)
where
    A::Link: Send + Drop + 'static,
    W::Future: Send,
    W::Stream: Send,
    requires book { seat.book ≡ arc_value book.now }
    requires can_call { W.can_call service }
    ensures served { HostServed (host_seen A.accept_traffic P.given J.noted D.sock_traffic C.readings A.faults P.faults
        D.failed_receives D.failed_sends)
        (accept_observed A.tells P.tells) (sock_observed D.tells C.tells J.tells)
        (serving (W.answer service) (W.hint service)) result.1 count seat.known result.0.known host.old host.new }
    ensures same { result.0.book ≡ seat.book }
{
    match shared(alloc, service, &host.clock) {
        Ok(made) => host.serve_shared(rt, alloc, book, seat, count, made),
        Err(_) => {
            book.shutdown(rt, &mut seat);
            (seat, HostEnd::OutOfMemory)
        }
    }
}
