//! What connections and datagrams are served with.

ghost use Rattle.std.specs.Prelude.{◌≡◌, MatchOption};
ghost use Rattle.std.specs.Arc.{arc_value};
ghost use Rattle.dns_session.specs.Serving.{serving};
ghost use Rattle.dns_host.specs.Hosting.{AcceptsShut, AcceptsWent, DgramsShut, DgramsWent};

use dns_accepts::{AcceptEnd, ConnectionWork, NoHook, Recorder, Silent, serve_accepts_with_faults};
use dns_book::{Book, BookSeat};
use dns_dgram_driver::{DgramEnd, serve_datagrams_with_sends};
use dns_io::{AsyncAccept, AsyncDgramSock, Clock, Spawner};
use dns_service::SharedService;
use std::alloc::Global;
use std::sync::{Arc, Wait};
use std::thread::Threads;

/// What connections and datagrams are served with. No call changes it.
#[derive(Drop)]
pub struct ServeContext<'a, R, W> {
    pub rt: &'a R,
    pub alloc: Global,
    pub book: &'a Arc<Book>,
    pub service: &'a Arc<W>,
}

/// What connections are received with. No call changes it.
#[derive(Drop)]
pub struct AcceptContext<'a, R, C, W> {
    pub serve_context: ServeContext<'a, R, W>,
    /// What the clock of each connection is made of.
    pub clock: &'a C,
}

/// Shuts the book down if datagrams ended by a fault or because memory ran out.
fn shut_after_datagrams<R: Wait>(rt: &R, book: &Book, seat: &mut BookSeat, end: DgramEnd)
    requires { seat.old.book ≡ book.now }
    ensures shut { DgramsShut end seat.old.known seat.new.known }
    ensures same { seat.new.book ≡ seat.old.book }
{
    match end {
        DgramEnd::Fault | DgramEnd::OutOfMemory => {
            book.shutdown(rt, seat);
        }
        DgramEnd::Shutdown | DgramEnd::Counted => {}
    }
}

/// Shuts the book down if accepts ended because memory ran out.
fn shut_after_accepts<R: Wait>(rt: &R, book: &Book, seat: &mut BookSeat, end: AcceptEnd)
    requires { seat.old.book ≡ book.now }
    ensures shut { AcceptsShut end seat.old.known seat.new.known }
    ensures same { seat.new.book ≡ seat.old.book }
{
    match end {
        AcceptEnd::OutOfMemory => {
            book.shutdown(rt, seat);
        }
        AcceptEnd::Shutdown | AcceptEnd::Counted => {}
    }
}

impl<R: Wait, W: SharedService> ServeContext<'_, R, W> {
    /// Serves datagrams from the seat that stands in its place. If they end by a fault or because memory ran out, the book is
    /// shut down. Whether a send failed is given too.
    pub fn datagrams_beside<D: AsyncDgramSock, C: Clock, J: Recorder>(
        &self,
        place: &mut Option<BookSeat>,
        sock: &mut D,
        clock: &mut C,
        journal: &mut J,
        count: u64,
    ) -> (BookSeat, DgramEnd, bool)
        requires place { MatchOption place.old ⊥ (λ seat. seat.book ≡ arc_value self.now.book.now) }
        requires can_call { W.can_call (arc_value self.now.service.now) }
        ensures went { MatchOption place.old ⊥ (λ seat.
            DgramsWent D.tells D.sock_traffic D.failed_receives D.failed_sends C.tells C.readings J.tells J.noted
            (serving (W.answer (arc_value self.now.service.now)) (W.hint (arc_value self.now.service.now))) result.1 result.2 count
            seat.known result.0.known sock.old sock.new clock.old clock.new journal.old journal.new) }
        ensures same { result.0.book ≡ arc_value self.now.book.now }
    {
        let seat = place.take().unwrap();
        let (mut seat, end, send_failed) = serve_datagrams_with_sends(
            self.rt,
            self.alloc,
            self.book,
            seat,
            &**self.service,
            sock,
            clock,
            journal,
            count,
        );
        shut_after_datagrams(self.rt, self.book, &mut seat, end);
        (seat, end, send_failed)
    }
}

impl<
    R: Threads + Wait + Copy + Send + 'static,
    C: Clock + Send + Drop + 'static,
    W: SharedService + Send + Sync + 'static,
> AcceptContext<'_, R, C, W>
where
    W::Future: Send,
    W::Stream: Send,
{
    /// Accepts connections from the seat that stands in its place. If that ends because memory ran out, the book is shut down.
    /// Whether an accept failed or a start was refused is given too.
    pub fn accepts_beside<A: AsyncAccept, P: Spawner<ConnectionWork<A::Link, C, Silent, W>>>(
        &self,
        accept: &mut A,
        spawner: &mut P,
        place: &mut Option<BookSeat>,
        count: u64,
    ) -> (BookSeat, AcceptEnd, bool)
    where
        A::Link: Send + Drop + 'static,
        requires place { MatchOption place.old ⊥ (λ seat. seat.book ≡ arc_value self.now.serve_context.book.now) }
        requires can_call { W.can_call (arc_value self.now.serve_context.service.now) }
        ensures went { MatchOption place.old ⊥ (λ seat. AcceptsWent A.tells A.accept_traffic A.faults P.tells P.given P.faults
            result.1 result.2 count seat.known result.0.known accept.old accept.new spawner.old spawner.new) }
        ensures same { result.0.book ≡ arc_value self.now.serve_context.book.now }
    {
        let seat = place.take().unwrap();
        let (mut seat, end, faulted) = serve_accepts_with_faults(
            self.serve_context.rt,
            self.serve_context.alloc,
            self.serve_context.book,
            seat,
            self.serve_context.service,
            accept,
            self.clock,
            spawner,
            &NoHook,
            count,
        );
        shut_after_accepts(
            self.serve_context.rt,
            self.serve_context.book,
            &mut seat,
            end,
        );
        (seat, end, faulted)
    }
}
