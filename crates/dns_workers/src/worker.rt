//! Workers, which serve datagrams.

ghost use Rattle.std.specs.Prelude.{◌≡◌, All};
ghost use Rattle.std.specs.Arc.{arc_value};
ghost use Rattle.dns_session.specs.Serving.{serving};
ghost use Rattle.dns_book.specs.Seats.{Joined, first_half, second_half};
ghost use Rattle.dns_workers.specs.Workers.{AllServed, HasSeat, HasSeatOf, IsWith, WorkerServed, end_of_dgrams, outcome_of};

use dns_book::{Book, BookSeat};
use dns_dgram_driver::DgramEnd;
use dns_host::{HostEnd, Recorder, ServeContext};
use dns_io::{AsyncDgramSock, Clock};
use dns_service::SharedService;
use std::sync::Wait;
use std::thread::{Threads, for_each_mut};

/// What one worker serves datagrams with. While it serves it has a seat of the book.
#[derive(Drop)]
pub struct Worker<D, C, J> {
    /// What its datagrams come from, and what answers them.
    pub sock: D,
    pub clock: C,
    /// What the events of its datagrams are noted in.
    pub journal: J,
    seat: Option<BookSeat>,
    // How it ended, and whether a send failed.
    end: DgramEnd,
    send_failed: bool,
}

impl<D, C, J> Worker<D, C, J> {
    /// A worker that has not served.
    pub fn new(sock: D, clock: C, journal: J) -> Worker<D, C, J>
        ensures sock { result.sock ≡ sock }
        ensures clock { result.clock ≡ clock }
        ensures journal { result.journal ≡ journal }
    {
        Worker {
            sock,
            clock,
            journal,
            seat: None,
            end: DgramEnd::Shutdown,
            send_failed: false,
        }
    }

    /// Takes the second half of a seat, of which the first is answered.
    pub(crate) fn take_half<R: Wait>(&mut self, rt: &R, book: &Book, seat: BookSeat) -> BookSeat
        requires { seat.book ≡ book.now }
        ensures left { result.known ≡ first_half seat.known }
        ensures same { result.book ≡ seat.book }
        ensures seat { HasSeat seat.book (second_half seat.known) self.new }
        ensures parts { IsWith self.old self.new }
    {
        let (first, second) = book.split(rt, seat);
        self.seat = Some(second);
        first
    }

    /// Gives its seat back: both are joined to one.
    pub(crate) fn give_back<R: Wait>(&mut self, rt: &R, book: &Book, seat: BookSeat) -> BookSeat
        requires seat { seat.book ≡ book.now }
        requires own { HasSeatOf book.now self.old }
        ensures joined { Joined seat.known (outcome_of self.old).known result.known }
        ensures same { result.book ≡ seat.book }
        ensures parts { IsWith self.old self.new }
    {
        let own = self.seat.take().unwrap();
        book.join(rt, seat, own)
    }

    /// The end of a host whose datagrams ended as this worker's.
    pub(crate) fn host_end(&self) -> HostEnd
        ensures { result ≡ end_of_dgrams self.now.end self.now.send_failed }
    {
        match (self.end, self.send_failed) {
            (DgramEnd::OutOfMemory, _) => HostEnd::OutOfMemory,
            (DgramEnd::Fault, _) | (_, true) => HostEnd::HostFault,
            (DgramEnd::Shutdown | DgramEnd::Counted, false) => HostEnd::Done,
        }
    }
}

impl<D: AsyncDgramSock, C: Clock, J: Recorder> Worker<D, C, J> {
    /// Serves datagrams from its seat, which it has again afterwards. If they end by a fault or because memory ran out, the book is
    /// shut down.
    fn serve<R: Wait, W: SharedService>(
        &mut self,
        serve_context: &ServeContext<'_, R, W>,
        count: u64,
    )
        requires seat { HasSeatOf (arc_value serve_context.now.book.now) self.old }
        requires can_call { W.can_call (arc_value serve_context.now.service.now) }
        ensures served { WorkerServed D.tells D.sock_traffic D.failed_receives D.failed_sends C.tells C.readings J.tells J.noted
            (serving (W.answer (arc_value serve_context.now.service.now)) (W.hint (arc_value serve_context.now.service.now)))
            count self.old self.new }
        ensures seat { HasSeatOf (arc_value serve_context.now.book.now) self.new }
    {
        let Worker {
            sock,
            clock,
            journal,
            seat,
            end,
            send_failed,
        } = self;
        let (left, ended, failed) = serve_context.datagrams_beside(
            seat, sock, clock, journal, count,
        );
        *seat = Some(left);
        *end = ended;
        *send_failed = failed;
    }
}

/// Each worker serves datagrams from its seat, in a thread of its own.
pub(crate) fn serve_each<
    R: Threads + Wait + Sync,
    W: SharedService + Send + Sync,
    D: AsyncDgramSock + Send,
    C: Clock + Send,
    J: Recorder + Send,
>(serve_context: &ServeContext<'_, R, W>, count: u64, workers: &mut [Worker<D, C, J>])
where
    W::Future: Send,
    W::Stream: Send,
    requires seats { All (λ w. HasSeatOf (arc_value serve_context.now.book.now) w) workers.old }
    requires can_call { W.can_call (arc_value serve_context.now.service.now) }
    ensures served { AllServed D.tells D.sock_traffic D.failed_receives D.failed_sends C.tells C.readings J.tells J.noted
        (serving (W.answer (arc_value serve_context.now.service.now)) (W.hint (arc_value serve_context.now.service.now)))
        count workers.old workers.new }
    ensures seats { All (λ w. HasSeatOf (arc_value serve_context.now.book.now) w) workers.new }
{
    let threads = workers.len().max(1);
    for_each_mut(
        serve_context.rt,
        workers,
        threads,
        &|_, worker| worker.serve(serve_context, count),
    );
}
