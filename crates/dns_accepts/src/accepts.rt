//! The loop of accepts.

ghost use Rattle.std.specs.Prelude.{◌≡◌, ◌≤◌};
ghost use Rattle.std.specs.Arc.{arc_value};
ghost use Rattle.dns_accepts.specs.Accepting.{AcceptsTo};
ghost use Rattle.dns_accepts.specs.Arrivals.{AcceptsRan};

use crate::acceptor::Acceptor;
use crate::pre_connect::PreConnect;
use crate::work::ConnectionWork;
use dns_book::{Book, BookSeat};
use dns_io::{AsyncAccept, Clock, Spawner};
use dns_service::SharedService;
use dns_stream_driver::Silent;
use std::alloc::Global;
use std::sync::{Arc, Wait};
use std::thread::Threads;

/// How a loop of accepts ended.
#[derive(Clone, Copy, Debug, PartialEq, Eq)]
pub enum AcceptEnd {
    /// A look showed a shutdown.
    Shutdown,
    /// As many connections were accepted as were to be.
    Counted,
    /// A call found no memory.
    OutOfMemory,
}

/// Accepts connections as `serve_accepts` does, and says whether an accept failed or a start was refused.
pub fn serve_accepts_with_faults<
    R: Threads + Wait + Copy + Send + 'static,
    A: AsyncAccept,
    C: Clock + Send + Drop + 'static,
    W: SharedService + Send + Sync + 'static,
    P: Spawner<ConnectionWork<A::Link, C, Silent, W>>,
    H: PreConnect<A::Link>,
>(
    rt: &R,
    alloc: Global,
    book: &Arc<Book>,
    seat: BookSeat,
    service: &Arc<W>,
    accept: &mut A,
    clock: &C,
    spawner: &mut P,
    hook: &H,
    count: u64,
) -> (BookSeat, AcceptEnd, bool)
where
    A::Link: Send + Drop + 'static,
    W::Future: Send,
    W::Stream: Send,
    requires book { seat.book ≡ arc_value book.now }
    requires can_call { W.can_call (arc_value service.now) }
    ensures ran { AcceptsRan A.tells A.accept_traffic A.faults P.tells P.given P.faults result.1 result.2 count seat.known
        result.0.known accept.old accept.new spawner.old spawner.new }
    ensures same { result.0.book ≡ seat.book }
{
    let acceptor = Acceptor {
        rt,
        alloc,
        book,
        service,
        clock,
        hook,
    };
    acceptor.accept_all(seat, accept, spawner, count)
}

/// Accepts connections until `count` were accepted, `count` not 0, or a look shows a shutdown. Each turn is one look, one
/// accept and, for a connection that came, one admit. An admitted connection is served by work of its own, with the second
/// half of the seat and a clock of its own; its number counts the admitted ones. Every other one is closed. After an accept
/// that failed the loop goes on.
pub fn serve_accepts<
    R: Threads + Wait + Copy + Send + 'static,
    A: AsyncAccept,
    C: Clock + Send + Drop + 'static,
    W: SharedService + Send + Sync + 'static,
    P: Spawner<ConnectionWork<A::Link, C, Silent, W>>,
    H: PreConnect<A::Link>,
>(
    rt: &R,
    alloc: Global,
    book: &Arc<Book>,
    seat: BookSeat,
    service: &Arc<W>,
    accept: &mut A,
    clock: &C,
    spawner: &mut P,
    hook: &H,
    count: u64,
) -> (BookSeat, AcceptEnd)
where
    A::Link: Send + Drop + 'static,
    W::Future: Send,
    W::Stream: Send,
    requires book { seat.book ≡ arc_value book.now }
    requires can_call { W.can_call (arc_value service.now) }
    ensures observed { AcceptsTo result.1 count (A.tells accept.new × P.tells spawner.new)
        (A.tells accept.old × P.tells spawner.old) seat.known result.0.known
        (A.accept_traffic accept.old) (A.accept_traffic accept.new) (P.given spawner.old) (P.given spawner.new)
        (A.faults accept.old) (A.faults accept.new) }
    ensures same { result.0.book ≡ seat.book }
    ensures accepts_later { A.faults accept.old ≤ A.faults accept.new }
    ensures starts_later { P.faults spawner.old ≤ P.faults spawner.new }
{
    let (seat, end, _) = serve_accepts_with_faults(
        rt, alloc, book, seat, service, accept, clock, spawner, hook, count,
    );
    (seat, end)
}
