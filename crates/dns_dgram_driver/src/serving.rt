//! Datagrams are served.

ghost use Rattle.std.specs.Prelude.{◌≡◌, ◌≤◌};
ghost use Rattle.dns_session.specs.Serving.{serving};
ghost use Rattle.dns_io.specs.Causes.{Observed};
ghost use Rattle.dns_service.specs.PolledRequest.{request_answer};
ghost use Rattle.dns_dgram_driver.specs.Rounds.{Ended, PassesTo};
ghost use Rattle.dns_dgram_driver.specs.LoopParts.{WentTo, loop_seen, loop_observed};
ghost use Rattle.dns_dgram_driver.specs.DatagramsServed.{LooksBy, MayCome, ReceivesBy, RoseIf, ServedTo, world};

use crate::dgram_loop::DgramLoop;
use crate::looks::apply_news;
use crate::running::{Running, begun, left};
use crate::spare::Spare;
use dns_admission::Look;
use dns_book::{Book, BookSeat};
use dns_io::{AsyncDgramSock, Clock};
use dns_recorder::{Recorder, Waits};
use dns_service::SharedService;
use std::alloc::Global;
use std::sync::Wait;

/// How the serving of datagrams ended.
#[derive(Clone, Copy, Debug, PartialEq, Eq)]
pub enum DgramEnd {
    /// A look showed a shutdown, and every exchange is finished.
    Shutdown,
    /// As many datagrams came as were to be served, or as can be numbered, and every exchange is finished.
    Counted,
    /// A receive failed.
    Fault,
    /// A call found no memory.
    OutOfMemory,
}

/// How many octets of a datagram are received.
const ROOM: usize = 1024;

impl<R: Wait, W: SharedService, D: AsyncDgramSock, C: Clock, J: Recorder> DgramLoop<
    '_,
    R,
    W,
    D,
    C,
    J,
> {
    /// All that comes after the news of the first look.
    fn serve_all(&mut self, count: u64) -> DgramEnd
        requires book { self.old.state.now.seat.book ≡ self.old.book.now }
        requires can_call { W.can_call self.old.service.now }
        requires within { MayCome count self.old.state.now.next }
        ensures went { WentTo D.failed_receives D.failed_sends result count self.old self.new }
        ensures observed { Observed (loop_observed D.tells C.tells J.tells self.new) (loop_observed D.tells C.tells J.tells self.old)
            (Ended (request_answer W.Future.answer W.Stream.answer)
            (serving (W.answer self.old.service.now) (W.hint self.old.service.now)) result count
            (loop_seen D.sock_traffic D.failed_sends C.readings J.noted self.old) self.old.state.now
            (loop_seen D.sock_traffic D.failed_sends C.readings J.noted self.new) self.new.state.now) }
    {
        let mut buf = [0u8; ROOM];
        let end = self.take_all(&mut buf, count);
        match end {
            DgramEnd::Fault => DgramEnd::Fault,
            DgramEnd::OutOfMemory => DgramEnd::OutOfMemory,
            _ => match self.finish() {
                Ok(()) => end,
                Err(_) => DgramEnd::OutOfMemory,
            },
        }
    }
}

/// Serves `count` datagrams at most after the news of the first look, in a loop that borrows all it works on.
fn serve_begun<'x, R: Wait, D: AsyncDgramSock, C: Clock, J: Recorder, W: SharedService>(
    rt: &'x R,
    alloc: Global,
    book: &'x Book,
    service: &'x W,
    sock: &'x mut D,
    clock: &'x mut C,
    journal: &'x mut J,
    state: &'x mut Running<W>,
    spare: &'x mut Spare,
    count: u64,
) -> DgramEnd
    requires book { state.old.seat.book ≡ book.now }
    requires can_call { W.can_call service.now }
    requires within { MayCome count state.old.next }
    ensures passes { PassesTo result count state.old state.new (D.failed_sends sock.old) (D.failed_sends sock.new)
        (D.failed_receives sock.old) (D.failed_receives sock.new) }
    ensures observed { Observed (D.tells sock.new × C.tells clock.new × J.tells journal.new)
        (D.tells sock.old × C.tells clock.old × J.tells journal.old)
        (Ended (request_answer W.Future.answer W.Stream.answer) (serving (W.answer service.now) (W.hint service.now)) result count
        (world (J.noted journal.old) (D.sock_traffic sock.old) (D.failed_sends sock.old)
        (C.readings clock.old) state.old.seat.known) state.old
        (world (J.noted journal.new) (D.sock_traffic sock.new) (D.failed_sends sock.new)
        (C.readings clock.new) state.new.seat.known) state.new) }
{
    let mut dgram_loop = DgramLoop {
        rt,
        alloc,
        book,
        service,
        sock,
        clock,
        journal,
        state,
        waits: Waits::new(),
        spare,
    };
    dgram_loop.serve_all(count)
}

/// Serves datagrams as `serve_datagrams` does, and says whether a send failed.
pub fn serve_datagrams_with_sends<
    R: Wait,
    D: AsyncDgramSock,
    C: Clock,
    J: Recorder,
    W: SharedService,
>(
    rt: &R,
    alloc: Global,
    book: &Book,
    seat: BookSeat,
    service: &W,
    sock: &mut D,
    clock: &mut C,
    journal: &mut J,
    count: u64,
) -> (BookSeat, DgramEnd, bool)
    requires book { seat.book ≡ book.now }
    requires can_call { W.can_call service.now }
    // If socket, clock and recorder tell.
    ensures observed { Observed (D.tells sock.new × C.tells clock.new × J.tells journal.new)
        (D.tells sock.old × C.tells clock.old × J.tells journal.old)
        (ServedTo (serving (W.answer service.now) (W.hint service.now)) result.1 count
        (world (J.noted journal.old) (D.sock_traffic sock.old) (D.failed_sends sock.old) (C.readings clock.old) seat.known)
        (world (J.noted journal.new) (D.sock_traffic sock.new) (D.failed_sends sock.new) (C.readings clock.new) result.0.known)) }
    // Always.
    ensures seat { LooksBy result.1 seat.known result.0.known }
    ensures same { result.0.book ≡ seat.book }
    ensures cause { ReceivesBy result.1 (D.failed_receives sock.old) (D.failed_receives sock.new) }
    ensures rose { RoseIf result.2 (D.failed_sends sock.old) (D.failed_sends sock.new) }
    ensures receives { D.failed_receives sock.old ≤ D.failed_receives sock.new }
    ensures sends { D.failed_sends sock.old ≤ D.failed_sends sock.new }
{
    let mut seat = seat;
    let first = book.look(rt, &mut seat);
    let mut heard = Look {
        closed: false,
        ..first
    };
    let Ok(()) = apply_news(alloc, clock, journal, &mut heard, &first) else {
        return (seat, DgramEnd::OutOfMemory, false);
    };
    let mut state = begun(alloc, heard, seat);
    let mut spare = Spare::new(alloc);
    let end = serve_begun(
        rt, alloc, book, service, sock, clock, journal, &mut state, &mut spare, count,
    );
    let (seat, send_failed) = left(state);
    (seat, end, send_failed)
}

/// Serves datagrams until a look shows a shutdown, a receive fails, or that many came, if the count isn't 0. Each receive and
/// each poll has a look before it, whose news are noted at once. Between two receives each unfinished exchange is polled once, by
/// rising number. After a shutdown or the last datagram each is polled to its end.
pub fn serve_datagrams<R: Wait, D: AsyncDgramSock, C: Clock, J: Recorder, W: SharedService>(
    rt: &R,
    alloc: Global,
    book: &Book,
    seat: BookSeat,
    service: &W,
    sock: &mut D,
    clock: &mut C,
    journal: &mut J,
    count: u64,
) -> (BookSeat, DgramEnd)
    requires book { seat.book ≡ book.now }
    requires can_call { W.can_call service.now }
    // If socket, clock and recorder tell.
    ensures observed { Observed (D.tells sock.new × C.tells clock.new × J.tells journal.new)
        (D.tells sock.old × C.tells clock.old × J.tells journal.old)
        (ServedTo (serving (W.answer service.now) (W.hint service.now)) result.1 count
        (world (J.noted journal.old) (D.sock_traffic sock.old) (D.failed_sends sock.old) (C.readings clock.old) seat.known)
        (world (J.noted journal.new) (D.sock_traffic sock.new) (D.failed_sends sock.new) (C.readings clock.new) result.0.known)) }
    // Always.
    ensures seat { LooksBy result.1 seat.known result.0.known }
    ensures same { result.0.book ≡ seat.book }
    ensures cause { ReceivesBy result.1 (D.failed_receives sock.old) (D.failed_receives sock.new) }
    ensures receives { D.failed_receives sock.old ≤ D.failed_receives sock.new }
    ensures sends { D.failed_sends sock.old ≤ D.failed_sends sock.new }
{
    let (seat, end, _) = serve_datagrams_with_sends(
        rt, alloc, book, seat, service, sock, clock, journal, count,
    );
    (seat, end)
}
