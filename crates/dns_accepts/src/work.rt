//! The work of serving one connection.

ghost use Rattle.std.specs.Prelude.{◌≡◌, false};
ghost use Rattle.std.specs.Arc.{arc_value};
ghost use Rattle.dns_io.specs.Causes.{Observed};
ghost use Rattle.dns_session.specs.Serving.{serving};
ghost use Rattle.dns_stream_driver.specs.Clocks.{TimedWhole};
ghost use Rattle.dns_stream_driver.specs.Story.{LooksAndRelease};
ghost use Rattle.dns_stream_driver.specs.Endings.{EndsSo, EndShown, EndCauses, WhereClosed};

use dns_admission::Look;
use dns_book::{Book, BookSeat};
use dns_io::{Clock, Link, Work};
use dns_name::SocketAddr;
use dns_service::SharedService;
use dns_stream_driver::{ConnectionEnd, Recorder, serve_connection};
use std::alloc::Global;
use std::sync::{Arc, Wait};

/// A connection that was admitted, to be served in a thread of its own.
#[derive(Drop)]
pub struct ConnectionWork<L, C, J, W> {
    book: Arc<Book>,
    seat: BookSeat,
    client: u64,
    addr: SocketAddr,
    look: Look,
    service: Arc<W>,
    link: L,
    clock: C,
    journal: J,
}

impl<L, C, J, W: SharedService> ConnectionWork<L, C, J, W> {
    /// The connection of the client with this number, from this address, by a look that shows no shutdown.
    pub fn new(
        book: Arc<Book>,
        seat: BookSeat,
        client: u64,
        addr: SocketAddr,
        look: Look,
        service: Arc<W>,
        link: L,
        clock: C,
        journal: J,
    ) -> ConnectionWork<L, C, J, W>
        requires book { seat.book ≡ arc_value book }
        requires running { look.closed ≡ false }
        requires can_call { W.can_call (arc_value service) }
        ensures { result ≡ record {
          book = book;
          seat = seat;
          client = client;
          addr = addr;
          look = look;
          service = service;
          link = link;
          clock = clock;
          journal = journal;
        } }
    {
        ConnectionWork {
            book,
            seat,
            client,
            addr,
            look,
            service,
            link,
            clock,
            journal,
        }
    }
}

impl<
    L: Link + Send + Drop + 'static,
    C: Clock + Send + Drop + 'static,
    J: Recorder + Send + Drop + 'static,
    W: SharedService + Send + Sync + 'static,
> Work for ConnectionWork<L, C, J, W> {
    type Done = (BookSeat, ConnectionEnd, L, C, J);

    ghost addr = { λ w. w.addr };

    ghost ready = { λ w. (w.seat.book ≡ arc_value w.book) × (w.look.closed ≡ false) × W.can_call (arc_value w.service) };

    ghost gives = { λ w d. Observed (L.tells d.2 × J.tells d.4) (L.tells w.link × J.tells w.journal)
        (EndsSo (serving (W.answer (arc_value w.service)) (W.hint (arc_value w.service))) d.1 w.client w.addr w.look
        (J.noted w.journal) (J.noted d.4) w.seat.known d.0.known (L.traffic w.link) (L.traffic d.2))
        × Observed (L.tells d.2 × J.tells d.4) (L.tells w.link × J.tells w.journal)
        (EndShown (serving (W.answer (arc_value w.service)) (W.hint (arc_value w.service))) d.1 w.client w.addr w.look
        (J.noted w.journal) (J.noted d.4) (L.traffic w.link) (L.traffic d.2))
        × WhereClosed d.1 (Observed (L.tells d.2 × C.tells d.3 × J.tells d.4) (L.tells w.link × C.tells w.clock × J.tells w.journal)
        (TimedWhole (J.noted w.journal) (J.noted d.4) (L.traffic w.link).full_writes (L.traffic d.2).full_writes
        (C.readings w.clock) (C.readings d.3)))
        × EndCauses d.1 w.seat.known d.0.known (L.faults w.link) (L.faults d.2)
        × LooksAndRelease w.seat.known d.0.known × (d.0.book ≡ w.seat.book) };

    fn client_addr(&self) -> SocketAddr
        ensures { result ≡ self.now.addr }
    {
        self.addr
    }

    fn run<R: Wait>(self, rt: &R, alloc: Global) -> (BookSeat, ConnectionEnd, L, C, J) {
        let ConnectionWork {
            book,
            seat,
            client,
            addr,
            look,
            service,
            mut link,
            mut clock,
            mut journal,
        } = self;
        let (seat, end) = serve_connection(
            rt,
            alloc,
            &book,
            seat,
            client,
            addr,
            &look,
            &*service,
            &mut link,
            &mut clock,
            &mut journal,
        );
        (seat, end, link, clock, journal)
    }

    /// Gives the slot back and closes the link.
    fn give_up<R: Wait>(self, rt: &R) {
        let ConnectionWork {
            book,
            mut seat,
            mut link,
            ..
        } = self;
        book.release(rt, &mut seat);
        link.close();
    }
}
