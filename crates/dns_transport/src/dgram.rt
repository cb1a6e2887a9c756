//! A server of datagrams.

ghost use Rattle.std.specs.Prelude.{◌≡◌, ◌≤◌, ℕ, false, IfOk};
ghost use Rattle.std.specs.Arc.{arc_value};
ghost use Rattle.dns_service.specs.Config.{default_dgram, default_stream};
ghost use Rattle.dns_admission.specs.Machine.{new_state};
ghost use Rattle.dns_book.specs.Seats.{Called, IsSound, new_known, first_half, second_half};
ghost use Rattle.dns_io.specs.Causes.{Observed};
ghost use Rattle.dns_session.specs.Serving.{serving};
ghost use Rattle.dns_host.specs.DatagramsServed.{LooksBy, ReceivesBy, world};
ghost use Rattle.dns_transport.specs.Parts.{IsSeatAt, known_of};
ghost use Rattle.dns_transport.specs.Runs.{InSlot, DatagramsRan};

use crate::buf::{BufSource, VecBufSource};
use crate::control::Control;
use crate::metered_sock::MeteredSock;
use crate::metrics::ServerMetrics;
use crate::server_parts::{ServerParts, put_seat, split_off, take_seat};
use dns_book::{Admission, Book, BookSeat, Call, Reply};
use dns_host::{DgramEnd, Recorder, serve_datagrams};
use dns_io::{AsyncDgramSock, Clock};
use dns_name::OutOfMemory;
use dns_outside::MioSock;
use dns_service::{DgramConfig, SharedService};
use std::alloc::Global;
use std::marker::Model;
use std::sync::{Arc, Wait};

/// A server of datagrams over a real socket.
pub type UdpServer<W, C> = DgramServer<MioSock, VecBufSource, W, C>;

/// A server of datagrams, with a book and metrics of its own. Its book has one seat more for each control. A source of
/// buffers is a part of it, and no answer depends on it: a datagram is received into 1,024 octets.
#[derive(Drop)]
pub struct DgramServer<D, B, W, C> {
    sock: MeteredSock<D>,
    buf: B,
    service: Arc<W>,
    clock: C,
    metrics: Arc<ServerMetrics>,
    book: Arc<Book>,
    // None while a call has it.
    seat: Option<BookSeat>,
}

impl<D, B, W, C> Model for DgramServer<D, B, W, C> {
    ghost use Rattle.std.specs.Prelude.{◌≡◌, false};
    ghost use Rattle.std.specs.Arc.{arc_value};
    ghost use Rattle.dns_transport.specs.Parts.{DgramParts, IsSeatAt, known_of};

    ghost Value = { DgramParts D W C };

    ghost view = { λ s. record {
      sock = s.sock;
      service = arc_value s.service;
      clock = s.clock;
      book = arc_value s.book;
      known = known_of s.seat;
    } };

    ghost invariant = { λ s. IsSeatAt (arc_value s.book) s.seat × (arc_value s.metrics ≡ false) };
}

impl<D: AsyncDgramSock + Drop, B: BufSource + Drop, W: SharedService, C: Clock + Drop> DgramServer<
    D,
    B,
    W,
    C,
> {
    /// A server with default configurations.
    pub fn new(
        alloc: Global,
        sock: D,
        buf: B,
        service: Arc<W>,
        clock: C,
    ) -> Result<Self, OutOfMemory>
        ensures parts { IfOk result (λ s. (s.sock ≡ sock) × (s.service ≡ arc_value service) × (s.clock ≡ clock)) }
        ensures known { IfOk result (λ s. s.known ≡ new_known (new_state default_dgram default_stream)) }
    {
        DgramServer::with_config(alloc, sock, buf, service, clock, DgramConfig::new())
    }

    /// A server with this configuration. That of streams, which its book has too, is the default one.
    pub fn with_config(
        alloc: Global,
        sock: D,
        buf: B,
        service: Arc<W>,
        clock: C,
        config: DgramConfig,
    ) -> Result<Self, OutOfMemory>
        ensures parts { IfOk result (λ s. (s.sock ≡ sock) × (s.service ≡ arc_value service) × (s.clock ≡ clock)) }
        ensures known { IfOk result (λ s. s.known ≡ new_known (new_state config default_stream)) }
    {
        match ServerParts::of_datagrams(alloc, config) {
            Ok(server_parts) => Ok(DgramServer::on(server_parts, sock, buf, service, clock)),
            Err(error) => Err(error),
        }
    }

    // A server on this ground, whose metrics count no connections.
    fn on(server_parts: ServerParts, sock: D, buf: B, service: Arc<W>, clock: C) -> Self
        requires seat { server_parts.seat.book ≡ arc_value server_parts.book }
        requires metrics { arc_value server_parts.metrics ≡ false }
        ensures { result ≡ record {
          sock = sock;
          service = arc_value service;
          clock = clock;
          book = arc_value server_parts.book;
          known = server_parts.seat.known;
        } }
    {
        let ServerParts {
            book,
            seat,
            metrics,
            counting,
        } = server_parts;
        DgramServer {
            sock: MeteredSock::new(sock, counting),
            buf,
            service,
            clock,
            metrics,
            book,
            seat: Some(seat),
        }
    }

    /// The socket that was handed in, without the counting round it.
    pub fn source(&self) -> &D
        ensures { result.now ≡ self.now.sock }
    {
        self.sock.inner()
    }

    /// What the server counts: datagrams received and sent, and no connections.
    pub fn metrics(&self) -> &Arc<ServerMetrics>
        ensures { arc_value result.now ≡ false }
    {
        &self.metrics
    }

    /// A control of this server, for any thread. The server's seat is split, and the control has the second half.
    pub fn control<R: Wait>(&mut self, rt: &R) -> Control
        ensures server { self.new ≡ record self.old { known = first_half self.old.known } }
        ensures control { result ≡ record { book = self.old.book; known = second_half self.old.known } }
        ensures sound { IsSound self.new.known × IsSound result.known }
    {
        split_off(rt, &self.book, &mut self.seat)
    }

    /// Takes a slot, serves datagrams until the server is shut down or a receive fails, and gives the slot back. If no
    /// slot is free it goes on without one, and if the book is closed it answers at once.
    pub fn run<R: Wait, J: Recorder>(&mut self, rt: &R, alloc: Global, journal: &mut J) -> DgramEnd
        requires { W.can_call self.old.service }
        // If socket, clock and recorder tell.
        ensures observed { Observed (D.tells self.new.sock × C.tells self.new.clock × J.tells journal.new)
            (D.tells self.old.sock × C.tells self.old.clock × J.tells journal.old)
            (DatagramsRan (serving (W.answer self.old.service) (W.hint self.old.service)) result
            (world (J.noted journal.old) (D.sock_traffic self.old.sock) (D.failed_sends self.old.sock)
            (C.readings self.old.clock) self.old.known)
            (world (J.noted journal.new) (D.sock_traffic self.new.sock) (D.failed_sends self.new.sock)
            (C.readings self.new.clock) self.new.known)) }
        // Always.
        ensures seat { InSlot (LooksBy result) (result ≡ DgramEnd.Shutdown) self.old.known self.new.known }
        ensures same { (self.new.book ≡ self.old.book) × (self.new.service ≡ self.old.service) }
        ensures cause { ReceivesBy result (D.failed_receives self.old.sock) (D.failed_receives self.new.sock) }
        ensures receives { D.failed_receives self.old.sock ≤ D.failed_receives self.new.sock }
        ensures sends { D.failed_sends self.old.sock ≤ D.failed_sends self.new.sock }
    {
        serve_from(
            rt,
            alloc,
            &self.book,
            &*self.service,
            &mut self.seat,
            &mut self.sock,
            &mut self.clock,
            journal,
        )
    }
}

/// Serves datagrams from the seat in its place, which is put back at the end.
#[tactic(auto, using(crate::proofs::SeatLaws::is_there))]
fn serve_from<R: Wait, D: AsyncDgramSock, C: Clock, J: Recorder, W: SharedService>(
    rt: &R,
    alloc: Global,
    book: &Book,
    service: &W,
    place: &mut Option<BookSeat>,
    sock: &mut D,
    clock: &mut C,
    journal: &mut J,
) -> DgramEnd
    requires place { IsSeatAt book.now place.old }
    requires can_call { W.can_call service.now }
    ensures observed { Observed (D.tells sock.new × C.tells clock.new × J.tells journal.new)
        (D.tells sock.old × C.tells clock.old × J.tells journal.old)
        (DatagramsRan (serving (W.answer service.now) (W.hint service.now)) result
        (world (J.noted journal.old) (D.sock_traffic sock.old) (D.failed_sends sock.old) (C.readings clock.old) (known_of place.old))
        (world (J.noted journal.new) (D.sock_traffic sock.new) (D.failed_sends sock.new) (C.readings clock.new) (known_of place.new))) }
    ensures seat { InSlot (LooksBy result) (result ≡ DgramEnd.Shutdown) (known_of place.old) (known_of place.new) }
    ensures place { IsSeatAt book.now place.new }
    ensures cause { ReceivesBy result (D.failed_receives sock.old) (D.failed_receives sock.new) }
    ensures receives { D.failed_receives sock.old ≤ D.failed_receives sock.new }
    ensures sends { D.failed_sends sock.old ≤ D.failed_sends sock.new }
{
    let seat = take_seat(place);
    let (seat, end) = serve_in_slot(rt, alloc, book, service, seat, sock, clock, journal);
    put_seat(place, seat);
    end
}

/// Gives back the slot in which datagrams were served.
fn give_back<R: Wait>(rt: &R, book: &Book, served: (BookSeat, DgramEnd)) -> (BookSeat, DgramEnd)
    requires { served.0.book ≡ book.now }
    ensures released { (left : ℕ) × Called served.0.known Call.Release (Reply.Left left) result.0.known }
    ensures same { result.0.book ≡ served.0.book }
    ensures end { result.1 ≡ served.1 }
{
    let (mut seat, end) = served;
    book.release(rt, &mut seat);
    (seat, end)
}

/// Serves datagrams without a count, in a slot if one is free.
fn serve_in_slot<R: Wait, D: AsyncDgramSock, C: Clock, J: Recorder, W: SharedService>(
    rt: &R,
    alloc: Global,
    book: &Book,
    service: &W,
    mut seat: BookSeat,
    sock: &mut D,
    clock: &mut C,
    journal: &mut J,
) -> (BookSeat, DgramEnd)
    requires book { seat.book ≡ book.now }
    requires can_call { W.can_call service.now }
    ensures observed { Observed (D.tells sock.new × C.tells clock.new × J.tells journal.new)
        (D.tells sock.old × C.tells clock.old × J.tells journal.old)
        (DatagramsRan (serving (W.answer service.now) (W.hint service.now)) result.1
        (world (J.noted journal.old) (D.sock_traffic sock.old) (D.failed_sends sock.old) (C.readings clock.old) seat.known)
        (world (J.noted journal.new) (D.sock_traffic sock.new) (D.failed_sends sock.new) (C.readings clock.new) result.0.known)) }
    ensures seat { InSlot (LooksBy result.1) (result.1 ≡ DgramEnd.Shutdown) seat.known result.0.known }
    ensures same { result.0.book ≡ seat.book }
    ensures cause { ReceivesBy result.1 (D.failed_receives sock.old) (D.failed_receives sock.new) }
    ensures receives { D.failed_receives sock.old ≤ D.failed_receives sock.new }
    ensures sends { D.failed_sends sock.old ≤ D.failed_sends sock.new }
{
    match book.admit(rt, &mut seat) {
        Admission::Closed => (seat, DgramEnd::Shutdown),
        Admission::Full { .. } => serve_datagrams(
            rt, alloc, book, seat, service, sock, clock, journal, 0,
        ),
        Admission::Admitted(_) => give_back(
            rt,
            book,
            serve_datagrams(rt, alloc, book, seat, service, sock, clock, journal, 0),
        ),
    }
}
