//! Datagrams over witnesses.

ghost use Rattle.std.specs.Prelude.{◌≡◌, ◌≤◌, []};
ghost use Rattle.dns_session.specs.Serving.{serving};
ghost use Rattle.dns_dgram_driver.specs.DatagramsServed.{ServedTo, LooksBy, ReceivesBy, world};
ghost use Rattle.dns_witness.specs.Seen.{no_packets};
ghost use Rattle.dns_account.specs.DatagramLaw.{DatagramsByTheRules};

use dns_book::{Book, BookSeat};
use dns_host::{DgramEnd, Silent, serve_datagrams};
use dns_io::{AsyncDgramSock, Clock};
use dns_service::SharedService;
use dns_witness::{WitnessClock, WitnessSock};
use std::alloc::Global;
use std::sync::Wait;

/// Serves datagrams as `serve_datagrams` does, over a witness of this socket and by one of this clock. What it promises if socket,
/// clock and recorder tell holds of what the calls of both answered.
pub fn serve_datagrams_over<R: Wait, D: AsyncDgramSock + Drop, C: Clock + Drop, W: SharedService>(
    rt: &R,
    alloc: Global,
    book: &Book,
    seat: BookSeat,
    service: &W,
    sock: D,
    clock: C,
    count: u64,
) -> (BookSeat, DgramEnd, Silent, WitnessSock<D>, WitnessClock<C>)
    requires book { seat.book ≡ book.now }
    requires can_call { W.can_call service.now }
    ensures observed { ServedTo (serving (W.answer service.now) (W.hint service.now)) result.1 count
        (world [] no_packets (D.failed_sends sock) [] seat.known)
        (world result.2.events result.3.seen.sock_traffic (D.failed_sends result.3.sock) result.4.seen.readings result.0.known) }
    ensures seat { LooksBy result.1 seat.known result.0.known }
    ensures same { result.0.book ≡ seat.book }
    ensures cause { ReceivesBy result.1 (D.failed_receives sock) (D.failed_receives result.3.sock) }
    ensures receives { D.failed_receives sock ≤ D.failed_receives result.3.sock }
    ensures sends { D.failed_sends sock ≤ D.failed_sends result.3.sock }
{
    let mut sock = WitnessSock::new(sock);
    let mut clock = WitnessClock::new(clock);
    let mut journal = Silent::new();
    let (seat, end) = serve_datagrams(
        rt,
        alloc,
        book,
        seat,
        service,
        &mut sock,
        &mut clock,
        &mut journal,
        count,
    );
    (seat, end, journal, sock, clock)
}

/// THE LAW of datagrams, over any socket, real ones too, and by any clock. Each datagram that the socket's calls gave is an
/// exchange of its own. What was sent is what the rules give for these, each to the address of its own exchange. Nothing need tell.
#[tactic(auto, using(crate::proofs::Lawful::datagrams_lawful))]
pub fn every_datagram_kept_to_the_rules<
    R: Wait,
    D: AsyncDgramSock + Drop,
    C: Clock + Drop,
    W: SharedService,
>(
    rt: &R,
    alloc: Global,
    book: &Book,
    seat: BookSeat,
    service: &W,
    sock: D,
    clock: C,
    count: u64,
) -> (BookSeat, DgramEnd, Silent, WitnessSock<D>, WitnessClock<C>)
    requires book { seat.book ≡ book.now }
    requires can_call { W.can_call service.now }
    ensures kept { DatagramsByTheRules (serving (W.answer service.now) (W.hint service.now))
        (world [] no_packets (D.failed_sends sock) [] seat.known)
        (world result.2.events result.3.seen.sock_traffic (D.failed_sends result.3.sock) result.4.seen.readings result.0.known) }
    ensures seat { LooksBy result.1 seat.known result.0.known }
    ensures same { result.0.book ≡ seat.book }
    ensures cause { ReceivesBy result.1 (D.failed_receives sock) (D.failed_receives result.3.sock) }
    ensures receives { D.failed_receives sock ≤ D.failed_receives result.3.sock }
    ensures sends { D.failed_sends sock ≤ D.failed_sends result.3.sock }
{
    serve_datagrams_over(rt, alloc, book, seat, service, sock, clock, count)
}
