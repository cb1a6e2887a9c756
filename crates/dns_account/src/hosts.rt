//! Hosts over witnesses.

ghost use Rattle.std.specs.Prelude.{◌≡◌};
ghost use Rattle.std.specs.Arc.{arc_value};
ghost use Rattle.dns_session.specs.Serving.{serving};
ghost use Rattle.dns_host.specs.Hosting.{host_seen};
ghost use Rattle.dns_account.specs.Hosts.{HostKept};

use dns_book::{Book, BookSeat};
use dns_host::{ConnectionWork, Host, HostEnd, Silent, host_service};
use dns_io::{AsyncAccept, AsyncDgramSock, Clock, Spawner};
use dns_service::SharedService;
use dns_witness::{Witness, WitnessAccept, WitnessClock, WitnessSock, WitnessSpawner};
use std::alloc::Global;
use std::sync::{Arc, Wait};
use std::thread::Threads;

/// Serves a host as `host_service` does, over witnesses of any accept object, socket, clock and spawner. What it promises if these
/// tell holds of what their calls answered. Each connection is a work over a witness of its link, of which
/// `every_connection_kept_to_the_rules` speaks.
pub fn serve_host_over<
    R: Threads + Wait + Copy + Send + Sync + 'static,
    A: AsyncAccept,
    D: AsyncDgramSock + Send,
    C: Clock + Send + Drop + 'static,
    W: SharedService + Send + Sync + 'static,
    P: Spawner<ConnectionWork<Witness<A::Link>, WitnessClock<C>, Silent, W>>,
>(
    rt: &R,
    alloc: Global,
    service: W,
    book: &Arc<Book>,
    seat: BookSeat,
    host: &mut Host<WitnessAccept<A>, WitnessSock<D>, WitnessClock<C>, WitnessSpawner<P>, Silent>,
    count: u64,
) -> (BookSeat, HostEnd)
where
    A::Link: Send + Drop + 'static,
    W::Future: Send,
    W::Stream: Send,
    requires book { seat.book ≡ arc_value book.now }
    requires can_call { W.can_call service }
    ensures kept { HostKept (host_seen (λ a. a.seen.accept_traffic) (λ p. p.seen.given) (λ j. j.events)
        (λ d. d.seen.sock_traffic) (λ c. c.seen.readings)
        (λ a. A.faults a.accept) (λ p. P.faults p.spawner) (λ d. D.failed_receives d.sock) (λ d. D.failed_sends d.sock))
        (serving (W.answer service) (W.hint service)) result.1 count seat.known result.0.known host.old host.new }
    ensures same { result.0.book ≡ seat.book }
{
    host_service(rt, alloc, service, book, seat, host, count)
}
