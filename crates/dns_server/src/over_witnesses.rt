//! Hosts and servers over witnesses.

ghost use Rattle.std.specs.Prelude.{◌≡◌, ◌⊎◌, ◌≤◌, false};
ghost use Rattle.std.specs.Arc.{arc_value};
ghost use Rattle.dns_middleware.specs.Verdicts.{verdict_on};
ghost use Rattle.dns_middleware.specs.Wrapped.{hint_left, replies};
ghost use Rattle.dns_session.specs.Serving.{serving};
ghost use Rattle.dns_dgram_driver.specs.DatagramsServed.{LooksBy, ReceivesBy, world};
ghost use Rattle.dns_transport.specs.Hosting.{NeitherBegan, host_seen};
ghost use Rattle.dns_account.specs.Hosts.{AcceptTells, HostKept};
ghost use Rattle.dns_account.specs.Law.{EndSeen, KeptToTheRules};
ghost use Rattle.dns_stream_driver.specs.Clocks.{TimedWhole};
ghost use Rattle.dns_stream_driver.specs.Endings.{EndCauses, EndShown, EndsSo, WhereClosed};
ghost use Rattle.dns_stream_driver.specs.Story.{LooksAndRelease};
ghost use Rattle.dns_transport.specs.Runs.{ConnectionsRan, DatagramsRan, InSlot};
ghost use Rattle.dns_host_status.specs.HostStatus.{OfHost};
ghost use Rattle.dns_server.specs.OverWitnesses.{ServerKept, WorkersKept};
ghost use Rattle.dns_workers.specs.Faults.{RoseBy};

use crate::server_host::serve_host;
use crate::server_workers::serve_workers;
use dns_book::{Book, BookSeat};
use dns_core::{Notifiable, Settings};
use dns_io::{AsyncAccept, AsyncDgramSock, Clock, Link, Spawner, Work};
use dns_middleware::Wrapped;
use dns_run::Status;
use dns_service::{Service, SharedService, WithoutMeta};
use dns_transport::{
    BufSource, ConnectionEnd, ConnectionWork, DgramEnd, DgramServer, Host, Metered, PreConnect,
    Silent, StreamEnd, StreamServer,
};
use dns_witness::{Witness, WitnessAccept, WitnessClock, WitnessSock, WitnessSpawner};
use dns_workers::WorkersHost;
use std::alloc::Global;
use std::sync::{Arc, Wait};
use std::thread::Threads;

/// Serves as `serve_host` does, over witnesses of any accept object, socket, clock and spawner. What is promised if these tell
/// holds of what their calls answered. So what is sent to each client are the frames and datagrams of the rules.
pub fn serve_host_over<
    R: Threads + Wait + Copy + Send + Sync + 'static,
    A: AsyncAccept,
    D: AsyncDgramSock + Send,
    C: Clock + Send + Drop + 'static,
    S: Service<()> + Send + Sync + 'static,
    N: Notifiable + Send + Sync + 'static,
    P: Spawner<
        ConnectionWork<Witness<A::Link>, WitnessClock<C>, Silent, WithoutMeta<Wrapped<S, N>>>,
    >,
>(
    rt: &R,
    alloc: Global,
    settings: &Settings,
    service: S,
    target: N,
    book: &Arc<Book>,
    seat: BookSeat,
    host: &mut Host<WitnessAccept<A>, WitnessSock<D>, WitnessClock<C>, WitnessSpawner<P>, Silent>,
    count: u64,
) -> (BookSeat, Status)
where
    A::Link: Send + Drop + 'static,
    S::Future: Send,
    S::Stream: Send,
    N::Future: Send,
    requires book { seat.book ≡ arc_value book.now }
    requires can_call { S.can_call service }
    ensures kept { OfHost (λ end. HostKept (host_seen (λ a. a.seen.accept_traffic) (λ p. p.seen.given) (λ j. j.events)
        (λ d. d.seen.sock_traffic) (λ c. c.seen.readings)
        (λ a. A.faults a.accept) (λ p. P.faults p.spawner) (λ d. D.failed_receives d.sock) (λ d. D.failed_sends d.sock))
        (serving (replies settings.now (S.answer service) (verdict_on (N.verdict target))) (hint_left settings.now))
        end count seat.known result.0.known host.old host.new) result.1 }
    ensures same { result.0.book ≡ seat.book }
{
    serve_host(
        rt, alloc, settings, service, target, book, seat, host, count,
    )
}

/// Serves as `serve_workers` does, over witnesses of any accept object, sockets, clocks and spawner. What is promised if these tell
/// holds of what their calls answered. So what is sent to each client are the frames and datagrams of the rules.
pub fn serve_workers_over<
    R: Threads + Wait + Copy + Send + Sync + 'static,
    A: AsyncAccept,
    D: AsyncDgramSock + Send,
    C: Clock + Send + Drop + 'static,
    S: Service<()> + Send + Sync + 'static,
    N: Notifiable + Send + Sync + 'static,
    P: Spawner<
        ConnectionWork<Witness<A::Link>, WitnessClock<C>, Silent, WithoutMeta<Wrapped<S, N>>>,
    >,
>(
    rt: &R,
    alloc: Global,
    settings: &Settings,
    service: S,
    target: N,
    clock: &WitnessClock<C>,
    book: &Arc<Book>,
    seat: BookSeat,
    host: &mut WorkersHost<
        WitnessAccept<A>,
        WitnessSock<D>,
        WitnessClock<C>,
        WitnessSpawner<P>,
        Silent,
    >,
    count: u64,
) -> (BookSeat, Status)
where
    A::Link: Send + Drop + 'static,
    S::Future: Send,
    S::Stream: Send,
    N::Future: Send,
    requires book { seat.book ≡ arc_value book.now }
    requires can_call { S.can_call service }
    // All were served by the wrapped service. Or memory ran out before, in `wrap` too: then the book was shut down, and nothing
    // else was done.
    ensures kept { OfHost (λ end. WorkersKept (λ d. d.seen.sock_traffic) (λ d. D.failed_sends d.sock) (λ c. c.seen.readings) (λ j. j.events)
        (λ d. D.failed_receives d.sock) (λ a. a.seen.accept_traffic) (λ a. A.faults a.accept) (λ p. p.seen.given) (λ p. P.faults p.spawner)
        (serving (replies settings.now (S.answer service) (verdict_on (N.verdict target))) (hint_left settings.now))
        end count seat.known result.0.known host.old host.new
        ⊎ (NeitherBegan end seat.known result.0.known × (host.new ≡ host.old))) result.1 }
    ensures cause { OfHost (λ end. RoseBy (λ d. D.failed_receives d.sock) (λ d. D.failed_sends d.sock)
        (λ a. A.faults a.accept) (λ p. P.faults p.spawner) end host.old host.new) result.1 }
    ensures same { result.0.book ≡ seat.book }
{
    serve_workers(
        rt, alloc, settings, service, target, clock, book, seat, host, count,
    )
}

/// Runs a server of datagrams over witnesses of any socket and clock. Nothing need tell.
pub fn run_dgram_server_over<
    R: Wait,
    D: AsyncDgramSock + Drop,
    B: BufSource + Drop,
    W: SharedService,
    C: Clock + Drop,
>(
    rt: &R,
    alloc: Global,
    server: &mut DgramServer<WitnessSock<D>, B, W, WitnessClock<C>>,
    journal: &mut Silent,
) -> DgramEnd
    requires { W.can_call server.old.service }
    ensures ran { DatagramsRan (serving (W.answer server.old.service) (W.hint server.old.service)) result
        (world journal.old.events server.old.sock.seen.sock_traffic (D.failed_sends server.old.sock.sock)
        server.old.clock.seen.readings server.old.known)
        (world journal.new.events server.new.sock.seen.sock_traffic (D.failed_sends server.new.sock.sock)
        server.new.clock.seen.readings server.new.known) }
    ensures kept { ServerKept (serving (W.answer server.old.service) (W.hint server.old.service))
        (world journal.old.events server.old.sock.seen.sock_traffic (D.failed_sends server.old.sock.sock)
        server.old.clock.seen.readings server.old.known)
        (world journal.new.events server.new.sock.seen.sock_traffic (D.failed_sends server.new.sock.sock)
        server.new.clock.seen.readings server.new.known) }
    ensures seat { InSlot (LooksBy result) (result ≡ DgramEnd.Shutdown) server.old.known server.new.known }
    ensures same { (server.new.book ≡ server.old.book) × (server.new.service ≡ server.old.service) }
    ensures cause { ReceivesBy result (D.failed_receives server.old.sock.sock) (D.failed_receives server.new.sock.sock) }
    ensures receives { D.failed_receives server.old.sock.sock ≤ D.failed_receives server.new.sock.sock }
    ensures sends { D.failed_sends server.old.sock.sock ≤ D.failed_sends server.new.sock.sock }
{
    server.run(rt, alloc, journal)
}

/// Runs a server of connections over witnesses of any accept object, clock and spawner. Nothing need tell. Each connection is a work
/// of which `every_counted_connection_kept_to_the_rules` speaks.
pub fn run_stream_server_over<
    R: Threads + Wait + Copy + Send + 'static,
    A: AsyncAccept,
    B,
    W: SharedService + Send + Sync + 'static,
    C: Clock + Send + Drop + 'static,
    P: Spawner<ConnectionWork<Metered<Witness<A::Link>>, WitnessClock<C>, Silent, W>>,
    H: PreConnect<Witness<A::Link>>,
>(
    rt: &R,
    alloc: Global,
    server: &mut StreamServer<WitnessAccept<A>, B, W, WitnessClock<C>, WitnessSpawner<P>, H>,
) -> StreamEnd
where
    A::Link: Send + Drop + 'static,
    W::Future: Send,
    W::Stream: Send,
    requires { W.can_call server.old.service }
    ensures ran { ConnectionsRan result AcceptTells AcceptTells server.old.known server.new.known
        server.old.accept.seen.accept_traffic server.new.accept.seen.accept_traffic
        server.old.spawner.seen.given server.new.spawner.seen.given
        (A.faults server.old.accept.accept) (A.faults server.new.accept.accept) }
    ensures same { (server.new.book ≡ server.old.book) × (server.new.service ≡ server.old.service)
        × (server.new.clock ≡ server.old.clock) }
    ensures accepts_later { A.faults server.old.accept.accept ≤ A.faults server.new.accept.accept }
    ensures starts_later { P.faults server.old.spawner.spawner ≤ P.faults server.new.spawner.spawner }
{
    server.run(rt, alloc)
}

/// The work of a connection whose link counts, over witnesses, as it ends.
fn ended<
    R: Wait,
    L: Link + Send + Drop + 'static,
    C: Clock + Send + Drop + 'static,
    W: SharedService + Send + Sync + 'static,
>(
    rt: &R,
    alloc: Global,
    work: ConnectionWork<Metered<Witness<L>>, WitnessClock<C>, Silent, W>,
) -> (
    BookSeat,
    ConnectionEnd,
    Metered<Witness<L>>,
    WitnessClock<C>,
    Silent,
)
    requires { (work.seat.book ≡ arc_value work.book) × (work.look.closed ≡ false) × W.can_call (arc_value work.service) }
    ensures observed { EndsSo
        (serving (W.answer (arc_value work.service)) (W.hint (arc_value work.service))) result.1 work.client work.addr work.look
        work.journal.events result.4.events work.seat.known result.0.known work.link.seen.traffic result.2.seen.traffic }
    ensures shown { EndShown
        (serving (W.answer (arc_value work.service)) (W.hint (arc_value work.service))) result.1 work.client work.addr work.look
        work.journal.events result.4.events work.link.seen.traffic result.2.seen.traffic }
    ensures clock { WhereClosed result.1 (TimedWhole work.journal.events result.4.events
        work.link.seen.traffic.full_writes result.2.seen.traffic.full_writes work.clock.seen.readings result.3.seen.readings) }
    ensures cause { EndCauses result.1 work.seat.known result.0.known (L.faults work.link.link) (L.faults result.2.link) }
    ensures seat { LooksAndRelease work.seat.known result.0.known × (result.0.book ≡ work.seat.book) }
{
    work.run(rt, alloc)
}

/// The law of connections (`every_connection_kept_to_the_rules` of dns_account) for those of a `StreamServer`, whose links count.
pub fn every_counted_connection_kept_to_the_rules<
    R: Wait,
    L: Link + Send + Drop + 'static,
    C: Clock + Send + Drop + 'static,
    W: SharedService + Send + Sync + 'static,
>(
    rt: &R,
    alloc: Global,
    work: ConnectionWork<Metered<Witness<L>>, WitnessClock<C>, Silent, W>,
) -> (
    BookSeat,
    ConnectionEnd,
    Metered<Witness<L>>,
    WitnessClock<C>,
    Silent,
)
    requires { (work.seat.book ≡ arc_value work.book) × (work.look.closed ≡ false) × W.can_call (arc_value work.service) }
    ensures kept { KeptToTheRules
        (serving (W.answer (arc_value work.service)) (W.hint (arc_value work.service))) result.1 work.client work.addr work.look
        work.journal.events result.4.events work.link.seen.traffic result.2.seen.traffic }
    // Why it was closed: what the link's calls said of it, and what the events did.
    ensures seen { EndSeen result.1 work.link.seen.traffic result.2.seen.traffic }
    ensures shown { EndShown
        (serving (W.answer (arc_value work.service)) (W.hint (arc_value work.service))) result.1 work.client work.addr work.look
        work.journal.events result.4.events work.link.seen.traffic result.2.seen.traffic }
    // When each event was.
    ensures clock { WhereClosed result.1 (TimedWhole work.journal.events result.4.events
        work.link.seen.traffic.full_writes result.2.seen.traffic.full_writes work.clock.seen.readings result.3.seen.readings) }
    ensures cause { EndCauses result.1 work.seat.known result.0.known (L.faults work.link.link) (L.faults result.2.link) }
    ensures seat { LooksAndRelease work.seat.known result.0.known × (result.0.book ≡ work.seat.book) }
{
    ended(rt, alloc, work)
}
