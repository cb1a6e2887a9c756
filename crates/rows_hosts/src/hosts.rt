//! Whole hosts, whose service stands in all layers.

ghost use Rattle.std.specs.Prelude.{◌≡◌, IfOk};
ghost use Rattle.std.specs.Arc.{arc_value};

use crate::with_workers;
use dns_book::{Book, BookSeat, BookState};
use dns_middleware::{Notifiable, Settings, Wrapped};
use dns_name::{OptRcode, OutOfMemory};
use dns_outside::{
    AsyncAccept, Clock, Link, MemoryClock, MemorySock, MemorySpawner, Packet, Spawner,
};
use dns_server::{
    NotifyRules, ScriptTarget, Status, Witness, WitnessAccept, WitnessClock, WitnessSock,
    WitnessSpawner, serve_host_over,
};
use dns_service::{
    ConnectionConfig, DgramConfig, Service, SharedService, StreamConfig, WithoutMeta,
};
use dns_transport::{ConnectionWork, Host, Silent};
use rows_links::{Holding, Seen, accept_of, calls, clock, packet, show};
use std::alloc::Global;
use std::sync::{Arc, Wait};
use std::thread::Threads;

/// Queries for the root's address, with id 1 and 2, after their length, and their replies.
const FIRST: &[u8] =
    b"\x00\x11\x00\x01\x01\x00\x00\x01\x00\x00\x00\x00\x00\x00\x00\x00\x01\x00\x01";

const FIRST_REPLY: &[u8] =
    b"\x00\x11\x00\x01\x81\x00\x00\x01\x00\x00\x00\x00\x00\x00\x00\x00\x01\x00\x01";

const SECOND: &[u8] =
    b"\x00\x11\x00\x02\x01\x00\x00\x01\x00\x00\x00\x00\x00\x00\x00\x00\x01\x00\x01";

const SECOND_REPLY: &[u8] =
    b"\x00\x11\x00\x02\x81\x00\x00\x01\x00\x00\x00\x00\x00\x00\x00\x00\x01\x00\x01";

/// A datagram that gets no reply, and what is written on a link that gets none.
const OCTET: &[u8] = b"\x00";

const NOTHING: &[u8] = b"";

/// The second query in a datagram.
const LETTER: &[u8] = b"\x00\x02\x01\x00\x00\x01\x00\x00\x00\x00\x00\x00\x00\x00\x01\x00\x01";

/// A query for the root's address in a datagram, and its replies that all is well and that the name isn't there.
const QUERY: &[u8] = b"\x12\x34\x01\x00\x00\x01\x00\x00\x00\x00\x00\x00\x00\x00\x01\x00\x01";

const REPLY: &[u8] = b"\x12\x34\x81\x00\x00\x01\x00\x00\x00\x00\x00\x00\x00\x00\x01\x00\x01";

const NO_NAME: &[u8] = b"\x12\x34\x81\x03\x00\x01\x00\x00\x00\x00\x00\x00\x00\x00\x01\x00\x01";

/// A query with an OPT record after its length, and such replies. They say after how many units of 100 ms an idle connection is
/// closed (RFC 7828): by the look at which the connection was admitted, 5 s.
const FRAME: &[u8] =
    b"\x00\x1c\x12\x34\x01\x00\x00\x01\x00\x00\x00\x00\x00\x01\x00\x00\x01\x00\x01\x00\x00\x29\x00\x00\x00\x00\x00\x00\x00\x00";

const REPLY_FRAME: &[u8] =
    b"\x00\x22\x12\x34\x81\x00\x00\x01\x00\x00\x00\x00\x00\x01\x00\x00\x01\x00\x01\x00\x00\x29\x00\x00\x00\x00\x00\x00\x00\x06\x00\x0b\x00\x02\x00\x32";

const NO_NAME_FRAME: &[u8] =
    b"\x00\x22\x12\x34\x81\x03\x00\x01\x00\x00\x00\x00\x00\x01\x00\x00\x01\x00\x01\x00\x00\x29\x00\x00\x00\x00\x00\x00\x00\x06\x00\x0b\x00\x02\x00\x32";

/// Datagrams of these octets.
fn packets(alloc: Global, datagrams: &[&[u8]]) -> Result<Vec<Packet>, OutOfMemory> {
    let mut packets = Vec::new(alloc);
    for octets in datagrams {
        packets.push(packet(alloc, octets)?)?;
    }
    Ok(packets)
}

/// Whether this datagram was sent alone, or none if none is wanted.
fn was_sent(sent: &[Packet], wanted: Option<&[u8]>) -> bool {
    match wanted {
        Some(octets) => sent.len() == 1 && sent[0].octets.as_slice() == octets,
        None => sent.is_empty(),
    }
}

/// What a host is given, and what is wanted of it.
#[derive(Clone, Copy)]
pub(crate) struct HostCase<'a> {
    /// A link comes for each of these queries.
    queries: &'a [&'a [u8]],
    datagrams: &'a [&'a [u8]],
    /// The calls that fail.
    failed_accepts: &'a [u64],
    failed_receives: &'a [u64],
    failed_sends: &'a [u64],
    failed_starts: &'a [u64],
    /// Whether the service answers that the name isn't there, and whether a poll of the first query is held.
    is_missing: bool,
    is_held: bool,
    pub(crate) count: u64,
    status: Status,
    /// The octets written on each link, which is handed to no hook and closed once.
    shown: &'a [(&'a [u8], u64)],
    /// The datagram that is sent.
    sent: Option<&'a [u8]>,
}

/// What a host is given besides its links: a socket, the starts that fail, a service, and what is told of changed zones.
#[derive(Drop)]
pub(crate) struct Given<S, N> {
    pub(crate) sock: MemorySock,
    pub(crate) failed_starts: Vec<u64>,
    pub(crate) service: S,
    pub(crate) target: N,
}

/// The work of a connection by a service and a target in layers.
pub(crate) type Connection<L, S, N> = ConnectionWork<
    Witness<L>,
    WitnessClock<MemoryClock>,
    Silent,
    WithoutMeta<Wrapped<S, N>>,
>;

/// A host over witnesses of objects in memory.
type Witnessed<A, P> = Host<
    WitnessAccept<A>,
    WitnessSock<MemorySock>,
    WitnessClock<MemoryClock>,
    WitnessSpawner<P>,
    Silent,
>;

impl HostCase<'_> {
    fn sock(&self, alloc: Global) -> Result<MemorySock, OutOfMemory> {
        let receives = calls(alloc, self.failed_receives, &[])?;
        let sends = calls(alloc, self.failed_sends, &[])?;
        match packets(alloc, self.datagrams) {
            Ok(packets) => Ok(MemorySock::new(alloc, packets, receives, sends)),
            Err(error) => Err(error),
        }
    }

    /// The service that answers as is said.
    fn service(&self, alloc: Global) -> Result<Holding, OutOfMemory> {
        let rcode = if self.is_missing {
            OptRcode::NXDOMAIN
        } else {
            OptRcode::NOERROR
        };
        Holding::new(alloc, !self.is_held, rcode)
    }

    fn given(&self, alloc: Global) -> Result<Given<Holding, ScriptTarget>, OutOfMemory> {
        let failed_starts = Vec::from_slice(alloc, self.failed_starts)?;
        let service = self.service(alloc)?;
        match self.sock(alloc) {
            Ok(sock) => Ok(Given {
                sock,
                failed_starts,
                service,
                target: ScriptTarget::new(NotifyRules::new(alloc)),
            }),
            Err(error) => Err(error),
        }
    }

    /// Whether the host ended so, with no slot taken and this datagram sent.
    pub(crate) fn is_ended(&self, end: (Status, u64), sent: &[Packet]) -> bool {
        end == (self.status, 0) && was_sent(sent, self.sent)
    }
}

/// How a host ends by a service in the layers of the first settings, and how many slots of a book are taken then.
fn end_in<
    R: Threads + Wait + Copy + Send + Sync + 'static,
    A: AsyncAccept,
    S: Service<()> + Send + Sync + 'static,
    N: Notifiable + Send + Sync + 'static,
    P: Spawner<Connection<A::Link, S, N>>,
>(
    rt: &R,
    alloc: Global,
    host: &mut Witnessed<A, P>,
    service: S,
    target: N,
    book: &Arc<Book>,
    seat: BookSeat,
    count: u64,
) -> (Status, u64)
where
    A::Link: Send + Drop + 'static,
    S::Future: Send,
    S::Stream: Send,
    N::Future: Send,
    requires book { seat.book ≡ arc_value book.now }
    requires can_call { S.can_call service }
{
    let settings = Settings::new(alloc);
    let (mut seat, status) = serve_host_over(
        rt, alloc, &settings, service, target, book, seat, host, count,
    );
    (status, book.look(rt, &mut seat).taken)
}

/// An open book with ten slots, whose connections may be idle for 5 s, and its first seat.
pub(crate) fn host_book(alloc: Global) -> Result<(Arc<Book>, BookSeat), OutOfMemory>
    ensures { IfOk result (λ r. r.1.book ≡ arc_value r.0) }
{
    let mut connection = ConnectionConfig::new();
    connection.set_idle_timeout(5_000);
    let mut stream = StreamConfig::new();
    stream.set_max_concurrent_connections(10);
    stream.set_connection_config(connection);
    let (book, seat) = Book::new(alloc, BookState::new(DgramConfig::new(), stream))?;
    Ok((Arc::new(alloc, book)?, seat))
}

/// How a host ends in a new book with ten slots, and how many of them are taken then.
fn host_end<
    R: Threads + Wait + Copy + Send + Sync + 'static,
    A: AsyncAccept,
    S: Service<()> + Send + Sync + 'static,
    N: Notifiable + Send + Sync + 'static,
    P: Spawner<Connection<A::Link, S, N>>,
>(
    rt: &R,
    alloc: Global,
    host: &mut Witnessed<A, P>,
    service: S,
    target: N,
    count: u64,
) -> (Status, u64)
where
    A::Link: Send + Drop + 'static,
    S::Future: Send,
    S::Stream: Send,
    N::Future: Send,
    requires { S.can_call service }
{
    match host_book(alloc) {
        Ok((book, seat)) => end_in(rt, alloc, host, service, target, &book, seat, count),
        Err(_) => (Status::OutOfMemory, 1),
    }
}

/// Whether a host ends as is wanted.
fn host_ends<
    R: Threads + Wait + Copy + Send + Sync + 'static,
    A: AsyncAccept + Drop,
    S: Service<()> + Send + Sync + 'static,
    N: Notifiable + Send + Sync + 'static,
    P: Spawner<Connection<A::Link, S, N>> + Drop,
>(
    rt: &R,
    alloc: Global,
    case: &HostCase<'_>,
    mut host: Witnessed<A, P>,
    service: S,
    target: N,
) -> bool
where
    A::Link: Send + Drop + 'static,
    S::Future: Send,
    S::Stream: Send,
    N::Future: Send,
    requires { S.can_call service }
{
    let end = host_end(rt, alloc, &mut host, service, target, case.count);
    let Host { sock, .. } = host;
    case.is_ended(end, sock.into_inner().sent())
}

/// A spawner in memory of the work of connections over such a link, by such a clock and service. These starts fail.
fn spawner_over<
    L: Link + Send + Drop + 'static,
    C: Clock + Send + Drop + 'static,
    T: SharedService + Send + Sync + 'static,
>(alloc: Global, failing: Vec<u64>) -> MemorySpawner<ConnectionWork<L, C, Silent, T>>
where
    T::Future: Send,
    T::Stream: Send,
{
    MemorySpawner::new(alloc, failing)
}

/// Such a spawner of work over witnesses of the link and the clock.
pub(crate) fn spawner_over_witnesses<
    L: Link + Send + Drop + 'static,
    C: Clock + Send + Drop + 'static,
    T: SharedService + Send + Sync + 'static,
>(
    alloc: Global,
    failing: Vec<u64>,
) -> MemorySpawner<ConnectionWork<Witness<L>, WitnessClock<C>, Silent, T>>
where
    T::Future: Send,
    T::Stream: Send,
{
    spawner_over(alloc, failing)
}

/// Whether a host with this accept object ends as is wanted.
fn ends_over<
    R: Threads + Wait + Copy + Send + Sync + 'static,
    A: AsyncAccept + Drop,
    S: Service<()> + Send + Sync + 'static,
    N: Notifiable + Send + Sync + 'static,
>(rt: &R, alloc: Global, case: &HostCase<'_>, accept: A, given: Given<S, N>) -> bool
where
    A::Link: Send + Drop + 'static,
    S::Future: Send,
    S::Stream: Send,
    N::Future: Send,
    requires { S.can_call given.service }
{
    let Given {
        sock,
        failed_starts,
        service,
        target,
    } = given;
    let spawner: MemorySpawner<Connection<A::Link, S, N>> = spawner_over_witnesses(
        alloc,
        failed_starts,
    );
    let host = Host {
        accept: WitnessAccept::new(accept),
        sock: WitnessSock::new(sock),
        clock: WitnessClock::new(clock(alloc)),
        spawner: WitnessSpawner::new(spawner),
        journal: Silent::new(),
    };
    host_ends(rt, alloc, case, host, service, target)
}

/// Whether a host with a link for each query, or one with a worker, ends as is wanted.
fn ends<R: Threads + Wait + Copy + Send + Sync + Drop + 'static>(
    rt: &R,
    alloc: Global,
    case: &HostCase<'_>,
    by_worker: bool,
    given: Given<Holding, ScriptTarget>,
    seen: &mut Vec<Arc<Seen>>,
) -> bool {
    match accept_of(*rt, alloc, case.queries, case.failed_accepts, &[], seen) {
        Ok(accept) => {
            if by_worker {
                with_workers::ends_over(rt, alloc, case, accept, given)
            } else {
                ends_over(rt, alloc, case, accept, given)
            }
        }
        Err(_) => false,
    }
}

/// Whether it does, and the links show what is wanted.
fn is_shown<R: Threads + Wait + Copy + Send + Sync + Drop + 'static>(
    rt: &R,
    alloc: Global,
    case: &HostCase<'_>,
    by_worker: bool,
    given: Given<Holding, ScriptTarget>,
) -> bool {
    let mut seen = Vec::new(alloc);
    ends(rt, alloc, case, by_worker, given, &mut seen) && show(rt, &seen, case.shown, 1)
}

/// Whether it does of what the case says.
fn is_served<R: Threads + Wait + Copy + Send + Sync + Drop + 'static>(
    rt: &R,
    alloc: Global,
    case: &HostCase<'_>,
    by_worker: bool,
) -> bool {
    match case.given(alloc) {
        Ok(given) => is_shown(rt, alloc, case, by_worker, given),
        Err(_) => false,
    }
}

/// One connection and one datagram that gets no reply.
const ONE: HostCase<'static> = HostCase {
    queries: &[SECOND],
    datagrams: &[OCTET],
    failed_accepts: &[],
    failed_receives: &[],
    failed_sends: &[],
    failed_starts: &[],
    is_missing: false,
    is_held: false,
    count: 1,
    status: Status::HostFault,
    shown: &[(SECOND_REPLY, 0)],
    sent: None,
};

/// One connection and one datagram, both answered.
const BOTH: HostCase<'static> = HostCase {
    queries: &[FRAME],
    datagrams: &[QUERY],
    status: Status::Done,
    shown: &[(REPLY_FRAME, 0)],
    sent: Some(REPLY),
    ..ONE
};

/// Hosts, by names.
const CASES: &[(&'static str, HostCase<'static>)] = &[
    // The first poll of one client is held until the other client's request is polled.
    (
        "held_poll",
        HostCase {
            queries: &[FIRST, SECOND],
            datagrams: &[OCTET, OCTET],
            is_held: true,
            count: 2,
            status: Status::Done,
            shown: &[(FIRST_REPLY, 0), (SECOND_REPLY, 0)],
            ..ONE
        },
    ),
    // The second of three starts is refused: its slot is given back and its link closed, the others are served, and the host ends
    // by a fault.
    (
        "a_refused_start_is_given_up",
        HostCase {
            queries: &[SECOND, SECOND, SECOND],
            datagrams: &[OCTET, OCTET, OCTET],
            failed_starts: &[1],
            count: 3,
            shown: &[(SECOND_REPLY, 0), (NOTHING, 0), (SECOND_REPLY, 0)],
            ..ONE
        },
    ),
    // After an accept that failed the loop goes on, and the host ends by a fault.
    (
        "a_failed_accept_is_passed_over",
        HostCase {
            failed_accepts: &[0, 1],
            ..ONE
        },
    ),
    // After a receive that failed the book is shut down, so that accepting ends too.
    (
        "a_failed_receive_ends_all",
        HostCase {
            queries: &[],
            failed_receives: &[1],
            count: 0,
            shown: &[],
            ..ONE
        },
    ),
    // After a send that failed the loop goes on and all else is served, and the host ends by a fault.
    (
        "a_failed_send_is_told",
        HostCase {
            datagrams: &[LETTER],
            failed_sends: &[0],
            ..ONE
        },
    ),
    // All is well.
    ("no_error", BOTH),
    // The name isn't there.
    (
        "no_such_name",
        HostCase {
            is_missing: true,
            shown: &[(NO_NAME_FRAME, 0)],
            sent: Some(NO_NAME),
            ..BOTH
        },
    ),
];

/// What a test ends with, if all are served as is wanted, and else the name of the first that isn't.
fn all_hold<R: Threads + Wait + Copy + Send + Sync + Drop + 'static>(
    rt: &R,
    alloc: Global,
    cases: &[(&'static str, HostCase<'_>)],
    by_worker: bool,
) -> Result<(), &'static str> {
    for (name, case) in cases {
        if !is_served(rt, alloc, case, by_worker) {
            return Err(name);
        }
    }
    Ok(())
}

/// Each host ends as is wanted of it.
#[test]
fn each_case_is_served(rt: HostRuntime) -> Result<(), &'static str> {
    all_hold(&rt, rt.alloc(), CASES, false)
}

/// And so does each with a worker.
#[test]
fn each_case_is_served_by_a_worker(rt: HostRuntime) -> Result<(), &'static str> {
    all_hold(&rt, rt.alloc(), CASES, true)
}
