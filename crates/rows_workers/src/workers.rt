//! Hosts with several workers over objects in memory.

ghost use Rattle.std.specs.Prelude.{◌≡◌, IfOk};
ghost use Rattle.std.specs.Arc.{arc_value};

use crate::serving::end_of;
use dns_book::{Book, BookSeat};
use dns_name::{OptRcode, OutOfMemory};
use dns_outside::{AsyncAccept, MemoryClock, MemorySock, MemorySpawner, Packet};
use dns_service::{SharedService, WithoutMeta};
use dns_workers::{ConnectionWork, HostEnd, Silent, Worker, WorkersHost};
use rows_links::{Holding, Seen, accept_of, book_of, calls, clock, packet, show};
use std::alloc::Global;
use std::sync::{Arc, Wait};
use std::thread::Threads;

/// Queries for the root's address with id 1 and 2, and their replies that all is well, with an OPT record.
const FIRST: &[u8] = b"\x00\x01\x01\x00\x00\x01\x00\x00\x00\x00\x00\x00\x00\x00\x01\x00\x01";

const FIRST_REPLY: &[u8] =
    b"\x00\x01\x81\x00\x00\x01\x00\x00\x00\x00\x00\x01\x00\x00\x01\x00\x01\x00\x00\x29\x00\x00\x00\x00\x00\x00\x00\x00";

const SECOND: &[u8] = b"\x00\x02\x01\x00\x00\x01\x00\x00\x00\x00\x00\x00\x00\x00\x01\x00\x01";

const SECOND_REPLY: &[u8] =
    b"\x00\x02\x81\x00\x00\x01\x00\x00\x00\x00\x00\x01\x00\x00\x01\x00\x01\x00\x00\x29\x00\x00\x00\x00\x00\x00\x00\x00";

/// Such a query with id 3 on a connection, after its length, and its reply.
const FRAME: &[u8] =
    b"\x00\x11\x00\x03\x01\x00\x00\x01\x00\x00\x00\x00\x00\x00\x00\x00\x01\x00\x01";

const FRAME_REPLY: &[u8] =
    b"\x00\x1c\x00\x03\x81\x00\x00\x01\x00\x00\x00\x00\x00\x01\x00\x00\x01\x00\x01\x00\x00\x29\x00\x00\x00\x00\x00\x00\x00\x00";

/// What a worker is given, and the datagrams that it is to send.
#[derive(Clone, Copy)]
struct WorkerCase<'a> {
    datagrams: &'a [&'a [u8]],
    /// The receives that fail.
    failed_receives: &'a [u64],
    sent: &'a [&'a [u8]],
}

/// What a host is given, and what is wanted of it.
#[derive(Clone, Copy)]
struct HostCase<'a> {
    workers: &'a [WorkerCase<'a>],
    /// A link comes for each of these queries.
    queries: &'a [&'a [u8]],
    /// Whether the poll of the first query is held until the second's.
    is_held: bool,
    /// Whether the book is shut down before.
    is_shut: bool,
    count: u64,
    end: HostEnd,
    /// The octets written on each link, and that no hook was handed it.
    shown: &'a [(&'a [u8], u64)],
}

/// A worker over memory.
type MemoryWorker = Worker<MemorySock, MemoryClock, Silent>;

/// What serves connections in memory.
type Connections<L, W> = MemorySpawner<ConnectionWork<L, MemoryClock, Silent, W>>;

/// These datagrams.
fn packets(alloc: Global, datagrams: &[&[u8]]) -> Result<Vec<Packet>, OutOfMemory> {
    let mut packets = Vec::new(alloc);
    for octets in datagrams {
        packets.push(packet(alloc, octets)?)?;
    }
    Ok(packets)
}

impl WorkerCase<'_> {
    /// The worker of this case.
    fn worker(&self, alloc: Global) -> Result<MemoryWorker, OutOfMemory> {
        let receives = calls(alloc, self.failed_receives, &[])?;
        let sends = calls(alloc, &[], &[])?;
        let packets = packets(alloc, self.datagrams)?;
        let sock = MemorySock::new(alloc, packets, receives, sends);
        Ok(Worker::new(sock, clock(alloc), Silent::new()))
    }

    /// Whether the worker's socket sent these datagrams and no others, in this order.
    fn is_sent(&self, worker: &MemoryWorker) -> bool {
        let sent = worker.sock.sent();
        sent.len() == self.sent.len()
            && sent
                .iter()
                .zip(self.sent)
                .all(|(packet, octets)| packet.octets.as_slice() == *octets)
    }
}

/// The workers of these cases.
fn workers_of(alloc: Global, cases: &[WorkerCase<'_>]) -> Result<Vec<MemoryWorker>, OutOfMemory> {
    let mut workers = Vec::new(alloc);
    for case in cases {
        workers.push(case.worker(alloc)?)?;
    }
    Ok(workers)
}

/// A shared service whose first poll is held if that is said.
fn service_of(alloc: Global, is_held: bool) -> Result<Arc<WithoutMeta<Holding>>, OutOfMemory> {
    let service = Holding::new(alloc, !is_held, OptRcode::NOERROR)?;
    Ok(Arc::new(alloc, WithoutMeta { service })?)
}

/// A book with ten slots, shut down if that is said.
fn book_for<R: Wait>(
    rt: &R,
    alloc: Global,
    is_shut: bool,
) -> Result<(Arc<Book>, BookSeat), OutOfMemory>
    ensures { IfOk result (λ r. r.1.book ≡ arc_value r.0) }
{
    let (book, mut seat) = book_of(alloc, 10)?;
    if is_shut {
        book.shutdown(rt, &mut seat);
    }
    Ok((book, seat))
}

impl HostCase<'_> {
    /// Whether a host with these workers and this accept object ends so, with no slot taken, and each worker sent what it should.
    fn ends_by<
        R: Threads + Wait + Copy + Send + Sync + 'static,
        A: AsyncAccept + Drop,
        W: SharedService + Send + Sync + 'static,
    >(
        &self,
        rt: &R,
        alloc: Global,
        accept: A,
        workers: Vec<MemoryWorker>,
        service: Arc<W>,
        place: (Arc<Book>, BookSeat),
    ) -> bool
    where
        A::Link: Send + Drop + 'static,
        W::Future: Send,
        W::Stream: Send,
        requires book { place.1.book ≡ arc_value place.0 }
        requires can_call { W.can_call (arc_value service) }
    {
        let spawner: Connections<A::Link, W> = MemorySpawner::new(alloc, Vec::new(alloc));
        let mut host = WorkersHost {
            accept,
            workers,
            spawner,
        };
        let (book, seat) = place;
        let end = end_of(
            rt,
            alloc,
            &mut host,
            &service,
            &clock(alloc),
            &book,
            seat,
            self.count,
        );
        end == (self.end, 0)
            && self
                .workers
                .iter()
                .zip(host.workers.iter())
                .all(|(case, worker)| case.is_sent(worker))
    }

    /// Whether a host that is made as the case says ends so.
    fn ends<R: Threads + Wait + Copy + Send + Sync + Drop + 'static>(
        &self,
        rt: &R,
        alloc: Global,
        seen: &mut Vec<Arc<Seen>>,
    ) -> Result<bool, OutOfMemory> {
        let accept = accept_of(*rt, alloc, self.queries, &[], &[], seen)?;
        let workers = workers_of(alloc, self.workers)?;
        let service = service_of(alloc, self.is_held)?;
        let place = book_for(rt, alloc, self.is_shut)?;
        Ok(self.ends_by(rt, alloc, accept, workers, service, place))
    }

    /// Whether it ends so, and the links show what is wanted.
    fn holds<R: Threads + Wait + Copy + Send + Sync + Drop + 'static>(
        &self,
        rt: &R,
        alloc: Global,
    ) -> bool {
        let mut seen = Vec::new(alloc);
        match self.ends(rt, alloc, &mut seen) {
            Ok(ends) => ends && show(rt, &seen, self.shown, 1),
            Err(_) => false,
        }
    }
}

/// A worker without datagrams.
const IDLE: WorkerCase<'static> = WorkerCase {
    datagrams: &[],
    failed_receives: &[],
    sent: &[],
};

/// Two workers with a datagram each.
const TWO: &[WorkerCase<'static>] = &[
    WorkerCase {
        datagrams: &[FIRST],
        failed_receives: &[],
        sent: &[FIRST_REPLY],
    },
    WorkerCase {
        datagrams: &[SECOND],
        failed_receives: &[],
        sent: &[SECOND_REPLY],
    },
];

/// Two workers and a connection, which end after one datagram each.
const BOTH: HostCase<'static> = HostCase {
    workers: TWO,
    queries: &[FRAME],
    is_held: false,
    is_shut: false,
    count: 1,
    end: HostEnd::Done,
    shown: &[(FRAME_REPLY, 0)],
};

/// Hosts, by names.
const CASES: &[(&'static str, HostCase<'static>)] = &[
    // Each datagram is answered by the socket that it came to, and the connection too.
    ("each_socket_answers_its_own", BOTH),
    // The poll of one worker's request is held until the other worker's is polled.
    (
        "workers_serve_beside_each_other",
        HostCase {
            is_held: true,
            ..BOTH
        },
    ),
    // A receive that failed ends the other worker and accepting.
    (
        "a_failed_receive_ends_all",
        HostCase {
            workers: &[
                IDLE,
                WorkerCase {
                    failed_receives: &[0],
                    ..IDLE
                },
            ],
            queries: &[],
            count: 0,
            end: HostEnd::HostFault,
            shown: &[],
            ..BOTH
        },
    ),
    // If the book is closed nothing is served, and all end.
    (
        "a_shutdown_ends_all",
        HostCase {
            workers: &[IDLE, IDLE],
            queries: &[],
            is_shut: true,
            count: 0,
            shown: &[],
            ..BOTH
        },
    ),
    // Without workers connections alone are served.
    (
        "no_worker_serves_connections",
        HostCase {
            workers: &[],
            ..BOTH
        },
    ),
];

/// Each host ends as is wanted of it.
#[test]
fn each_host_ends(rt: HostRuntime) -> Result<(), &'static str> {
    for (name, case) in CASES {
        if !case.holds(&rt, rt.alloc()) {
            return Err(name);
        }
    }
    Ok(())
}
