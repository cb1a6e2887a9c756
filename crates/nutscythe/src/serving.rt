//! A server that runs on the machine's sockets.

ghost use Rattle.std.specs.Arc.{arc_value};
ghost use Rattle.std.specs.Prelude.{◌≡◌, IfOk};

use dns_middleware::Notifiable;
use dns_name::{IpAddr, OutOfMemory, SocketAddr};
use dns_outside::{
    AsyncAccept, AsyncDgramSock, Clock, HostClock, Link, MioAccept, MioSock, Spawner, ThreadSpawner,
};
use dns_server::{
    Book, BookSeat, BookState, ConnectionWork, ServePlan, Settings, Silent, Status, WithoutMeta,
    Witness, WitnessAccept, WitnessClock, WitnessSock, WitnessSpawner, Worker, WorkersHost,
    Wrapped, serve_workers_over,
};
use dns_service::{Service, SharedService};
use std::alloc::Global;
use std::net::Net;
use std::sync::{Arc, Wait};
use std::thread::{Threads, available_parallelism};
use std::{io, rt};

/// The work of a connection by a service and a target in layers, over witnesses of its link and its clock.
type Connection<L, C, S, N> = ConnectionWork<
    Witness<L>,
    WitnessClock<C>,
    Silent,
    WithoutMeta<Wrapped<S, N>>,
>;

/// A worker over witnesses of its socket and its clock.
type Witnessed<D, C> = Worker<WitnessSock<D>, WitnessClock<C>, Silent>;

/// A host over witnesses, for proofs to know what their calls answered. They take no memory and no time.
type Machine<A, D, C, P> = WorkersHost<
    WitnessAccept<A>,
    WitnessSock<D>,
    WitnessClock<C>,
    WitnessSpawner<P>,
    Silent,
>;

/// What is served, in the layers of the settings: a service, and what is told of changed zones; and after how many connections and
/// datagrams that ends.
#[derive(Drop)]
struct Planned<S, N> {
    count: u64,
    settings: Settings,
    service: S,
    target: N,
}

/// The status of a socket that couldn't be opened.
fn unopened(error: io::Error) -> Status {
    if error.kind() == io::ErrorKind::OutOfMemory {
        return Status::OutOfMemory;
    }
    Status::HostFault
}

/// A book that is shared, of the configurations of the settings, and its seat.
fn open_book(alloc: Global, settings: &Settings) -> Result<(Arc<Book>, BookSeat), OutOfMemory>
    ensures { IfOk result (λ r. r.1.book ≡ arc_value r.0) }
{
    let state = BookState::new(settings.dgram, settings.stream);
    let (book, seat) = Book::new(alloc, state)?;
    match Arc::new(alloc, book) {
        Ok(book) => Ok((book, seat)),
        Err(_) => Err(OutOfMemory),
    }
}

/// Serves by a book, over a machine that is open, and closes it.
fn serve_book<
    R: Threads + Wait + Copy + Send + Sync + 'static,
    A: AsyncAccept + Drop,
    D: AsyncDgramSock + Send + Drop,
    C: Clock + Send + Drop + 'static,
    S: Service<()> + Send + Sync + 'static,
    N: Notifiable + Send + Sync + 'static,
    P: Spawner<Connection<A::Link, C, S, N>> + Drop,
>(
    rt: &R,
    alloc: Global,
    planned: Planned<S, N>,
    clock: &WitnessClock<C>,
    book: &Arc<Book>,
    seat: BookSeat,
    mut machine: Machine<A, D, C, P>,
) -> Status
where
    A::Link: Send + Drop + 'static,
    S::Future: Send,
    S::Stream: Send,
    N::Future: Send,
    requires book { seat.book ≡ arc_value book.now }
    requires can_call { S.can_call planned.service }
{
    let Planned {
        count,
        settings,
        service,
        target,
    } = planned;
    let (_seat, status) = serve_workers_over(
        rt,
        alloc,
        &settings,
        service,
        target,
        clock,
        book,
        seat,
        &mut machine,
        count,
    );
    status
}

/// Opens a book of the settings, and serves over a machine that is open. The clocks of connections are made of the one given here.
fn serve_machine<
    R: Threads + Wait + Copy + Send + Sync + 'static,
    A: AsyncAccept + Drop,
    D: AsyncDgramSock + Send + Drop,
    C: Clock + Send + Drop + 'static,
    S: Service<()> + Send + Sync + 'static,
    N: Notifiable + Send + Sync + 'static,
    P: Spawner<Connection<A::Link, C, S, N>> + Drop,
>(rt: &R, alloc: Global, planned: Planned<S, N>, clock: C, machine: Machine<A, D, C, P>) -> Status
where
    A::Link: Send + Drop + 'static,
    S::Future: Send,
    S::Stream: Send,
    N::Future: Send,
    requires { S.can_call planned.service }
{
    let clock = WitnessClock::new(clock);
    match open_book(alloc, &planned.settings) {
        Ok((book, seat)) => serve_book(rt, alloc, planned, &clock, &book, seat, machine),
        Err(OutOfMemory) => Status::OutOfMemory,
    }
}

/// Gives each connection over such a link, by such a clock and service, a thread of its own.
fn spawner_over<
    L: Link + Send + Drop + 'static,
    C: Clock + Send + Drop + 'static,
    T: SharedService + Send + Sync + 'static,
>(alloc: Global) -> ThreadSpawner<ConnectionWork<L, C, Silent, T>>
where
    T::Future: Send,
    T::Stream: Send,
{
    ThreadSpawner::new(alloc)
}

/// Serves over sockets that are open, with a thread for each connection, through witnesses of all of them.
fn serve_over<
    R: Threads + Wait + Copy + Send + Sync + 'static,
    A: AsyncAccept + Drop,
    D: AsyncDgramSock + Send + Drop,
    C: Clock + Send + Drop + 'static,
    S: Service<()> + Send + Sync + 'static,
    N: Notifiable + Send + Sync + 'static,
>(
    rt: R,
    alloc: Global,
    planned: Planned<S, N>,
    accept: A,
    workers: Vec<Witnessed<D, C>>,
    clock: C,
) -> Status
where
    A::Link: Send + Drop + 'static,
    S::Future: Send,
    S::Stream: Send,
    N::Future: Send,
    requires { S.can_call planned.service }
{
    let spawner: ThreadSpawner<Connection<A::Link, C, S, N>> = spawner_over(alloc);
    let machine = WorkersHost {
        accept: WitnessAccept::new(accept),
        workers,
        spawner: WitnessSpawner::new(spawner),
    };
    serve_machine(&rt, alloc, planned, clock, machine)
}

/// A worker that serves datagrams from this socket, by the machine's clock.
fn worker<R: rt::Clock + Copy>(rt: R, sock: MioSock) -> Witnessed<MioSock, HostClock<R>> {
    Worker::new(
        WitnessSock::new(sock),
        WitnessClock::new(HostClock::new(rt)),
        Silent::new(),
    )
}

/// One worker, whose socket has the address for itself.
fn open_one<R: Net + rt::Clock + Copy>(
    rt: R,
    alloc: Global,
    addr: SocketAddr,
) -> io::Result<Vec<Witnessed<MioSock, HostClock<R>>>> {
    let mut workers = Vec::new(alloc);
    workers.push(worker(rt, MioSock::bind(&rt, addr)?))?;
    Ok(workers)
}

/// That many workers, at least one, whose sockets share the address; at port 0 the system picks the port.
fn open_several<R: Net + rt::Clock + Copy>(
    rt: R,
    alloc: Global,
    addr: SocketAddr,
    count: usize,
) -> io::Result<Vec<Witnessed<MioSock, HostClock<R>>>> {
    let first = MioSock::bind_shared(&rt, addr)?;
    let port = first.local_addr()?.port;
    let mut workers = Vec::new(alloc);
    workers.push(worker(rt, first))?;
    for _ in 1..count {
        let sock = MioSock::bind_shared(&rt, SocketAddr { port, ..addr })?;
        workers.push(worker(rt, sock))?;
    }
    Ok(workers)
}

/// How many workers serve datagrams: one if the server is to end after a count, or if one socket takes datagrams over IPv4
/// and IPv6; else one a processor.
fn worker_count(rt: &impl Threads, addr: SocketAddr, count: u64) -> usize {
    if count != 0 || addr.ip == IpAddr::V6([0; 16]) {
        return 1;
    }
    match available_parallelism(rt) {
        Ok(processors) => processors.get(),
        Err(_) => 1,
    }
}

/// The workers that serve datagrams at an address, each with a socket of its own.
fn open_workers<R: Net + rt::Clock + Threads + Copy>(
    rt: R,
    alloc: Global,
    addr: SocketAddr,
    count: u64,
) -> io::Result<Vec<Witnessed<MioSock, HostClock<R>>>> {
    match worker_count(&rt, addr, count) {
        1 => open_one(rt, alloc, addr),
        workers => open_several(rt, alloc, addr, workers),
    }
}

/// Opens the sockets and serves what is planned. The socket of connections is opened first, since it is refused if another server
/// has the address. No datagram is to be taken from that server.
pub(crate) fn serve<R: Net + rt::Clock + Threads + Wait + Copy + Send + Sync + 'static>(
    rt: R,
    alloc: Global,
    plan: ServePlan,
) -> Status {
    let ServePlan {
        addr,
        count,
        settings,
        service,
        target,
    } = plan;
    let planned = Planned {
        count,
        settings,
        service,
        target,
    };
    let accept = match MioAccept::bind(&rt, addr) {
        Ok(accept) => accept,
        Err(error) => return unopened(error),
    };
    match open_workers(rt, alloc, addr, count) {
        Ok(workers) => serve_over(rt, alloc, planned, accept, workers, HostClock::new(rt)),
        Err(error) => unopened(error),
    }
}
