//! Hosts with several workers over sockets of this machine.

ghost use Rattle.std.specs.Prelude.{◌≡◌};
ghost use Rattle.std.specs.Arc.{arc_value};

use crate::serving::end_of;
use dns_book::{Book, BookSeat};
use dns_name::{IpAddr, SocketAddr};
use dns_outside::{HostClock, MioAccept, MioLink, MioSock, ThreadSpawner};
use dns_service::SharedService;
use dns_workers::{ConnectionWork, HostEnd, Silent, VecRecorder, Worker, WorkersHost};
use std::alloc::Global;
use std::net::Net;
use std::sync::{Arc, Wait};
use std::thread::Threads;
use std::{io, rt};

/// Loopback, at a port that the system picks.
pub(crate) const HERE: SocketAddr = SocketAddr {
    ip: IpAddr::V4([127, 0, 0, 1]),
    port: 0,
};

/// Workers whose events are kept.
pub(crate) type Workers<R> = Vec<Worker<MioSock, HostClock<R>, VecRecorder>>;

/// A host of such workers, which serves connections over loopback too, each in a thread of its own.
pub(crate) type Machine<R, W> = WorkersHost<
    MioAccept,
    MioSock,
    HostClock<R>,
    ThreadSpawner<ConnectionWork<MioLink, HostClock<R>, Silent, W>>,
    VecRecorder,
>;

/// That many workers, at least one, that share a port of loopback, and the port.
pub(crate) fn open_workers<R: Net + rt::Clock + Copy>(
    rt: R,
    alloc: Global,
    count: usize,
) -> io::Result<(Workers<R>, u16)> {
    let first = MioSock::bind_shared(&rt, HERE)?;
    let port = first.local_addr()?.port;
    let mut workers = Vec::new(alloc);
    workers.push(Worker::new(first, HostClock::new(rt), VecRecorder::new(alloc)))?;
    for _ in 1..count {
        let sock = MioSock::bind_shared(&rt, SocketAddr { port, ..HERE })?;
        workers.push(Worker::new(sock, HostClock::new(rt), VecRecorder::new(alloc)))?;
    }
    Ok((workers, port))
}

/// A host of these workers, and of connections at a port that the system picks.
pub(crate) fn open_machine<
    R: Net + rt::Clock + Threads + Wait + Copy + Send + Sync + 'static,
    W: SharedService + Send + Sync + 'static,
>(rt: &R, alloc: Global, workers: Workers<R>) -> io::Result<Machine<R, W>>
where
    W::Future: Send,
    W::Stream: Send,
{
    Ok(WorkersHost {
        accept: MioAccept::bind(rt, HERE)?,
        workers,
        spawner: ThreadSpawner::new(alloc),
    })
}

/// How a host ends that serves from this seat, and how many slots are taken then.
pub(crate) fn served<
    R: Net + rt::Clock + Threads + Wait + Copy + Send + Sync + 'static,
    W: SharedService + Send + Sync + 'static,
>(
    rt: &R,
    alloc: Global,
    machine: &mut Machine<R, W>,
    service: &Arc<W>,
    book: &Arc<Book>,
    seat: BookSeat,
) -> (HostEnd, u64)
where
    W::Future: Send,
    W::Stream: Send,
    requires book { seat.book ≡ arc_value book.now }
    requires can_call { W.can_call (arc_value service.now) }
{
    let clock = HostClock::new(*rt);
    end_of(rt, alloc, machine, service, &clock, book, seat, 0)
}
