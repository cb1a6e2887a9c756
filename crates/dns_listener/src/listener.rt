//! The sockets of an address.

use crate::counts::Counters;
use anyhow::Context;
use dns_config::Config;
use dns_limited_sock::LimitedSock;
use dns_name::{IpAddr, OutOfMemory, SocketAddr};
use dns_outside::{HostClock, MioAccept, MioSock};
use dns_query_link::QueryAccept;
use dns_query_sock::QuerySock;
use dns_socket_addr::SocketAddrText;
use dns_workers::{Silent, Worker};
use std::alloc::Global;
use std::net::Net;
use std::rt::Clock;
use std::sync::{Arc, Wait};
use std::thread::{Threads, available_parallelism};

/// The socket of a worker. Responses that come are dropped, and replies that go are limited.
type WorkerSock<R> = LimitedSock<QuerySock<MioSock>, HostClock<R>, R>;

/// What serves the datagrams of a socket.
pub(crate) type DgramWorker<R> = Worker<WorkerSock<R>, HostClock<R>, Silent>;

/// What the connections of one address come from, and what serve its datagrams. Responses are dropped.
#[derive(Drop)]
pub struct Listener<R> {
    pub(crate) address: SocketAddr,
    pub(crate) accept: QueryAccept<MioAccept>,
    pub(crate) workers: Vec<DgramWorker<R>>,
}

/// A worker that serves the datagrams of a socket.
fn worker<R: Clock + Wait + Copy>(
    rt: R,
    alloc: Global,
    sock: MioSock,
    counters: &Counters,
) -> Result<DgramWorker<R>, OutOfMemory> {
    let counts = Arc::try_clone(counters.queries())?;
    let limiting = Arc::try_clone(counters.limiting())?;
    let sock = QuerySock::counted(sock, counts);
    let sock = LimitedSock::new(rt, alloc, sock, HostClock::new(rt), limiting);
    Ok(Worker::new(sock, HostClock::new(rt), Silent::new()))
}

/// How many workers share an address: one if a socket takes datagrams over IPv4 and IPv6.
fn shared_by(address: SocketAddr, wanted: usize) -> usize {
    if address.ip == IpAddr::V6([0; 16]) {
        return 1;
    }
    wanted
}

/// A socket of datagrams at an address, which others share if there are several.
fn bind_sock<N: Net>(net: &N, address: SocketAddr, wanted: usize) -> anyhow::Result<MioSock> {
    let shown = SocketAddrText(address);
    let bound = if wanted > 1 {
        MioSock::bind_shared(net, address)
    } else {
        MioSock::bind(net, address)
    };
    bound.context(format_args!("listening on {shown} over UDP"))
}

/// The workers at an address, each with a socket of its own.
fn bind_workers<R: Net + Clock + Wait + Copy>(
    rt: R,
    alloc: Global,
    address: SocketAddr,
    wanted: usize,
    counters: &Counters,
) -> anyhow::Result<Vec<DgramWorker<R>>> {
    let mut workers = Vec::new(alloc);
    for _ in 0..wanted {
        let sock = bind_sock(&rt, address, wanted)?;
        workers.push(worker(rt, alloc, sock, counters)?)?;
    }
    Ok(workers)
}

/// The socket of connections at an address, and the address with the port that the system picked.
fn bind_accept<N: Net>(net: &N, wanted: SocketAddr) -> anyhow::Result<(MioAccept, SocketAddr)> {
    let shown = SocketAddrText(wanted);
    let accept = MioAccept::bind(net, wanted).context(format_args!(
        "listening on {shown} over TCP"
    ))?;
    let port = accept.local_addr()?.port;
    let ip = wanted.ip;
    Ok((accept, SocketAddr { ip, port }))
}

impl<R: Net + Clock + Wait + Copy> Listener<R> {
    /// Opens the sockets of an address, the one of connections first, since it is refused if another server has the address. At
    /// port 0 the system picks the port of all.
    pub(crate) fn bind(
        rt: R,
        alloc: Global,
        wanted: SocketAddr,
        workers: usize,
        counters: &Counters,
    ) -> anyhow::Result<Listener<R>> {
        let (accept, address) = bind_accept(&rt, wanted)?;
        let workers = shared_by(address, workers);
        let workers = bind_workers(rt, alloc, address, workers, counters)?;
        let accept = QueryAccept::new(alloc, accept, Arc::try_clone(counters.queries())?);
        Ok(Listener {
            address,
            accept,
            workers,
        })
    }
}

/// How many processors there are, as far as that is known.
fn processors<R: Threads>(rt: &R) -> usize {
    match available_parallelism(rt) {
        Ok(processors) => processors.get(),
        Err(_) => 1,
    }
}

/// Opens the sockets of each address, at which these count.
pub fn bind_all<R: Net + Clock + Threads + Wait + Copy>(
    rt: R,
    alloc: Global,
    config: &Config,
    counters: &Counters,
) -> anyhow::Result<Vec<Listener<R>>> {
    let workers = config.workers(processors(&rt));
    let mut listeners = Vec::new(alloc);
    for endpoint in config.listen.iter() {
        let address = endpoint.address;
        let listener = Listener::bind(rt, alloc, address, workers, counters)?;
        listeners.push(listener)?;
    }
    Ok(listeners)
}

/// Writes the addresses at which it listens.
pub fn say_listeners<P: Print, R>(rt: &P, listeners: &[Listener<R>]) -> anyhow::Result<()> {
    for listener in listeners {
        println!(rt; "listening on {}", SocketAddrText(listener.address))?;
    }
    Ok(())
}
