//! A service of one's own in the four layers, served over UDP and TCP on loopback. It answers a question for an address, with AA
//! set, and refuses all else. A client in a thread of its own asks for an address over UDP and for an IPv6 address over TCP. Then
//! it shuts both servers down. The octets of both replies are printed in hex, and what the metrics counted.
#![tactic(auto)]

mod address;
mod client;

ghost use Rattle.std.specs.Prelude.{◌≡◌, IfOk};
ghost use Rattle.std.specs.Arc.{arc_value};

use address::{OneAddress, answer};
use client::Client;
use dns_middleware::{NoSecondaries, Settings, wrap};
use dns_name::{IpAddr, SocketAddr};
use dns_outside::{Clock, HostClock, MioAccept, MioLink, MioSock, ThreadSpawner};
use dns_service::{Service, SharedService, WithoutMeta, service_fn};
use dns_transport::{
    ConnectionWork, DgramServer, Metered, Silent, StreamServer, TcpServer, UdpServer, VecBufSource,
};
use std::alloc::Global;
use std::net::{Net, TcpStream};
use std::sync::{Arc, Wait};
use std::thread::{Threads, spawn};
use std::{io, rt};

/// Where the servers listen: on loopback, at ports that the system picks.
const HERE: SocketAddr = SocketAddr {
    ip: IpAddr::V4([127, 0, 0, 1]),
    port: 0,
};

fn main(rt: HostRuntime) -> anyhow::Result<()> {
    let alloc = rt.alloc();
    let service = service_fn::<OneAddress, _, _>(answer, [192, 0, 2, 1]);
    let answered = serve_in_layers(rt, alloc, service)?;
    println!(rt; "udp {}", hex::encode(alloc, answered.datagram.as_slice())?)?;
    println!(rt; "tcp {}", hex::encode(alloc, answered.frame.as_slice())?)?;
    println!(rt;
        "requests: udp {}, tcp {}",
        answered.datagrams, answered.frames
    )?;
    Ok(())
}

/// What the client was answered, and how many requests each server received.
#[derive(Drop)]
struct Answered {
    datagram: Vec<u8>,
    frame: Vec<u8>,
    datagrams: usize,
    frames: usize,
}

/// A server of connections over the machine's listener, with a thread for each connection.
type ThreadedServer<W, C> = TcpServer<
    W,
    C,
    ThreadSpawner<ConnectionWork<Metered<MioLink>, C, Silent, W>>,
>;

/// Both servers of a service, that of datagrams first.
type Servers<W, C> = (UdpServer<W, C>, ThreadedServer<W, C>);

/// Serves a service in the four layers.
fn serve_in_layers<
    R: Net<Stream = TcpStream> + rt::Clock + Threads + Wait + Copy + Send + Sync + Drop + 'static,
    S: Service<()> + Send + Sync + 'static,
>(rt: R, alloc: Global, service: S) -> anyhow::Result<Answered>
where
    S::Future: Send,
    S::Stream: Send,
    requires { S.can_call service }
{
    let service = wrap(alloc, &Settings::new(alloc), service, NoSecondaries {})?;
    let service = Arc::new(alloc, WithoutMeta { service })?;
    serve(rt, alloc, service)
}

/// Opens the servers and a client, and serves until the client shuts both servers down.
fn serve<
    R: Net<Stream = TcpStream> + rt::Clock + Threads + Wait + Copy + Send + Sync + Drop + 'static,
    W: SharedService + Send + Sync + 'static,
>(rt: R, alloc: Global, service: Arc<W>) -> anyhow::Result<Answered>
where
    W::Future: Send,
    W::Stream: Send,
    requires { W.can_call (arc_value service) }
{
    let sock = MioSock::bind(&rt, HERE)?;
    let accept = MioAccept::bind(&rt, HERE)?;
    let (udp_addr, tcp_addr) = (sock.local_addr()?, accept.local_addr()?);
    let (mut udp, mut tcp) = opened(rt, alloc, sock, accept, service)?;
    let controls = (udp.control(&rt), tcp.control(&rt));
    let client = Client::connect(&rt, udp_addr, tcp_addr, controls)?;
    Ok(serve_client(rt, alloc, client, (udp, tcp))?)
}

/// Serves datagrams, and the client, in threads of their own, and connections in this one. The client shuts both servers down.
fn serve_client<
    R: Threads + Wait + Copy + Send + Sync + Drop + 'static,
    W: SharedService + Send + Sync + 'static,
    C: Clock + Send + Drop + 'static,
>(rt: R, alloc: Global, client: Client, servers: Servers<W, C>) -> io::Result<Answered>
where
    W::Future: Send,
    W::Stream: Send,
    requires datagrams { W.can_call servers.0.service }
    requires connections { W.can_call servers.1.service }
{
    let (udp, tcp) = servers;
    let udp = spawn(&rt, move || run_udp(&rt, alloc, udp))?;
    let client = spawn(&rt, move || client.ask_and_end(&rt, alloc))?;
    let tcp = run_tcp(&rt, alloc, tcp);
    let (datagram, frame) = client.join(&rt);
    let udp = udp.join(&rt);
    Ok(Answered {
        datagram,
        frame,
        datagrams: udp.metrics().num_received_requests(),
        frames: tcp.metrics().num_received_requests(),
    })
}

/// The servers of a service over a socket and a listener that are open.
fn opened<R: rt::Clock + Copy + Send + 'static, W: SharedService + Send + Sync + 'static>(
    rt: R,
    alloc: Global,
    sock: MioSock,
    accept: MioAccept,
    service: Arc<W>,
) -> anyhow::Result<Servers<W, HostClock<R>>>
where
    W::Future: Send,
    W::Stream: Send,
    ensures { IfOk result (λ s. (s.0.service ≡ arc_value service) × (s.1.service ≡ arc_value service)) }
{
    let clock = HostClock::new(rt);
    let udp = DgramServer::new(alloc, sock, VecBufSource, service.clone()?, clock)?;
    let clock = HostClock::new(rt);
    let spawner = ThreadSpawner::new(alloc);
    let tcp = StreamServer::new(alloc, accept, VecBufSource, service, clock, spawner)?;
    Ok((udp, tcp))
}

/// Serves datagrams until the server is shut down.
fn run_udp<R: Wait, W: SharedService, C: Clock + Drop>(
    rt: &R,
    alloc: Global,
    mut udp: UdpServer<W, C>,
) -> UdpServer<W, C>
    requires { W.can_call udp.service }
{
    udp.run(rt, alloc, &mut Silent::new());
    udp
}

/// Serves connections until the server is shut down and they are closed.
fn run_tcp<
    R: Threads + Wait + Copy + Send + 'static,
    W: SharedService + Send + Sync + 'static,
    C: Clock + Send + Drop + 'static,
>(rt: &R, alloc: Global, mut tcp: ThreadedServer<W, C>) -> ThreadedServer<W, C>
where
    W::Future: Send,
    W::Stream: Send,
    requires { W.can_call tcp.service }
{
    tcp.run(rt, alloc);
    tcp
}
