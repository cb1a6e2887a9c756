//! Servers over sockets of this machine, on loopback.

ghost use Rattle.std.specs.Prelude.{◌≡◌};

use crate::servers::{connections, datagrams};
use dns_name::{IpAddr, OptRcode, SocketAddr};
use dns_outside::{
    AsyncAccept, AsyncDgramSock, Clock, HostClock, MioAccept, MioSock, Spawner, ThreadSpawner,
};
use dns_service::{SharedService, WithoutMeta};
use dns_transport::{
    ConnectionWork, Control, DgramEnd, DgramServer, Metered, Silent, StreamEnd, StreamServer,
    VecBufSource,
};
use rows_links::{Holding, let_go};
use std::alloc::Global;
use std::net::Net;
use std::rt;
use std::sync::Wait;
use std::thread::Threads;

/// Loopback, at a port that the system picks.
const HERE: SocketAddr = SocketAddr {
    ip: IpAddr::V4([127, 0, 0, 1]),
    port: 0,
};

/// Shuts a server down.
fn shut<R: Wait>(rt: &R, mut control: Control) {
    let _ = control.shutdown(rt);
}

/// Whether a server that is shut down before ends, and serves nothing.
fn ends_shut<R: Wait, D: AsyncDgramSock + Drop, C: Clock + Drop, W: SharedService>(
    rt: &R,
    alloc: Global,
    server: &mut DgramServer<D, VecBufSource, W, C>,
) -> bool
    requires { W.can_call server.old.service }
{
    shut(rt, server.control(rt));
    let end = server.run(rt, alloc, &mut Silent::new());
    end == DgramEnd::Shutdown && server.metrics().num_received_requests() == 0
}

/// Whether a datagram server over this socket ends, shut down before its run, and serves nothing.
fn udp_over<R: Wait, D: AsyncDgramSock + Drop, C: Clock + Drop, W: SharedService>(
    rt: &R,
    alloc: Global,
    sock: D,
    clock: C,
    service: W,
) -> bool
    requires { W.can_call service }
{
    match datagrams(alloc, sock, clock, service) {
        Ok(mut server) => ends_shut(rt, alloc, &mut server),
        Err(_) => false,
    }
}

/// Whether a datagram server with a service that answers at once ends, shut down before its run.
fn udp_ends<R: Wait, D: AsyncDgramSock + Drop, C: Clock + Drop>(
    rt: &R,
    alloc: Global,
    sock: D,
    clock: C,
) -> bool {
    match Holding::new(alloc, false, OptRcode::NOERROR) {
        Ok(service) => udp_over(rt, alloc, sock, clock, WithoutMeta { service }),
        Err(_) => false,
    }
}

/// Whether a server over a UDP socket ends once it is shut down.
fn udp_holds<R: Net + rt::Clock + Wait + Copy>(rt: R, alloc: Global) -> bool {
    match MioSock::bind(&rt, HERE) {
        Ok(sock) => udp_ends(&rt, alloc, sock, HostClock::new(rt)),
        Err(_) => false,
    }
}

/// A server of connections that is shut down before it runs.
#[derive(Drop)]
struct Closing<'a, R, A, C, P, W> {
    rt: &'a R,
    alloc: Global,
    server: StreamServer<A, VecBufSource, W, C, P>,
}

impl<
    R: Threads + Wait + Copy + Send + 'static,
    A: AsyncAccept + Drop,
    C: Clock + Send + Drop + 'static,
    P: Spawner<ConnectionWork<Metered<A::Link>, C, Silent, W>> + Drop,
    W: SharedService + Send + Sync + 'static,
> Closing<'_, R, A, C, P, W>
where
    A::Link: Send + Drop + 'static,
    W::Future: Send,
    W::Stream: Send,
{
    /// Whether it ends, with no connection.
    fn ends(&mut self) -> bool
        requires { W.can_call self.old.server.service }
    {
        shut(self.rt, self.server.control(self.rt));
        let end = self.server.run(self.rt, self.alloc);
        end == StreamEnd::Shutdown && self.server.metrics().num_connections() == 0
    }

    /// Whether it ends, with no connection. The server is dropped then.
    fn has_ended(mut self) -> bool
        requires { W.can_call self.server.service }
    {
        let held = self.ends();
        let_go(self);
        held
    }

    /// Whether a stream server over this accept object ends, shut down before its run, with no connection.
    fn ends_over(rt: &R, alloc: Global, accept: A, clock: C, spawner: P, service: W) -> bool
        requires { W.can_call service }
    {
        match connections(alloc, accept, clock, spawner, service) {
            Ok(server) => Closing { rt, alloc, server }.has_ended(),
            Err(_) => false,
        }
    }
}

/// Whether a stream server with a thread for each connection ends, shut down before its run, with no connection.
fn tcp_over<
    R: Threads + Wait + Copy + Send + 'static,
    A: AsyncAccept + Drop,
    C: Clock + Send + Drop + 'static,
    W: SharedService + Send + Sync + 'static,
>(rt: &R, alloc: Global, accept: A, clock: C, service: W) -> bool
where
    A::Link: Send + Drop + 'static,
    W::Future: Send,
    W::Stream: Send,
    requires { W.can_call service }
{
    let spawner = ThreadSpawner::new(alloc);
    Closing::ends_over(rt, alloc, accept, clock, spawner, service)
}

/// Whether a stream server with a service that answers at once ends, shut down before its run.
fn tcp_ends<
    R: Threads + Wait + Copy + Send + 'static,
    A: AsyncAccept + Drop,
    C: Clock + Send + Drop + 'static,
>(rt: &R, alloc: Global, accept: A, clock: C) -> bool
where
    A::Link: Send + Drop + 'static,
{
    match Holding::new(alloc, false, OptRcode::NOERROR) {
        Ok(service) => tcp_over(rt, alloc, accept, clock, WithoutMeta { service }),
        Err(_) => false,
    }
}

/// Whether a server over a TCP listener ends once it is shut down.
fn tcp_holds<R: Net + rt::Clock + Threads + Wait + Copy + Send + 'static>(
    rt: R,
    alloc: Global,
) -> bool {
    match MioAccept::bind(&rt, HERE) {
        Ok(accept) => tcp_ends(&rt, alloc, accept, HostClock::new(rt)),
        Err(_) => false,
    }
}

/// Each server ends once it is shut down.
#[test]
fn each_server_ends(rt: HostRuntime) -> Result<(), &'static str> {
    if !udp_holds(rt, rt.alloc()) {
        return Err("a_udp_server_ends");
    }
    if !tcp_holds(rt, rt.alloc()) {
        return Err("a_tcp_server_ends");
    }
    Ok(())
}
