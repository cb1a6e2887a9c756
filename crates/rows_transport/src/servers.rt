//! Servers over memory, with their metrics, their controls and the hook.

ghost use Rattle.std.specs.Prelude.{◌≡◌, IfOk};

mod answering;
mod controls;
mod mailing;

use answering::Answering;
use dns_middleware::{Notifiable, Settings, wrap};
use dns_name::{OptRcode, OutOfMemory, SocketAddr};
use dns_outside::{
    AsyncAccept, AsyncDgramSock, Clock, Link, MemorySpawner, SteadyAccept, SteadyLink, SteadySock,
};
use dns_script::{NotifyRules, ScriptTarget};
use dns_service::{Service, SharedService, WithoutMeta};
use dns_transport::{DgramServer, NoHook, PreConnect, StreamServer, VecBufSource};
use mailing::Mailing;
use rows_links::{Holding, Marking, PEER, clock, let_go, links_of, packet, show};
use std::alloc::Global;
use std::collections::VecDeque;
use std::sync::{Arc, Wait};
use std::thread::Threads;

/// A query for the root's address.
const QUERY: &[u8] = b"\x12\x34\x01\x00\x00\x01\x00\x00\x00\x00\x00\x00\x00\x00\x01\x00\x01";

/// The query with an OPT record, and the reply that all is well, both after their length. The reply says after how many units of
/// 100 ms an idle connection is closed (RFC 7828).
pub const FRAME: &[u8] =
    b"\x00\x1c\x12\x34\x01\x00\x00\x01\x00\x00\x00\x00\x00\x01\x00\x00\x01\x00\x01\x00\x00\x29\x00\x00\x00\x00\x00\x00\x00\x00";

/// The answer to `FRAME`.
pub const ANSWER: &[u8] =
    b"\x00\x22\x12\x34\x81\x00\x00\x01\x00\x00\x00\x00\x00\x01\x00\x00\x01\x00\x01\x00\x00\x29\x00\x00\x00\x00\x00\x00\x00\x06\x00\x0b\x00\x02\x01\x2c";

/// A target of no rules.
pub fn target(alloc: Global) -> ScriptTarget {
    ScriptTarget::new(NotifyRules::new(alloc))
}

/// A server of datagrams over this socket.
pub fn datagrams<D: AsyncDgramSock + Drop, C: Clock + Drop, W: SharedService>(
    alloc: Global,
    sock: D,
    clock: C,
    service: W,
) -> Result<DgramServer<D, VecBufSource, W, C>, OutOfMemory>
    ensures { IfOk result (λ s. s.service ≡ service) }
{
    let service = Arc::new(alloc, service)?;
    DgramServer::new(alloc, sock, VecBufSource, service, clock)
}

/// A server of connections over this accept object.
pub fn connections<A: AsyncAccept + Drop, C: Clock + Drop, P: Drop, W: SharedService>(
    alloc: Global,
    accept: A,
    clock: C,
    spawner: P,
    service: W,
) -> Result<StreamServer<A, VecBufSource, W, C, P>, OutOfMemory>
    ensures { IfOk result (λ s. s.service ≡ service) }
{
    let service = Arc::new(alloc, service)?;
    StreamServer::new(alloc, accept, VecBufSource, service, clock, spawner)
}

/// A server of datagrams, which may be closed before.
#[derive(Clone, Copy)]
struct DgramCase {
    is_closed: bool,
}

impl DgramCase {
    /// Whether the server answers one datagram, or none if it is closed before.
    fn is_served<R: Threads + Wait + Sync, W: SharedService>(
        &self,
        mailing: &mut Mailing<'_, R, W>,
    ) -> bool
        requires { W.can_call mailing.old.server.service }
    {
        if self.is_closed {
            mailing.stays_shut()
        } else {
            mailing.answers()
        }
    }

    /// Whether a server over this socket does as the case wants. The server is dropped then.
    fn is_served_over<R: Threads + Wait + Sync, W: SharedService>(
        &self,
        rt: &R,
        alloc: Global,
        sock: SteadySock,
        service: W,
    ) -> bool
        requires { W.can_call service }
    {
        match datagrams(alloc, sock, clock(alloc), service) {
            Ok(server) => {
                let mut mailing = Mailing { rt, alloc, server };
                let held = self.is_served(&mut mailing);
                let_go(mailing);
                held
            }
            Err(_) => false,
        }
    }

    /// Whether a server over a socket with one query does as the case wants.
    fn is_served_by<R: Threads + Wait + Sync, W: SharedService>(
        &self,
        rt: &R,
        alloc: Global,
        service: W,
    ) -> bool
        requires { W.can_call service }
    {
        match sock(alloc) {
            Ok(sock) => self.is_served_over(rt, alloc, sock, service),
            Err(_) => false,
        }
    }
}

/// Whether a case is served as is wanted by a service in all layers.
fn is_wrapped<R: Threads + Wait + Sync, S: Service<()>, N: Notifiable>(
    rt: &R,
    alloc: Global,
    case: DgramCase,
    service: S,
    target: N,
) -> bool
    requires { S.can_call service }
{
    match wrap(alloc, &Settings::new(alloc), service, target) {
        Ok(service) => case.is_served_by(rt, alloc, WithoutMeta { service }),
        Err(_) => false,
    }
}

/// Whether a case is served as it wants by a service in all layers that answers NXDOMAIN.
fn is_layered<R: Threads + Wait + Sync>(rt: &R, alloc: Global, case: DgramCase) -> bool {
    match Holding::new(alloc, false, OptRcode::NXDOMAIN) {
        Ok(service) => is_wrapped(rt, alloc, case, service, target(alloc)),
        Err(_) => false,
    }
}

/// A socket with one query.
fn sock(alloc: Global) -> Result<SteadySock, OutOfMemory> {
    let packet = packet(alloc, QUERY)?;
    let mut packets = Vec::new(alloc);
    match packets.push(packet) {
        Ok(()) => Ok(SteadySock::new(alloc, packets)),
        Err(_) => Err(OutOfMemory),
    }
}

/// Servers of datagrams, by names.
const CASES: &[(&'static str, DgramCase)] = &[
    // A query is answered, and the server is shut down and shows what it counted.
    ("a_datagram_is_answered", DgramCase { is_closed: false }),
    // If the book is closed before, nothing is served.
    (
        "a_closed_server_serves_nothing",
        DgramCase { is_closed: true },
    ),
];

/// What a test ends with, if all are served as is wanted, and else the name of the first that isn't.
fn all_hold<R: Threads + Wait + Sync>(
    rt: &R,
    alloc: Global,
    cases: &[(&'static str, DgramCase)],
) -> Result<(), &'static str> {
    for (name, case) in cases {
        if !is_layered(rt, alloc, *case) {
            return Err(name);
        }
    }
    Ok(())
}

/// Whether a server of these links in memory, with this hook, answers each by a service.
fn answers_links<
    R: Threads + Wait + Copy + Send + Sync + 'static,
    L: Link + Send + Drop + 'static,
    H: PreConnect<L> + Drop,
    W: SharedService + Send + Sync + 'static,
>(rt: &R, alloc: Global, links: VecDeque<(L, SocketAddr)>, hook: H, service: W) -> bool
where
    W::Future: Send,
    W::Stream: Send,
    requires { W.can_call service }
{
    let wanted = links.len();
    let accept = SteadyAccept::new(alloc, links);
    let spawner = MemorySpawner::new(alloc, Vec::new(alloc));
    Answering::answers_over(rt, alloc, accept, spawner, hook, service, wanted)
}

/// One link with one query.
fn link(alloc: Global) -> Result<VecDeque<(SteadyLink, SocketAddr)>, OutOfMemory> {
    let link = SteadyLink::new(Vec::from_slice(alloc, FRAME)?, Vec::new(alloc));
    let mut links = VecDeque::new(alloc);
    match links.push_back((link, PEER)) {
        Ok(()) => Ok(links),
        Err(_) => Err(OutOfMemory),
    }
}

/// Whether a server of these links, with this hook, answers each by a service in all layers.
fn answers_wrapped<
    R: Threads + Wait + Copy + Send + Sync + 'static,
    L: Link + Send + Drop + 'static,
    H: PreConnect<L> + Drop,
    S: Service<()> + Send + Sync + 'static,
    N: Notifiable + Send + Sync + 'static,
>(rt: &R, alloc: Global, links: VecDeque<(L, SocketAddr)>, hook: H, service: S, target: N) -> bool
where
    S::Future: Send,
    S::Stream: Send,
    N::Future: Send,
    requires { S.can_call service }
{
    match wrap(alloc, &Settings::new(alloc), service, target) {
        Ok(service) => answers_links(rt, alloc, links, hook, WithoutMeta { service }),
        Err(_) => false,
    }
}

/// Whether a server of these links, with this hook, answers each by a service in all layers that answers NOERROR.
fn answers_layered<
    R: Threads + Wait + Copy + Send + Sync + 'static,
    L: Link + Send + Drop + 'static,
    H: PreConnect<L> + Drop,
>(rt: &R, alloc: Global, links: VecDeque<(L, SocketAddr)>, hook: H) -> bool {
    match Holding::new(alloc, false, OptRcode::NOERROR) {
        Ok(service) => answers_wrapped(rt, alloc, links, hook, service, target(alloc)),
        Err(_) => false,
    }
}

/// Whether a server of connections answers one query.
fn answers_one<R: Threads + Wait + Copy + Send + Sync + 'static>(rt: &R, alloc: Global) -> bool {
    match link(alloc) {
        Ok(links) => answers_layered(rt, alloc, links, NoHook),
        Err(_) => false,
    }
}

/// Three links that each give the query.
const QUERIES: &[&[u8]] = &[FRAME, FRAME, FRAME];

/// What each shows then, and that it is handed to the hook once.
const ANSWERS: &[(&[u8], u64)] = &[(ANSWER, 1), (ANSWER, 1), (ANSWER, 1)];

/// Whether three links are each handed to the hook once, given the answer and closed once.
fn are_hooked<R: Threads + Wait + Copy + Send + Sync + Drop + 'static>(
    rt: R,
    alloc: Global,
) -> bool {
    let mut seen = Vec::new(alloc);
    match links_of(rt, alloc, QUERIES, &mut seen) {
        Ok(links) => { answers_layered(&rt, alloc, links, Marking) && show(&rt, &seen, ANSWERS, 1) }
        Err(_) => false,
    }
}

/// Each server serves as is wanted of it.
#[test]
fn each_case_is_served(rt: HostRuntime) -> Result<(), &'static str> {
    // A server of connections answers a query, is shut down, and shows what it counted.
    if !answers_one(&rt, rt.alloc()) {
        return Err("a_connection_is_answered");
    }
    // The hook is handed each link that is admitted, once, and each is answered.
    if !are_hooked(rt, rt.alloc()) {
        return Err("the_hook_is_called");
    }
    all_hold(&rt, rt.alloc(), CASES)
}
