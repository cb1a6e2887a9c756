//! Forms in memory, at the calls that fail.

use dns_name::{IpAddr, Octets, OutOfMemory, SocketAddr};
use dns_outside::{
    AcceptAnswer, AsyncAccept, AsyncDgramSock, Clock, DgramRecv, DgramSend, Link, LinkRead,
    LinkWrite, ListedCalls, MemoryAccept, MemoryClock, MemoryLink, MemorySock, Packet,
    SteadyAccept, SteadyLink, SteadySock,
};
use std::alloc::Global;
use std::collections::VecDeque;

const PEER: SocketAddr = SocketAddr {
    ip: IpAddr::V4([192, 0, 2, 1]),
    port: 53,
};

/// Calls of which this one fails and that one answers Again.
fn calls(alloc: Global, failing: &[u64], again: &[u64]) -> Result<ListedCalls, OutOfMemory> {
    Ok(ListedCalls::new(
        Vec::from_slice(alloc, failing)?,
        Vec::from_slice(alloc, again)?,
    ))
}

/// Whether the reads of a link come to these.
fn reads<L: Link>(link: &mut L, wanted: &[LinkRead]) -> bool {
    let mut buf = [0u8; 8];
    for answer in wanted {
        if link.read(&mut buf) != *answer {
            return false;
        }
    }
    true
}

/// Whether the writes of a link come to these.
fn writes<L: Link>(link: &mut L, wanted: &[(&[u8], LinkWrite)]) -> bool {
    for (piece, answer) in wanted {
        if link.write(piece) != *answer {
            return false;
        }
    }
    true
}

/// A link that takes and gives two octets a call, of which the first read answers Again, and the second read and write fail.
fn failing_link(alloc: Global) -> Result<MemoryLink, OutOfMemory> {
    let reads = calls(alloc, &[1], &[0])?;
    let writes = calls(alloc, &[1], &[])?;
    match Vec::from_slice(alloc, b"xyz") {
        Ok(input) => Ok(MemoryLink::new(input, Vec::new(alloc), 2, reads, writes)),
        Err(error) => Err(error.into()),
    }
}

/// The first read answers Again, the second fails, and then the octets come, two a call, up to the end.
const READS: &[LinkRead] = &[
    LinkRead::Again,
    LinkRead::Failed,
    LinkRead::Got(2),
    LinkRead::Got(1),
    LinkRead::End,
];

/// Writes take two octets a call, and the second fails.
const WRITES: &[(&[u8], LinkWrite)] = &[
    (b"abc", LinkWrite::Took(2)),
    (b"c", LinkWrite::Failed),
    (b"c", LinkWrite::Took(1)),
];

/// Whether a link reads and writes so.
fn passes_over_faults(link: &mut MemoryLink) -> bool {
    reads(link, READS) && writes(link, WRITES) && link.written() == b"abc".as_slice()
}

/// Whether the link of which calls fail does.
fn a_link_holds(alloc: Global) -> bool {
    match failing_link(alloc) {
        Ok(mut link) => passes_over_faults(&mut link),
        Err(_) => false,
    }
}

/// Whether the receives of a socket come to these.
fn receives<D: AsyncDgramSock>(sock: &mut D, buf: &mut [u8], wanted: &[DgramRecv]) -> bool {
    for answer in wanted {
        if sock.try_recv_buf_from(buf) != *answer {
            return false;
        }
    }
    true
}

/// Whether the sends of a socket come to these.
fn sends<D: AsyncDgramSock>(sock: &mut D, wanted: &[(&[u8], DgramSend)]) -> bool {
    for (octets, answer) in wanted {
        if sock.poll_send_to(octets, PEER) != *answer {
            return false;
        }
    }
    true
}

/// One datagram.
fn packets(alloc: Global) -> Result<Vec<Packet>, OutOfMemory> {
    let octets = Octets::from_slice(alloc, b"xyz")?;
    let mut packets = Vec::new(alloc);
    packets.push(Packet { octets, addr: PEER })?;
    Ok(packets)
}

/// A socket with one datagram, of which the first receive and the first send fail.
fn failing_sock(alloc: Global) -> Result<MemorySock, OutOfMemory> {
    let receives = calls(alloc, &[0], &[])?;
    let sends = calls(alloc, &[0], &[])?;
    match packets(alloc) {
        Ok(packets) => Ok(MemorySock::new(alloc, packets, receives, sends)),
        Err(error) => Err(error),
    }
}

/// The first receive fails, the next gives the datagram, of which two octets have room, and then none is left.
const RECEIVES: &[DgramRecv] = &[DgramRecv::Failed, DgramRecv::Got(2, PEER), DgramRecv::Again];

/// The first of two sends fails.
const SENDS: &[(&[u8], DgramSend)] = &[(b"one", DgramSend::Failed), (b"two", DgramSend::Took(3))];

/// Whether a socket receives so.
fn receives_once(sock: &mut MemorySock) -> bool {
    let mut buf = [0u8; 2];
    receives(sock, &mut buf, RECEIVES) && buf == *b"xy"
}

/// Whether it sends so.
fn sends_once(sock: &mut MemorySock) -> bool {
    sends(sock, SENDS) && sock.sent().len() == 1
}

/// Whether the socket of which calls fail does both.
fn a_socket_holds(alloc: Global) -> bool {
    match failing_sock(alloc) {
        Ok(mut sock) => receives_once(&mut sock) && sends_once(&mut sock),
        Err(_) => false,
    }
}

/// Whether a clock gives these readings.
fn gives<C: Clock>(clock: &mut C, wanted: &[(u64, u64)]) -> bool {
    for reading in wanted {
        if clock.now() != *reading {
            return false;
        }
    }
    true
}

/// Whether another clock like it gives this one.
fn begins_anew<C: Clock + Drop>(alloc: Global, clock: &C, first: (u64, u64)) -> bool {
    match clock.another(alloc) {
        Ok(mut other) => other.now() == first,
        Err(_) => false,
    }
}

const FIRST: (u64, u64) = (1, 0);

const SECOND: (u64, u64) = (30_002, 30);

/// Whether a clock of two readings goes on with the second, and another with the first.
fn goes_on(alloc: Global) -> bool {
    match Vec::from_slice(alloc, &[FIRST, SECOND]) {
        Ok(readings) => repeats_the_last(alloc, &mut MemoryClock::new(readings)),
        Err(_) => false,
    }
}

fn repeats_the_last(alloc: Global, clock: &mut MemoryClock) -> bool {
    gives(clock, &[FIRST, SECOND, SECOND]) && begins_anew(alloc, clock, FIRST)
}

/// What an accept brings: a connection, with the answer to its first read, or none, or a fault.
#[derive(Clone, Copy, PartialEq, Eq)]
enum Came {
    Caller(LinkRead),
    Nobody,
    Fault,
}

/// Whether the accepts come to these, each connection from one address.
fn come<A: AsyncAccept>(accept: &mut A, wanted: &[Came]) -> bool
where
    A::Link: Drop,
{
    for answer in wanted {
        if next(accept) != Some(*answer) {
            return false;
        }
    }
    true
}

/// What the next accept brings, if it is none from another address.
fn next<A: AsyncAccept>(accept: &mut A) -> Option<Came>
where
    A::Link: Drop,
{
    match accept.poll_accept() {
        AcceptAnswer::Accepted(mut link, from) => {
            let read = link.read(&mut [0u8; 8]);
            if from == PEER {
                Some(Came::Caller(read))
            } else {
                None
            }
        }
        AcceptAnswer::Again => Some(Came::Nobody),
        AcceptAnswer::Failed => Some(Came::Fault),
    }
}

/// A link of which no call fails, which gives these octets.
fn steady_link(alloc: Global, input: &[u8]) -> Result<SteadyLink, OutOfMemory> {
    match Vec::from_slice(alloc, input) {
        Ok(input) => Ok(SteadyLink::new(input, Vec::new(alloc))),
        Err(error) => Err(error.into()),
    }
}

/// Two connections over such links, of which one gives one octet and the other two.
fn connections(alloc: Global) -> Result<VecDeque<(SteadyLink, SocketAddr)>, OutOfMemory> {
    let mut both = VecDeque::new(alloc);
    for input in [b"1".as_slice(), b"22".as_slice()] {
        both.push_back((steady_link(alloc, input)?, PEER))?;
    }
    Ok(both)
}

const ONE: Came = Came::Caller(LinkRead::Got(1));

const TWO: Came = Came::Caller(LinkRead::Got(2));

/// An accept object in memory, whose second accept fails.
fn failing_accept(alloc: Global) -> Result<MemoryAccept<SteadyLink>, OutOfMemory> {
    let fail = calls(alloc, &[1], &[])?;
    match connections(alloc) {
        Ok(both) => Ok(MemoryAccept::new(alloc, both, fail)),
        Err(error) => Err(error),
    }
}

/// Whether its connections come, and a fault between.
fn no_connection_is_lost(alloc: Global) -> bool {
    match failing_accept(alloc) {
        Ok(mut accept) => come(&mut accept, &[ONE, Came::Fault, TWO, Came::Nobody]),
        Err(_) => false,
    }
}

/// Whether the connections come from an accept object of which no call fails.
fn come_steadily(alloc: Global) -> bool {
    match connections(alloc) {
        Ok(both) => come(
            &mut SteadyAccept::new(alloc, both),
            &[ONE, TWO, Came::Nobody],
        ),
        Err(_) => false,
    }
}

/// Whether a socket of which no call fails takes a datagram, and has none to give.
fn sends_steadily(sock: &mut SteadySock) -> bool {
    sends(sock, &[(b"abc", DgramSend::Took(3))])
        && receives(sock, &mut [], &[DgramRecv::Again])
        && sock.sent().len() == 1
}

/// Whether both forms hold.
fn steady_ones_hold(alloc: Global) -> bool {
    come_steadily(alloc) && sends_steadily(&mut SteadySock::new(alloc, Vec::new(alloc)))
}

/// What the test ends with, if each form holds, and else the name of the first that doesn't.
fn all_hold(alloc: Global) -> Result<(), &'static str> {
    // The first read answers Again, the second fails, and then the octets come, two a call, up to the end. Writes take two octets a
    // call, and the second fails.
    if !a_link_holds(alloc) {
        return Err("a_link_fails_at_its_second_calls");
    }
    // The first receive fails, the next gives the datagram, and then none is left; the first of two sends fails.
    if !a_socket_holds(alloc) {
        return Err("a_socket_fails_at_its_first_calls");
    }
    // The listed readings, then the last one again; another clock begins anew.
    if !goes_on(alloc) {
        return Err("a_clock_goes_on");
    }
    // The second accept fails, and no connection is lost by that.
    if !no_connection_is_lost(alloc) {
        return Err("connections_come_in_order");
    }
    // Forms of which no call fails give what they hold, and then answer Again.
    if !steady_ones_hold(alloc) {
        return Err("steady_forms");
    }
    Ok(())
}

/// Each form holds.
#[test]
fn each_form_holds(rt: HostRuntime) -> Result<(), &'static str> {
    all_hold(rt.alloc())
}
