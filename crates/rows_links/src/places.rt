//! What tests serve in: a book, and what they serve.

ghost use Rattle.std.specs.Prelude.{◌≡◌, IfOk};
ghost use Rattle.std.specs.Arc.{arc_value};

use crate::links::{Seen, SeenLink, links_of};
use dns_book::{Book, BookSeat, BookState};
use dns_name::{IpAddr, Octets, OutOfMemory, SocketAddr};
use dns_outside::{ListedCalls, MemoryAccept, MemoryClock, Packet};
use dns_service::{DgramConfig, StreamConfig};
use std::alloc::Global;
use std::sync::{Arc, Wait};

/// Where each connection and each datagram comes from.
pub const PEER: SocketAddr = SocketAddr {
    ip: IpAddr::V4([192, 0, 2, 1]),
    port: 53,
};

/// An open book with that many slots, and its first seat.
pub fn book_of(alloc: Global, slots: usize) -> Result<(Arc<Book>, BookSeat), OutOfMemory>
    ensures { IfOk result (λ r. r.1.book ≡ arc_value r.0) }
{
    let mut stream = StreamConfig::new();
    stream.set_max_concurrent_connections(slots);
    let (book, seat) = Book::new(alloc, BookState::new(DgramConfig::new(), stream))?;
    Ok((Arc::new(alloc, book)?, seat))
}

/// A clock without readings.
pub fn clock(alloc: Global) -> MemoryClock {
    MemoryClock::new(Vec::new(alloc))
}

/// Lets what was served go, in a function that needn't know of what type it is.
pub fn let_go<T: Drop>(_served: T) {}

/// Calls of which these fail and those answer Again.
pub fn calls(alloc: Global, failing: &[u64], again: &[u64]) -> Result<ListedCalls, OutOfMemory> {
    Ok(ListedCalls::new(
        Vec::from_slice(alloc, failing)?,
        Vec::from_slice(alloc, again)?,
    ))
}

/// A datagram of these octets.
pub fn packet(alloc: Global, octets: &[u8]) -> Result<Packet, OutOfMemory> {
    Ok(Packet {
        octets: Octets::from_slice(alloc, octets)?,
        addr: PEER,
    })
}

/// What gives a link for each of these queries, of which these accepts fail and those answer Again. What is seen of the links is put
/// after what stands in `seen`.
pub fn accept_of<R: Wait + Copy + Drop>(
    rt: R,
    alloc: Global,
    queries: &[&[u8]],
    failing: &[u64],
    again: &[u64],
    seen: &mut Vec<Arc<Seen>>,
) -> Result<MemoryAccept<SeenLink<R>>, OutOfMemory> {
    let accepts = calls(alloc, failing, again)?;
    match links_of(rt, alloc, queries, seen) {
        Ok(links) => Ok(MemoryAccept::new(alloc, links, accepts)),
        Err(error) => Err(error),
    }
}
