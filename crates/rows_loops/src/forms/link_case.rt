//! What is served over a link in memory, and what is wanted of it.

ghost use Rattle.std.specs.Prelude.{◌≡◌, false};

use crate::forms::cases::{Case, Desk, Outside};
use crate::forms::halting::Halting;
use crate::forms::notes::{are, calls};
use dns_book::{Admission, Book, BookSeat, Look};
use dns_memory::{Clock, Link, MemoryClock, MemoryLink};
use dns_name::{IpAddr, OutOfMemory, SocketAddr};
use dns_service::SharedService;
use dns_stream_driver::{ConnectionEnd, Recorder, serve_connection};
use std::alloc::Global;
use std::sync::Wait;

const PEER: SocketAddr = SocketAddr {
    ip: IpAddr::V4([192, 0, 2, 1]),
    port: 53,
};

/// A connection, and what is wanted of it.
#[derive(Clone, Copy)]
pub(crate) struct LinkCase<'a> {
    /// The octets that come, and the most that are moved a call.
    pub(crate) octets: &'a [u8],
    pub(crate) most: usize,
    /// The reads and writes that fail, and those that answer Again.
    pub(crate) failed_reads: &'a [u64],
    pub(crate) reads_again: &'a [u64],
    pub(crate) failed_writes: &'a [u64],
    pub(crate) writes_again: &'a [u64],
    /// The readings of the clock.
    pub(crate) times: &'a [(u64, u64)],
    /// Whether the book is shut down before the connection is served, and at each wait of its link. Then it takes ten octets a
    /// write at most.
    pub(crate) shut_before: bool,
    pub(crate) shut_at_waits: bool,
    /// For how many notes there is memory.
    pub(crate) notes: u64,
    pub(crate) end: ConnectionEnd,
    /// The events, by their letters.
    pub(crate) events: &'a [u8],
    /// The octets that are written.
    pub(crate) written: &'a [u8],
    /// The calls of the link, by their letters.
    pub(crate) calls: &'a [u8],
}

impl LinkCase<'_> {
    fn link(&self, alloc: Global) -> Result<MemoryLink, OutOfMemory> {
        let octets = Vec::from_slice(alloc, self.octets)?;
        let reads = calls(alloc, self.failed_reads, self.reads_again)?;
        match calls(alloc, self.failed_writes, self.writes_again) {
            Ok(writes) => Ok(MemoryLink::new(octets, Vec::new(alloc), self.most, reads, writes)),
            Err(error) => Err(error),
        }
    }

    /// Serves a connection that is admitted, if no shutdown is shown. How it ends, and how many slots are taken then.
    fn serve_admitted<R: Wait, W: SharedService, L: Link, C: Clock>(
        &self,
        desk: Desk<'_, R, W>,
        look: &Look,
        outside: &mut Outside<L, C>,
    ) -> (ConnectionEnd, u64)
        requires book { desk.seat.book ≡ desk.book.now }
        requires can_call { W.can_call desk.service.now }
    {
        if look.closed {
            return (ConnectionEnd::OutOfMemory, 1);
        }
        let Desk {
            rt,
            alloc,
            book,
            seat,
            service,
        } = desk;
        let (mut seat, end) = self.serve(
            rt,
            alloc,
            book,
            seat,
            look,
            service,
            &mut outside.watched,
            &mut outside.clock,
            &mut outside.journal,
        );
        (end, book.look(rt, &mut seat).taken)
    }

    /// Serves it over a link, by a clock, into a recorder.
    fn serve<'a, R: Wait, W: SharedService, L: Link, C: Clock, J: Recorder>(
        &self,
        rt: &R,
        alloc: Global,
        book: &'a Book,
        seat: BookSeat,
        look: &Look,
        service: &W,
        link: &'a mut L,
        clock: &mut C,
        journal: &mut J,
    ) -> (BookSeat, ConnectionEnd)
        requires book { seat.book ≡ book.now }
        requires running { look.now.closed ≡ false }
        requires can_call { W.can_call service.now }
        ensures { result.0.book ≡ seat.book }
    {
        let (seat, other) = self.seats(rt, book, seat);
        let mut link = Halting {
            link,
            book,
            seat: other,
            halts: self.shut_at_waits,
        };
        serve_connection(
            rt, alloc, book, seat, 7, PEER, look, service, &mut link, clock, journal,
        )
    }

    /// Two seats in place of one, after the shutdown if one is wanted before.
    fn seats<R: Wait>(&self, rt: &R, book: &Book, mut seat: BookSeat) -> (BookSeat, BookSeat)
        requires { seat.book ≡ book.now }
        ensures { (result.0.book ≡ seat.book) × (result.1.book ≡ seat.book) }
    {
        if self.shut_before {
            book.shutdown(rt, &mut seat);
        }
        book.split(rt, seat)
    }
}

impl Case for LinkCase<'_> {
    type Outside = Outside<MemoryLink, MemoryClock>;

    /// How the connection ends, and how many slots are taken then.
    type End = (ConnectionEnd, u64);

    fn outside(&self, alloc: Global) -> Result<Outside<MemoryLink, MemoryClock>, OutOfMemory> {
        let times = Vec::from_slice(alloc, self.times)?;
        let clock = MemoryClock::new(times);
        match self.link(alloc) {
            Ok(link) => Ok(Outside::new(alloc, link, clock, self.notes)),
            Err(error) => Err(error),
        }
    }

    fn serve_at<R: Wait, W: SharedService>(
        &self,
        mut desk: Desk<'_, R, W>,
        outside: &mut Outside<MemoryLink, MemoryClock>,
    ) -> (ConnectionEnd, u64) {
        match desk.book.admit(desk.rt, &mut desk.seat) {
            Admission::Admitted(look) => self.serve_admitted(desk, &look, outside),
            _ => (ConnectionEnd::OutOfMemory, 1),
        }
    }

    /// The slot is given back, these events were noted, these calls made of the link, and these octets written on it.
    fn is_ended(
        &self,
        end: (ConnectionEnd, u64),
        outside: &Outside<MemoryLink, MemoryClock>,
    ) -> bool {
        end == (self.end, 0)
            && are(outside.journal.events(), self.events)
            && outside.watched.calls() == self.calls
            && outside.watched.inner().written() == self.written
    }
}
