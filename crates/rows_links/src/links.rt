//! Links that a test reads after they were handed over.

ghost use Rattle.std.specs.Prelude.{[]};

use crate::places::PEER;
use dns_name::{OutOfMemory, SocketAddr};
use dns_outside::{Link, LinkRead, LinkWrite};
use dns_transport::PreConnect;
use std::alloc::Global;
use std::collections::VecDeque;
use std::sync::atomic::{AtomicU64, Ordering};
use std::sync::{Arc, Mutex, Wait};
use std::thread::yield_now;

/// What a test sees of a link.
#[derive(Drop)]
pub struct Seen {
    /// The octets that were written.
    pub written: Mutex<Vec<u8>>,
    /// The number of times that it was handed to a hook.
    pub hooked: AtomicU64,
    /// The number of times that it was closed.
    pub closed: AtomicU64,
}

/// A link that gives one query, answers Again until a frame was written, and then End. It tells nothing.
#[derive(Drop)]
pub struct SeenLink<R> {
    rt: R,
    query: Vec<u8>,
    place: usize,
    seen: Arc<Seen>,
}

/// What is seen of a link that was never used. It is put after what stands in `seen`, too.
fn unseen(alloc: Global, seen: &mut Vec<Arc<Seen>>) -> Result<Arc<Seen>, OutOfMemory> {
    let sight = Seen {
        written: Mutex::new(Vec::new(alloc)),
        hooked: AtomicU64::new(0),
        closed: AtomicU64::new(0),
    };
    let sight = Arc::new(alloc, sight)?;
    seen.push(Arc::try_clone(&sight)?)?;
    Ok(sight)
}

/// A link that gives this query.
fn link_of<R: Copy>(
    rt: R,
    alloc: Global,
    query: &[u8],
    seen: &mut Vec<Arc<Seen>>,
) -> Result<SeenLink<R>, OutOfMemory> {
    let query = Vec::from_slice(alloc, query)?;
    match unseen(alloc, seen) {
        Ok(seen) => Ok(SeenLink {
            rt,
            query,
            place: 0,
            seen,
        }),
        Err(error) => Err(error),
    }
}

/// Puts a link that gives this query after the others.
fn add_link<R: Wait + Copy + Drop>(
    rt: R,
    alloc: Global,
    query: &[u8],
    seen: &mut Vec<Arc<Seen>>,
    links: &mut VecDeque<(SeenLink<R>, SocketAddr)>,
) -> Result<(), OutOfMemory> {
    let link = link_of(rt, alloc, query, seen)?;
    match links.push_back((link, PEER)) {
        Ok(()) => Ok(()),
        Err(_) => Err(OutOfMemory),
    }
}

/// Links that each give one of these queries. What is seen of them is put after what stands in `seen`.
pub fn links_of<R: Wait + Copy + Drop>(
    rt: R,
    alloc: Global,
    queries: &[&[u8]],
    seen: &mut Vec<Arc<Seen>>,
) -> Result<VecDeque<(SeenLink<R>, SocketAddr)>, OutOfMemory> {
    let mut links = VecDeque::new(alloc);
    for query in queries {
        add_link(rt, alloc, query, seen, &mut links)?;
    }
    Ok(links)
}

/// A hook that marks each link that it is handed.
#[derive(Clone, Copy)]
pub struct Marking;

impl<R> PreConnect<SeenLink<R>> for Marking {
    fn call(&self, link: &mut SeenLink<R>) {
        link.seen.hooked.fetch_add(1, Ordering::SeqCst);
    }
}

/// Whether the octets begin with a whole frame.
fn has_frame(octets: &[u8]) -> bool {
    octets.len() >= 2 && octets.len() - 2 >= usize::from(u16::from_be_bytes([octets[0], octets[1]]))
}

impl<R: Wait> SeenLink<R> {
    /// Whether a whole frame was written.
    fn is_answered(&self) -> bool {
        has_frame(self.seen.written.lock(&self.rt).as_slice())
    }
}

impl<R: Wait + Copy + Drop> Link for SeenLink<R> {
    ghost tells = { λ _. ⊥ };

    ghost traffic = { λ _. record { came = []; went = []; ends = 0; empty_reads = 0; full_writes = 0 } };

    ghost faults = { λ _. 0 };

    fn read(&mut self, buf: &mut [u8]) -> LinkRead {
        if self.place < self.query.len() {
            let left = self.query.len() - self.place;
            let count = left.min(buf.len());
            buf[..count].copy_from_slice(&self.query[self.place..self.place + count]);
            self.place += count;
            return LinkRead::Got(count);
        }
        if self.is_answered() {
            LinkRead::End
        } else {
            LinkRead::Again
        }
    }

    fn write(&mut self, piece: &[u8]) -> LinkWrite {
        match self.seen.written.lock(&self.rt).extend_from_slice(piece) {
            Ok(()) => LinkWrite::Took(piece.len()),
            Err(_) => LinkWrite::Again,
        }
    }

    fn wait<T: Wait>(&mut self, _rt: &T, _millis: u64) {
        yield_now();
    }

    fn close(&mut self) {
        self.seen.closed.fetch_add(1, Ordering::SeqCst);
    }
}

impl Seen {
    /// Whether these octets were written on the link, which was handed to a hook that many times, and closed that many times.
    fn shows<R: Wait>(&self, rt: &R, wanted: &(&[u8], u64), closed: u64) -> bool {
        self.hooked.load(Ordering::SeqCst) == wanted.1
            && self.closed.load(Ordering::SeqCst) == closed
            && self.written.lock(rt).as_slice() == wanted.0
    }
}

/// Whether these octets were written on the links. The links were handed to a hook that many times, and each was closed that many
/// times.
pub fn show<R: Wait>(rt: &R, seen: &[Arc<Seen>], wanted: &[(&[u8], u64)], closed: u64) -> bool {
    if seen.len() != wanted.len() {
        return false;
    }
    for (sight, wanted) in seen.iter().zip(wanted.iter()) {
        if !sight.shows(rt, wanted, closed) {
            return false;
        }
    }
    true
}
