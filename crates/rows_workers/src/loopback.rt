//! Two workers at one port of this machine, and many clients.

ghost use Rattle.std.specs.Prelude.{◌≡◌, IfOk};
ghost use Rattle.std.specs.Arc.{arc_value};

use crate::machine::{HERE, Workers, open_machine, open_workers, served};
use crate::notes::Note;
use dns_book::{Book, BookSeat};
use dns_name::{OptRcode, SocketAddr};
use dns_outside::{AsyncDgramSock, DgramRecv, MioSock};
use dns_service::{DgramConfig, SharedService, StreamConfig, WithoutMeta};
use dns_workers::HostEnd;
use rows_links::{Holding, book_of};
use std::alloc::Global;
use std::net::Net;
use std::sync::{Arc, Wait};
use std::thread::{Threads, spawn};
use std::{io, rt};

/// A query for the root's address with id 3, and its reply that all is well, with an OPT record.
const QUERY: &[u8] = b"\x00\x03\x01\x00\x00\x01\x00\x00\x00\x00\x00\x00\x00\x00\x01\x00\x01";

const REPLY: &[u8] =
    b"\x00\x03\x81\x00\x00\x01\x00\x00\x00\x00\x00\x01\x00\x00\x01\x00\x01\x00\x00\x29\x00\x00\x00\x00\x00\x00\x00\x00";

/// How many clients ask.
const CLIENTS: usize = 64;

/// How often a client waits for its reply, and how many milliseconds each time.
const WAITS: u64 = 50;

const MILLIS: u64 = 100;

/// Sockets of clients on loopback.
fn open_clients<R: Net>(rt: &R, alloc: Global) -> io::Result<Vec<MioSock>> {
    let mut clients = Vec::new(alloc);
    for _ in 0..CLIENTS {
        clients.push(MioSock::bind(rt, HERE)?)?;
    }
    Ok(clients)
}

/// Whether the reply comes to a client, from the port that was asked.
fn is_answered<R: Wait>(rt: &R, client: &mut MioSock, port: u16) -> bool {
    let mut buf = [0u8; 64];
    for _ in 0..WAITS {
        client.readable(rt, MILLIS);
        match client.try_recv_buf_from(&mut buf) {
            DgramRecv::Got(count, from) => {
                return from.port == port && buf.get(..count) == Some(REPLY);
            }
            DgramRecv::Again => {}
            DgramRecv::Failed => return false,
        }
    }
    false
}

/// How many of the clients are answered, which all ask before the first reply is taken.
fn answered<R: Wait>(rt: &R, clients: &mut [MioSock], port: u16) -> usize {
    for client in clients.iter_mut() {
        let _ = client.poll_send_to(QUERY, SocketAddr { port, ..HERE });
    }
    let mut count = 0usize;
    for client in clients.iter_mut() {
        if is_answered(rt, client, port) {
            count = count.saturating_add(1);
        }
    }
    count
}

/// Clients of a port, and what changes the server's state once they asked.
#[derive(Drop)]
struct Clients {
    socks: Vec<MioSock>,
    port: u16,
    book: Arc<Book>,
    seat: BookSeat,
}

impl Clients {
    /// Lets the clients ask, then replaces the settings and shuts the book down. How many clients were answered.
    fn ask_and_change<R: Wait>(self, rt: &R) -> usize
        requires { self.seat.book ≡ arc_value self.book }
    {
        let Clients {
            mut socks,
            port,
            book,
            mut seat,
        } = self;
        let count = answered(rt, socks.as_mut_slice(), port);
        let _ = book.reconfigure(rt, &mut seat, DgramConfig::new(), StreamConfig::new());
        book.shutdown(rt, &mut seat);
        count
    }
}

/// Whether each worker took a datagram and heard of both changes.
fn all_heard<R>(workers: &Workers<R>) -> bool {
    Note::Datagram.last_moment(workers.as_slice()).is_some()
        && Note::Settings.last_moment(workers.as_slice()).is_some()
        && Note::Shutdown.last_moment(workers.as_slice()).is_some()
}

/// Whether a host of these workers, by a service that answers at once, answers all clients, which ask in a thread of their own.
fn all_answered<
    R: Net + rt::Clock + Threads + Wait + Copy + Send + Sync + Drop + 'static,
    W: SharedService + Send + Sync + 'static,
>(
    rt: R,
    alloc: Global,
    clients: Clients,
    workers: Workers<R>,
    service: &Arc<W>,
    book: &Arc<Book>,
    seat: BookSeat,
) -> Option<bool>
where
    W::Future: Send,
    W::Stream: Send,
    requires clients { clients.seat.book ≡ arc_value clients.book }
    requires book { seat.book ≡ arc_value book.now }
    requires can_call { W.can_call (arc_value service.now) }
{
    let mut machine = open_machine(&rt, alloc, workers).ok()?;
    let asking = spawn(
        &rt,
        move || -> usize
            requires { clients.seat.book ≡ arc_value clients.book }
        { clients.ask_and_change(&rt) },
    )
    .ok()?;
    let end = served(&rt, alloc, &mut machine, service, book, seat);
    let count = asking.join(&rt);
    Some(count == CLIENTS && end == (HostEnd::Done, 0) && all_heard(&machine.workers))
}

/// The clients of this port, with half of a seat, and the other half.
fn clients_of<R: Net + Wait>(
    rt: &R,
    alloc: Global,
    port: u16,
    book: &Arc<Book>,
    seat: BookSeat,
) -> io::Result<(Clients, BookSeat)>
    requires { seat.book ≡ arc_value book.now }
    ensures { IfOk result (λ r. (r.0.seat.book ≡ arc_value r.0.book) × (r.1.book ≡ arc_value book.now)) }
{
    let socks = open_clients(rt, alloc)?;
    let theirs = Arc::try_clone(book)?;
    let (first, second) = book.split(rt, seat);
    let clients = Clients {
        socks,
        port,
        book: theirs,
        seat: second,
    };
    Ok((clients, first))
}

/// Whether two workers answer all clients, and hear of what changes, if they could be made.
fn holds<R: Net + rt::Clock + Threads + Wait + Copy + Send + Sync + Drop + 'static>(
    rt: R,
    alloc: Global,
) -> Option<bool> {
    let (workers, port) = open_workers(rt, alloc, 2).ok()?;
    let service = Holding::new(alloc, true, OptRcode::NOERROR).ok()?;
    let service = Arc::new(alloc, WithoutMeta { service }).ok()?;
    let (book, seat) = book_of(alloc, 10).ok()?;
    let (clients, seat) = clients_of(&rt, alloc, port, &book, seat).ok()?;
    all_answered(rt, alloc, clients, workers, &service, &book, seat)
}

/// Two workers at one port answer all clients, each some of them, and both hear of new settings and of the shutdown.
#[test]
fn workers_share_a_port(rt: HostRuntime) -> Result<(), &'static str> {
    if holds(rt, rt.alloc()) != Some(true) {
        return Err("workers_share_a_port");
    }
    Ok(())
}
