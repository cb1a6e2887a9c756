//! Pages, served in a thread.

use crate::page::{Measured, Pages};
use crate::visits::{Visit, Visits};
use http_server::{Config, Connection};
use mio::net::{TcpListener, TcpStream};
use mio::{Events, Interest, Poll, Token, Waker};
use std::alloc::Global;
use std::hash::RandomState;
use std::io;
use std::io::ErrorKind;
use std::net::{Net, SocketAddr};
use std::random::RandomSource;
use std::rt::Clock;
use std::sync::Wait;
use std::thread::{self, JoinHandle, Threads};
use std::time::{Duration, Instant};

/// The token of what ends the thread, that of the listener, and that of the first connection.
const WAKER: usize = 0;

const LISTENER: usize = 1;

const FIRST: usize = 2;

/// How many events are taken at a time.
const EVENTS: usize = 16;

/// How many connections are accepted in a row.
const ACCEPTS: usize = 64;

/// After how many seconds a connection is closed whatever came.
const SECONDS: u64 = 5;

/// What a thread serves: a listener, whether connections are to be taken again there, its connections, and what is measured.
#[derive(Drop)]
struct Serving<R, M> {
    machine: R,
    alloc: Global,
    poll: Poll,
    listener: TcpListener,
    again: bool,
    visits: Visits,
    since: Instant,
    measured: M,
}

impl<R: Clock + RandomSource, M: Measured> Serving<R, M> {
    /// Hears of a connection, and keeps it at a number.
    fn keep(&mut self, number: usize, stream: TcpStream, now: u64) -> io::Result<()> {
        let mut stream = stream;
        let token = Token(FIRST.saturating_add(number));
        let interests = Interest::READABLE | Interest::WRITABLE;
        self.poll
            .registry()
            .register(&mut stream, token, interests)?;
        let keys = RandomState::new(&self.machine)?;
        let visit = Visit {
            stream,
            connection: Connection::new(self.alloc, keys, Config::default()),
            until: now.saturating_add(SECONDS),
        };
        self.visits.keep(number, visit);
        Ok(())
    }

    /// Takes a connection that came, if there is one. One more than there may be is closed at once, and so is one that can't be
    /// registered.
    fn accept_one(&mut self, now: u64) -> io::Result<()> {
        let (stream, _) = self.listener.accept()?;
        if let Some(number) = self.visits.free_number() {
            let _ = self.keep(number, stream, now);
        }
        Ok(())
    }

    /// Takes the connections that came. The system may have no descriptor or memory for one, or more came than are taken in a row.
    /// Then they are taken again after the next wait.
    fn accept(&mut self, now: u64) {
        self.again = true;
        for _ in 0..ACCEPTS {
            if let Err(error) = self.accept_one(now) {
                self.again = !matches!(error.kind(), ErrorKind::WouldBlock);
                break;
            }
        }
    }

    /// Goes on with the connection of a number.
    fn go_on(&mut self, number: usize) {
        let mut pages = Pages {
            alloc: self.alloc,
            measured: &self.measured,
        };
        self.visits.go_on(number, &mut pages);
    }

    /// How long nothing is due.
    fn wait(&self) -> Option<Duration> {
        if self.visits.is_empty() && !self.again {
            return None;
        }
        Some(Duration::from_secs(1))
    }

    /// Waits for what comes next, and takes it. Whether the thread is to go on is given.
    fn turn(&mut self, events: &mut Events) -> io::Result<bool> {
        let wait = self.wait();
        self.poll.poll(events, wait)?;
        let now = self.since.elapsed(&self.machine)?.as_secs();
        for event in events.iter() {
            match event.token().0 {
                WAKER => return Ok(false),
                LISTENER => self.accept(now),
                number => self.go_on(number.saturating_sub(FIRST)),
            }
        }
        if self.again {
            self.accept(now);
        }
        self.visits.close_late(now);
        Ok(true)
    }
}

impl<R: Clock + RandomSource + Wait + Copy, M: Measured + Drop> Serving<R, M> {
    /// Serves until it is to end, or the machine fails.
    fn serve(self) -> io::Result<()> {
        let mut serving = self;
        let machine = serving.machine;
        let mut events = Events::with_capacity(serving.alloc, EVENTS)?;
        for _ in machine.forever() {
            if !serving.turn(&mut events)? {
                break;
            }
        }
        Ok(())
    }
}

/// A listener at which `/metrics` is served, and the thread that does so.
#[derive(Drop)]
pub struct Endpoint {
    address: SocketAddr,
    waker: Waker,
    thread: JoinHandle<io::Result<()>>,
}

impl Endpoint {
    /// Listens at an address, and starts a thread that serves what is measured there.
    pub fn start<
        R: Net + Clock + RandomSource + Threads + Wait + Copy + Send + Sync + 'static,
        M: Measured + Send + Drop + 'static,
    >(machine: R, alloc: Global, address: SocketAddr, measured: M) -> io::Result<Endpoint> {
        let poll = Poll::new(&machine)?;
        let waker = Waker::new(poll.registry(), Token(WAKER))?;
        let mut listener = TcpListener::bind(&machine, address)?;
        let token = Token(LISTENER);
        poll.registry()
            .register(&mut listener, token, Interest::READABLE)?;
        let address = listener.local_addr()?;
        let serving = Serving {
            machine,
            alloc,
            poll,
            listener,
            again: false,
            visits: Visits::new(alloc)?,
            since: Instant::now(&machine)?,
            measured,
        };
        let thread = thread::spawn(&machine, move || serving.serve())?;
        Ok(Endpoint {
            address,
            waker,
            thread,
        })
    }

    /// Where it listens: the port is the one that the system picked, if none was said.
    pub fn address(&self) -> SocketAddr {
        self.address
    }

    /// Ends the thread, which is waited for, and closes all its sockets. Fails if the thread can't be told, or had failed before.
    pub fn shutdown<T: Threads>(self, rt: &T) -> io::Result<()> {
        let Endpoint { waker, thread, .. } = self;
        waker.wake()?;
        thread.join(rt)
    }
}
