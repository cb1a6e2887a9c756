//! A link or a socket that keeps which calls were made of it.

ghost use Rattle.std.specs.Prelude.{◌≡◌, ◌≤◌};
ghost use Rattle.dns_memory.specs.Causes.{Observed};

use dns_memory::{AsyncDgramSock, DgramRecv, DgramSend, Link, LinkRead, LinkWrite};
use dns_name::SocketAddr;
use std::alloc::Global;
use std::sync::Wait;

/// A link or a socket for datagrams, and a letter for each call: `r` for a read or a receive, `w` for a write or a send, `R` and
/// `W` if these answered Again. `z` for a wait, `y` for one of a millisecond, `0` for one of no time, and `c` for a close.
#[derive(Drop)]
pub struct Watched<T> {
    inner: T,
    calls: Vec<u8>,
}

/// The letter of a wait of that many milliseconds.
fn wait_letter(millis: u64) -> u8 {
    match millis {
        0 => b'0',
        1 => b'y',
        _ => b'z',
    }
}

impl<T> Watched<T> {
    /// No call was made so far.
    pub fn new(alloc: Global, inner: T) -> Watched<T> {
        Watched {
            inner,
            calls: Vec::new(alloc),
        }
    }

    /// The link or the socket.
    pub fn inner(&self) -> &T {
        &self.inner
    }

    /// The letters of the calls.
    pub fn calls(&self) -> &[u8] {
        self.calls.as_slice()
    }

    fn keep(&mut self, letter: u8)
        ensures { self.new.inner ≡ self.old.inner }
    {
        let _ = self.calls.push(letter);
    }
}

impl<L: Link> Link for Watched<L> {
    ghost tells = { λ w. L.tells w.inner };

    ghost traffic = { λ w. L.traffic w.inner };

    ghost faults = { λ w. L.faults w.inner };

    fn read(&mut self, buf: &mut [u8]) -> LinkRead {
        let answer = self.inner.read(buf);
        self.keep(if answer == LinkRead::Again {
            b'R'
        } else {
            b'r'
        });
        answer
    }

    fn write(&mut self, piece: &[u8]) -> LinkWrite {
        let answer = self.inner.write(piece);
        self.keep(if answer == LinkWrite::Again {
            b'W'
        } else {
            b'w'
        });
        answer
    }

    fn wait<R: Wait>(&mut self, rt: &R, millis: u64) {
        self.inner.wait(rt, millis);
        self.keep(wait_letter(millis));
    }

    fn close(&mut self) {
        self.inner.close();
        self.keep(b'c');
    }
}

impl<D: AsyncDgramSock> AsyncDgramSock for Watched<D> {
    ghost tells = { λ w. D.tells w.inner };

    ghost sock_traffic = { λ w. D.sock_traffic w.inner };

    ghost failed_receives = { λ w. D.failed_receives w.inner };

    ghost failed_sends = { λ w. D.failed_sends w.inner };

    fn poll_send_to(&mut self, octets: &[u8], to: SocketAddr) -> DgramSend {
        let answer = self.inner.poll_send_to(octets, to);
        self.keep(if answer == DgramSend::Again {
            b'W'
        } else {
            b'w'
        });
        answer
    }

    fn readable<R: Wait>(&mut self, rt: &R, millis: u64) {
        self.inner.readable(rt, millis);
        self.keep(wait_letter(millis));
    }

    fn try_recv_buf_from(&mut self, buf: &mut [u8]) -> DgramRecv {
        let answer = self.inner.try_recv_buf_from(buf);
        self.keep(if answer == DgramRecv::Again {
            b'R'
        } else {
            b'r'
        });
        answer
    }
}
