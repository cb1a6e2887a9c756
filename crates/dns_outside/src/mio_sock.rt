//! A UDP socket over `mio`.

ghost use Rattle.std.specs.Prelude.{◌≡◌, [], IfOk, Some, None};

use crate::mio_addr::{from_std, to_std, within_v6};
use crate::shared_udp::bind_shared;
use crate::spin_policy::SpinPolicy;
use crate::waiting::{is_again, is_read_again, wait_for_room, wait_to_read};
use dns_io::{AsyncDgramSock, DgramRecv, DgramSend};
use dns_name::{IpAddr, SocketAddr};
use mio::net::UdpSocket;
use std::net::Net;
use std::sync::Wait;
use std::{io, net};

/// How often the socket is asked whether a datagram is there before the system waits for one: some 20 microseconds.
const ASKS: usize = 64;

/// A UDP socket, which tells nothing and counts its failed calls. A call that was interrupted, and a receive that took too long,
/// answer Again; a send of less than the datagram is a failed call.
/// A wait is for a datagram, except for the first one after a send that answered Again, which is for room alone. While datagrams
/// follow each other closely, a socket alone at its address is asked for the next one a few times before the system waits.
/// For a socket that shares its address the system waits at once.
#[derive(Drop)]
pub struct MioSock {
    socket: UdpSocket,
    // Whether the socket is of IPv6, which has an IPv4 address within one of IPv6.
    is_v6: bool,
    // When the socket is asked before the system waits; none if it never is.
    spin_policy: Option<SpinPolicy>,
    // Whether a send answered Again since the last wait.
    full: bool,
    failed_receives: u64,
    failed_sends: u64,
}

// Whether there is something to receive, or becomes so while it is asked for.
fn comes_soon(socket: &UdpSocket) -> bool {
    let mut octet = [0];
    for _ in 0..ASKS {
        match socket.peek_from(&mut octet) {
            Err(error) if is_read_again(&error) => {}
            _ => return true,
        }
    }
    false
}

impl MioSock {
    /// A socket at this address; at port 0 the system picks the port. A socket at the unspecified address of IPv6 takes
    /// datagrams over IPv4 too.
    pub fn bind<N: Net>(net: &N, addr: SocketAddr) -> io::Result<MioSock>
        ensures receives { IfOk result (λ sock. ⟦<MioSock as AsyncDgramSock>⟧.failed_receives sock ≡ 0) }
        ensures sends { IfOk result (λ sock. ⟦<MioSock as AsyncDgramSock>⟧.failed_sends sock ≡ 0) }
    {
        let asked = Some(SpinPolicy::new());
        Ok(MioSock::over(UdpSocket::bind(net, to_std(addr))?, addr, asked))
    }

    /// A socket at this address that other sockets made by this call may share: the system gives each datagram to one of them,
    /// picked by the addresses and ports that it comes from and goes to. One of IPv6 takes no datagram over IPv4. It is never
    /// asked before the system waits.
    pub fn bind_shared<N: Net>(_net: &N, addr: SocketAddr) -> io::Result<MioSock>
        ensures receives { IfOk result (λ sock. ⟦<MioSock as AsyncDgramSock>⟧.failed_receives sock ≡ 0) }
        ensures sends { IfOk result (λ sock. ⟦<MioSock as AsyncDgramSock>⟧.failed_sends sock ≡ 0) }
        ensures asked { IfOk result (λ sock. sock.spin_policy ≡ None) }
    {
        Ok(MioSock::over(UdpSocket::from(bind_shared(to_std(addr))?), addr, None))
    }

    // A socket that was made for this address, and is asked before a wait by that policy.
    fn over(socket: UdpSocket, addr: SocketAddr, spin_policy: Option<SpinPolicy>) -> MioSock
        ensures receives { result.failed_receives ≡ 0 }
        ensures sends { result.failed_sends ≡ 0 }
        ensures asked { result.spin_policy ≡ spin_policy }
    {
        MioSock {
            socket,
            is_v6: matches!(addr.ip, IpAddr::V6(_)),
            spin_policy,
            full: false,
            failed_receives: 0,
            failed_sends: 0,
        }
    }

    /// The socket's own address, as `mio` has it. No clause of `mio` says which one that is, so none stands here.
    pub fn local_addr(&self) -> io::Result<SocketAddr> {
        Ok(from_std(self.socket.local_addr()?))
    }

    // An address as this socket sends to it.
    fn destination(&self, to: SocketAddr) -> net::SocketAddr {
        if self.is_v6 {
            within_v6(to)
        } else {
            to_std(to)
        }
    }

    // Waits for a datagram.
    fn wait_for_datagram<R: Wait>(&mut self, rt: &R, millis: u64)
        ensures receives { self.new.failed_receives ≡ self.old.failed_receives }
        ensures sends { self.new.failed_sends ≡ self.old.failed_sends }
        ensures asked { self.old.spin_policy ≡ None → self.new.spin_policy ≡ None }
    {
        if let Some(policy) = &mut self.spin_policy {
            if policy.is_worthwhile() {
                let is_there = comes_soon(&self.socket);
                policy.learn(is_there);
                if is_there {
                    return;
                }
            }
        }
        wait_to_read(rt, &self.socket, millis);
    }
}

impl AsyncDgramSock for MioSock {
    ghost tells = { λ _. ⊥ };

    ghost sock_traffic = { λ _. record { received = []; sent = []; empty_receives = 0; full_sends = 0 } };

    ghost failed_receives = { λ s. s.failed_receives };

    ghost failed_sends = { λ s. s.failed_sends };

    fn poll_send_to(&mut self, data: &[u8], to: SocketAddr) -> DgramSend {
        match self.socket.send_to(data, self.destination(to)) {
            Ok(count) if count == data.len() => DgramSend::Took(count),
            Err(error) if is_again(&error) => {
                self.full = true;
                DgramSend::Again
            }
            _ => {
                self.failed_sends = self.failed_sends.saturating_add(1);
                DgramSend::Failed
            }
        }
    }

    fn readable<R: Wait>(&mut self, rt: &R, millis: u64) {
        if !self.full {
            self.wait_for_datagram(rt, millis);
            return;
        }
        self.full = false;
        wait_for_room(rt, &self.socket, millis);
    }

    fn try_recv_buf_from(&mut self, buf: &mut [u8]) -> DgramRecv {
        match self.socket.recv_from(buf) {
            Ok((count, from)) => DgramRecv::Got(count, from_std(from)),
            Err(error) if is_read_again(&error) => DgramRecv::Again,
            Err(_) => {
                self.failed_receives = self.failed_receives.saturating_add(1);
                DgramRecv::Failed
            }
        }
    }
}
