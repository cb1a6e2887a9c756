//! A TCP listener over `mio`.

ghost use Rattle.std.specs.Prelude.{◌≡◌, ◌≤◌, [], IfOk};
ghost use Rattle.dns_io.specs.AcceptTraffic.{AcceptCause};

use crate::accepting::accept_without_waiting;
use crate::mio_addr::{from_std, to_std};
use crate::mio_link::MioLink;
use crate::waiting::{is_again, wait_out, wait_to_read};
use dns_io::{AcceptAnswer, AsyncAccept};
use dns_name::SocketAddr;
use mio::net::{TcpListener, TcpStream};
use std::io;
use std::net::Net;
use std::sync::Wait;

/// A TCP listener, which tells nothing and counts its failed calls. A connection of which no link can be made is closed,
/// and the call fails. A wait is for a connection, except for the first one after a failed call: if no descriptor is left, the
/// connection that can't be accepted is there all the time, and would end each wait at once.
#[derive(Drop)]
pub struct MioAccept {
    listener: TcpListener,
    // Whether a call failed since the last wait.
    failed: bool,
    faults: u64,
}

impl MioAccept {
    /// A listener at this address; at port 0 the system picks the port.
    pub fn bind<N: Net>(net: &N, addr: SocketAddr) -> io::Result<MioAccept>
        ensures { IfOk result (λ accept. ⟦<MioAccept as AsyncAccept>⟧.faults accept ≡ 0) }
    {
        match TcpListener::bind(net, to_std(addr)) {
            Ok(listener) => Ok(MioAccept {
                listener,
                failed: false,
                faults: 0,
            }),
            Err(error) => Err(error),
        }
    }

    /// The listener's own address, as `mio` has it. No clause of `mio` says which one that is, so none stands here.
    pub fn local_addr(&self) -> io::Result<SocketAddr> {
        Ok(from_std(self.listener.local_addr()?))
    }

    /// Counts a failed call.
    fn fail(&mut self) -> AcceptAnswer<MioLink>
        ensures later { self.old.faults ≤ self.new.faults }
        ensures cause { AcceptCause result self.old.faults self.new.faults }
    {
        self.failed = true;
        self.faults = self.faults.saturating_add(1);
        AcceptAnswer::Failed
    }

    /// A connection over a stream, unless no link can be made of it.
    fn linked(&mut self, stream: TcpStream, from: SocketAddr) -> AcceptAnswer<MioLink>
        ensures later { self.old.faults ≤ self.new.faults }
        ensures cause { AcceptCause result self.old.faults self.new.faults }
    {
        match MioLink::new(stream) {
            Ok(link) => AcceptAnswer::Accepted(link, from),
            Err(_) => self.fail(),
        }
    }
}

impl AsyncAccept for MioAccept {
    type Link = MioLink;

    ghost tells = { λ _. ⊥ };

    ghost accept_traffic = { λ _. record { callers = []; empty_accepts = 0 } };

    ghost faults = { λ s. s.faults };

    fn poll_accept(&mut self) -> AcceptAnswer<MioLink> {
        match accept_without_waiting(&self.listener) {
            Ok((stream, from)) => self.linked(stream, from),
            Err(error) if is_again(&error) => AcceptAnswer::Again,
            Err(_) => self.fail(),
        }
    }

    fn wait<R: Wait>(&mut self, rt: &R, millis: u64) {
        if self.failed {
            wait_out(rt, millis);
        } else {
            wait_to_read(rt, &self.listener, millis);
        }
        self.failed = false;
    }
}
