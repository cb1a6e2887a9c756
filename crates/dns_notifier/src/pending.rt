//! A NOTIFY that wasn't answered yet.

ghost use Rattle.std.specs.Prelude.{◌≤◌, length};

use crate::signing::Signing;
use anyhow::bail;
use dns_forward::{Asking, Ticked};
use dns_name::{Name, OutOfMemory, SocketAddr};
use dns_peer_keys::{Key, SignedReplyError};
use dns_secondary::zone_notify;
use dns_socket_addr::{SocketAddrText, to_std, unspecified_like};
use log::{Log, error};
use std::alloc::Global;
use std::net::{Net, UdpSocket};
use std::random::RandomSource;
use std::sync::Arc;

/// How often a NOTIFY is sent, and how long an answer is waited for each time: sooner and no more often than RFC 1996, section 3.6,
/// has as defaults.
const TRIES: u8 = 5;

const WAIT_MILLIS: u64 = 15_000;

/// How many octets of an answer are looked at.
const ANSWER_SIZE: usize = 1_232;

/// A NOTIFY that wasn't answered yet.
#[derive(Drop)]
pub(crate) struct PendingNotify {
    pub(crate) apex: Name,
    pub(crate) to: SocketAddr,
    /// None if none could be opened yet.
    socket: Option<UdpSocket>,
    asking: Asking,
    /// If a key is shared with the address.
    signing: Option<Signing>,
}

/// A moment by two clocks: milliseconds since any moment, and seconds since 1970.
#[derive(Clone, Copy)]
pub(crate) struct Moment {
    pub(crate) millis: u64,
    pub(crate) secs: u64,
}

/// How far a NOTIFY is.
#[derive(Clone, Copy)]
pub(crate) enum NotifyState {
    /// An answer is waited for.
    Waiting,
    /// It was answered, with this response code.
    Answered(u8),
    /// An answer came that isn't taken. Another one is waited for.
    NotTaken(SignedReplyError),
    /// It was given up.
    GaveUp,
}

/// A socket from which messages go to an address.
fn socket_for<R: Net>(net: &R, to: SocketAddr) -> anyhow::Result<UdpSocket> {
    let socket = UdpSocket::bind(net, to_std(unspecified_like(to)))?;
    socket.connect(to_std(to))?;
    socket.set_nonblocking(true)?;
    Ok(socket)
}

/// How many octets came at a socket, if there is one and some came.
fn received(socket: &Option<UdpSocket>, buffer: &mut [u8]) -> usize
    ensures { result ≤ length buffer.old }
{
    match socket {
        Some(socket) => match socket.recv(buffer) {
            Ok(count) => count,
            Err(_) => 0,
        },
        None => 0,
    }
}

/// An identifier that is hard to guess.
fn identifier<R: RandomSource>(random: &R) -> anyhow::Result<u16> {
    let mut octets = [0u8; 2];
    random.fill_bytes(&mut octets)?;
    Ok(u16::from_be_bytes(octets))
}

/// What is asked of those who are to know: whether the NOTIFY of a zone came.
fn asking_of(alloc: Global, apex: &Name, id: u16, now: u64) -> anyhow::Result<Asking> {
    match zone_notify(alloc, id, apex) {
        Ok(message) => {
            let message = message.into_message();
            Ok(Asking::new(alloc, message, id, TRIES, WAIT_MILLIS, now)?)
        }
        Err(_) => bail!("out of memory"),
    }
}

/// What is signed under a key, if there is one.
fn signing_under(key: Option<Arc<Key>>) -> Option<Signing> {
    match key {
        Some(key) => Some(Signing::new(key)),
        None => None,
    }
}

impl PendingNotify {
    /// Sends an address the NOTIFY of a zone, under a key if one is shared with it.
    pub(crate) fn begin<R: Net + RandomSource + Log>(
        rt: &R,
        alloc: Global,
        apex: Name,
        to: SocketAddr,
        key: Option<Arc<Key>>,
        now: Moment,
    ) -> anyhow::Result<PendingNotify> {
        let id = identifier(rt)?;
        let asking = asking_of(alloc, &apex, id, now.millis)?;
        let mut notify = PendingNotify {
            apex,
            to,
            socket: None,
            asking,
            signing: signing_under(key),
        };
        notify.send(rt, alloc, now.secs)?;
        Ok(notify)
    }

    /// Opens its socket, if that isn't open. What keeps it from that is logged.
    fn open_socket<R: Net + Log>(&mut self, rt: &R) {
        if self.socket.is_some() {
            return;
        }
        match socket_for(rt, self.to) {
            Ok(socket) => self.socket = Some(socket),
            Err(fault) => {
                error!(rt; "{}: NOTIFY to {}: {fault:#}", self.apex, SocketAddrText(self.to))
            }
        }
    }

    /// The octets that are sent, signed if there is a key.
    fn octets(&mut self, alloc: Global, secs: u64) -> Result<Option<Vec<u8>>, OutOfMemory> {
        match &mut self.signing {
            Some(signing) => signing.sign(alloc, secs, self.asking.octets()),
            None => Ok(Some(Vec::from_slice(alloc, self.asking.octets())?)),
        }
    }

    /// Sends it. One that can't be sent is as one that was lost.
    fn send<R: Net + Log>(&mut self, rt: &R, alloc: Global, secs: u64) -> Result<(), OutOfMemory> {
        self.open_socket(rt);
        let octets = self.octets(alloc, secs)?;
        if let (Some(socket), Some(octets)) = (&self.socket, &octets) {
            let _ = socket.send(octets.as_slice());
        }
        Ok(())
    }

    /// The octets of an answer as it is taken: if there is a key, those of one that verifies, without its TSIG.
    fn taken(
        &mut self,
        alloc: Global,
        secs: u64,
        octets: &[u8],
    ) -> Result<Option<Vec<u8>>, OutOfMemory> {
        match &mut self.signing {
            Some(signing) => signing.verified(alloc, secs, octets),
            None => Ok(Some(Vec::from_slice(alloc, octets)?)),
        }
    }

    /// The response code of octets that are its answer.
    fn code_of(
        &mut self,
        alloc: Global,
        now: Moment,
        octets: &[u8],
    ) -> Result<Option<u8>, OutOfMemory> {
        let Some(octets) = self.taken(alloc, now.secs, octets)? else {
            return Ok(None);
        };
        match self.asking.arrived(alloc, now.millis, octets.as_slice())? {
            Some(answer) => Ok(Some(answer.header().rcode.to_int())),
            None => Ok(None),
        }
    }

    /// Looks whether it was answered.
    fn hear(&mut self, alloc: Global, now: Moment) -> Result<Option<u8>, OutOfMemory> {
        let mut buffer = [0u8; ANSWER_SIZE];
        let count = received(&self.socket, &mut buffer);
        self.code_of(alloc, now, &buffer[..count])
    }

    /// Why an answer that came wasn't taken, if one came since this was asked last.
    fn take_fault(&mut self) -> Option<SignedReplyError> {
        match &mut self.signing {
            Some(signing) => signing.take_fault(),
            None => None,
        }
    }

    /// Looks whether it was answered, and sends it again if that is due.
    pub(crate) fn look<R: Net + Log>(
        &mut self,
        rt: &R,
        alloc: Global,
        now: Moment,
    ) -> Result<NotifyState, OutOfMemory> {
        if let Some(code) = self.hear(alloc, now)? {
            return Ok(NotifyState::Answered(code));
        }
        if let Some(fault) = self.take_fault() {
            return Ok(NotifyState::NotTaken(fault));
        }
        match self.asking.tick(now.millis) {
            Ticked::Nothing => Ok(NotifyState::Waiting),
            Ticked::Send => {
                self.send(rt, alloc, now.secs)?;
                Ok(NotifyState::Waiting)
            }
            Ticked::GaveUp => Ok(NotifyState::GaveUp),
        }
    }
}
