//! Memory that is used again.

ghost use Rattle.std.specs.Prelude.{◌≡◌, IfOk};

use crate::running::KeptExchange;
use dns_base::Message;
use dns_io::Packet;
use dns_service::{Octets, OutOfMemory, SharedService};
use std::alloc::Global;
use std::mem::replace;
use std::sync::Arc;

/// The memory of a datagram that was sent, for the next one that comes. Beside it a message whose exchange ended, in whose place the
/// next message stands.
#[derive(Drop)]
pub(crate) struct Spare {
    octets: Vec<u8>,
    pub(crate) message: Option<Arc<Message>>,
}

impl Spare {
    /// None.
    pub(crate) fn new(alloc: Global) -> Spare {
        Spare {
            octets: Vec::new(alloc),
            message: None,
        }
    }

    /// A copy of a slice, in the memory of a datagram that was sent if that has room.
    #[inline(always)]
    pub(crate) fn copied(&mut self, alloc: Global, octets: &[u8]) -> Result<Octets, OutOfMemory>
        ensures { IfOk result (λ copy. copy ≡ octets.now) }
    {
        let mut copy = replace(&mut self.octets, Vec::new(alloc));
        copy.clear();
        copy.extend_from_slice(octets)?;
        Ok(Octets::from_vec(copy))
    }

    /// Keeps the memory of a datagram, if there is one.
    pub(crate) fn keep_packet(&mut self, packet: Option<Packet>) {
        if let Some(packet) = packet {
            self.octets = packet.octets.into_vec();
        }
    }

    /// Keeps the message of an exchange that ended, if there is one.
    pub(crate) fn keep_message<W: SharedService>(&mut self, ended: Option<KeptExchange<W>>) {
        if let Some(ended) = ended {
            self.message = Some(ended.request.into_message());
        }
    }
}
