//! The messages of a transfer that was asked under a key.

ghost use Rattle.std.specs.Prelude.{◌≡◌, IfErr, IfOk, OnOk};
ghost use Rattle.std.specs.Arc.{arc_value};
ghost use Rattle.dns_hmac.specs.Digests.{size_of};
ghost use Rattle.dns_hmac.specs.Macs.{octets_of};
ghost use Rattle.dns_tsig.specs.Streaming.{Follows, GoesOn};
ghost use Rattle.dns_tsig.specs.Streams.{Chain, chain_behind, is_whole, taken};
ghost use Rattle.dns_peer_keys.specs.Exchanges.{tsig_time};
ghost use Rattle.dns_peer_keys.specs.TransferChains.{IsRefusedAs};

use crate::error::SignedReplyError;
use crate::reply::fault_of;
use crate::request::tsig_time;
use dns_message::Message;
use dns_name::OutOfMemory;
use dns_tsig::{IncomingStream, Key, Mac};
use std::marker::Model;
use std::sync::Arc;

/// The messages of a transfer as they come, after the MAC of its request (RFC 8945, section 5.3.1). Each signed one has the whole MAC.
#[derive(Drop)]
pub struct TransferReplies {
    key: Arc<Key>,
    stream: IncomingStream,
}

impl Model for TransferReplies {
    ghost use Rattle.std.specs.Arc.{arc_value};
    ghost use Rattle.dns_peer_keys.specs.TransferChains.{TransferParts};

    ghost Value = { TransferParts };

    ghost view = { λ r. record { key = arc_value r.key; stream = r.stream } };
}

impl TransferReplies {
    /// Before the first message.
    pub fn new(key: &Arc<Key>, mac: &Mac) -> Result<TransferReplies, OutOfMemory>
        ensures key { IfOk result (λ r. r.key ≡ arc_value key.now) }
        ensures chain { IfOk result (λ r. Follows (arc_value key.now) (chain_behind (octets_of mac.now)) r.stream) }
    {
        let stream = IncomingStream::new(key, mac.as_slice());
        let key = Arc::try_clone(key)?;
        Ok(TransferReplies { key, stream })
    }

    /// Takes the next message, at a time in seconds since 1970. After a refusal nothing more is taken.
    pub fn take(&mut self, secs: u64, message: &Message) -> Result<(), SignedReplyError>
        ensures key { self.new.key ≡ self.old.key }
        ensures ok { let k = self.old.key in OnOk result
            ((c : Chain) → Follows k c self.old.stream
            → GoesOn k (taken k (size_of k.algorithm) (tsig_time secs) c message.now) self.new.stream) }
        ensures fault { let k = self.old.key in IfErr result
            (λ f. (c : Chain) → Follows k c self.old.stream
            → IsRefusedAs (taken k (size_of k.algorithm) (tsig_time secs) c message.now) message.now f) }
    {
        let whole = self.key.algorithm().digest_len();
        let now = tsig_time(secs);
        match self.stream.take(&self.key, whole, now, message.as_slice()) {
            Ok(()) => Ok(()),
            Err(error) => Err(fault_of(message, error)),
        }
    }

    /// Whether the transfer may end here: its last message was signed.
    pub fn is_whole(&self) -> bool
        ensures { (c : Chain) → Follows self.now.key c self.now.stream → result ≡ is_whole c }
    {
        self.stream.is_whole()
    }
}
