//! NOTIFYs that are signed, and the answers to them (RFC 8945).

ghost use Rattle.std.specs.Prelude.{◌≡◌, IfNone, IfOk, IfSome, Ok, OnErr, option_map};
ghost use Rattle.std.specs.Arc.{arc_value};
ghost use Rattle.dns_notifier.specs.Signings.{IsSigned, IsVerified, under};

use dns_message::Message;
use dns_name::OutOfMemory;
use dns_peer_keys::{Key, Mac, SignedReplyError, SignedRequest, sign_request, verified_reply};
use std::alloc::Global;
use std::marker::Model;
use std::sync::Arc;

/// The key that a NOTIFY is signed under, the MAC that it was sent with last, and why an answer wasn't taken that came since.
#[derive(Drop)]
pub(crate) struct Signing {
    key: Arc<Key>,
    mac: Option<Mac>,
    fault: Option<SignedReplyError>,
}

impl Model for Signing {
    ghost use Rattle.std.specs.Prelude.{option_map};
    ghost use Rattle.std.specs.Arc.{arc_value};
    ghost use Rattle.dns_hmac.specs.Macs.{octets_of};
    ghost use Rattle.dns_notifier.specs.Signings.{SigningParts};

    ghost Value = { SigningParts };

    ghost view = { λ s. record { key = arc_value s.key; mac = option_map octets_of s.mac; fault = s.fault } };
}

impl Signing {
    /// Nothing was sent yet under a key.
    pub(crate) fn new(key: Arc<Key>) -> Signing
        ensures { result ≡ under (arc_value key) }
    {
        Signing {
            key,
            mac: None,
            fault: None,
        }
    }

    /// A message as it is sent at a time in seconds since 1970: it is signed anew each time. None if no TSIG has room.
    pub(crate) fn sign(
        &mut self,
        alloc: Global,
        secs: u64,
        octets: &[u8],
    ) -> Result<Option<Vec<u8>>, OutOfMemory>
        ensures signed { IfOk result (λ o. IfSome o (λ sent. IsSigned self.old.key secs octets.now sent.items self.new)) }
        ensures none { IfOk result (λ o. IfNone o (self.new ≡ self.old)) }
        ensures err { OnErr result (self.new ≡ self.old) }
    {
        let Ok(message) = Message::from_octets(Vec::from_slice(alloc, octets)?) else {
            return Ok(None);
        };
        match sign_request(alloc, &self.key, secs, &message)? {
            Some(SignedRequest { octets, mac }) => {
                self.mac = Some(mac);
                Ok(Some(octets))
            }
            None => Ok(None),
        }
    }

    /// An answer without its TSIG, if it verifies at a time in seconds since 1970. Else the fault is kept.
    pub(crate) fn verified(
        &mut self,
        alloc: Global,
        secs: u64,
        octets: &[u8],
    ) -> Result<Option<Vec<u8>>, OutOfMemory>
        ensures { IfOk result (λ o. IfSome o (λ answer. IsVerified self.old secs octets.now answer.items)) }
    {
        let Some(mac) = &self.mac else {
            return Ok(None);
        };
        let Ok(message) = Message::from_octets(Vec::from_slice(alloc, octets)?) else {
            return Ok(None);
        };
        match verified_reply(alloc, &self.key, mac, secs, &message) {
            Ok(message) => Ok(Some(message.into_octets())),
            Err(fault) => {
                self.fault = Some(fault);
                Ok(None)
            }
        }
    }

    /// Why an answer that came wasn't taken, if one came since this was asked last.
    pub(crate) fn take_fault(&mut self) -> Option<SignedReplyError>
        ensures { result ≡ self.old.fault }
    {
        self.fault.take()
    }
}
