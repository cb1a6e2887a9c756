//! Streams of messages of which each is signed after the one before.

ghost use Rattle.std.specs.Prelude.{◌≡◌, ◌<◌, ◌≤◌, ◌^◌, length};
ghost use Rattle.dns_tsig.specs.Streams.{Chain, chain_behind, is_whole, signed_taken, taken, unsigned_taken};
ghost use Rattle.dns_tsig.specs.Keys.{KeyParts};
ghost use Rattle.dns_tsig.specs.Streaming.{Follows, Takes};

use crate::digest::{feed_signed, feed_timers};
use crate::error::TsigError;
use crate::found::{Signed, find};
use crate::key::Key;
use crate::verify::{feed_variables, judge};
use dns_hmac::Hmac;
use std::mem;

/// The messages of a stream as they come, as the replies of a transfer (RFC 8945, section 5.3.1). Of a message nothing is
/// kept but the state of a digest. After a refusal the stream has ended.
#[derive(Drop)]
pub struct IncomingStream {
    code: Hmac,
    unsigned: u8,
    begun: bool,
}

impl IncomingStream {
    /// A stream before its first message, after the MAC of the request.
    pub fn new(key: &Key, request_mac: &[u8]) -> IncomingStream
        requires { length request_mac.now < 2 ^ 16 }
        ensures { Follows key.now (chain_behind request_mac.now) result }
    {
        IncomingStream {
            code: key.begin(request_mac),
            unsigned: 0,
            begun: false,
        }
    }

    /// Takes the next message at a time in seconds. The first message has to be signed, and so has one of each 100 in a
    /// row.
    pub fn take(
        &mut self,
        key: &Key,
        least: usize,
        now: u64,
        message: &[u8],
    ) -> Result<(), TsigError>
        requires header { 12 ≤ length message.now }
        requires time { now < 2 ^ 48 }
        ensures { (c : Chain) → Follows key.now c self.old → Takes key.now (taken key.now least now c message.now) self.new result }
    {
        match find(message)? {
            Some(signed) => self.take_signed(key, least, now, &signed),
            None => self.take_unsigned(message),
        }
    }

    /// Whether the stream may end here: its last message was signed.
    pub fn is_whole(&self) -> bool
        ensures { (k : KeyParts) (c : Chain) → Follows k c self.now → result ≡ is_whole c }
    {
        self.begun && self.unsigned == 0
    }

    /// Takes a message without a TSIG.
    fn take_unsigned(&mut self, message: &[u8]) -> Result<(), TsigError>
        ensures { (k : KeyParts) (c : Chain) → Follows k c self.old → Takes k (unsigned_taken c message.now) self.new result }
    {
        if !self.begun || self.unsigned >= 99 {
            return Err(TsigError::BadSig);
        }
        self.code.update(message);
        self.unsigned += 1;
        Ok(())
    }

    /// Takes a message with a TSIG.
    fn take_signed(
        &mut self,
        key: &Key,
        least: usize,
        now: u64,
        signed: &Signed<'_>,
    ) -> Result<(), TsigError>
        requires { now < 2 ^ 48 }
        ensures { (c : Chain) → Follows key.now c self.old → Takes key.now (signed_taken key.now least now c signed.now) self.new result }
    {
        let tsig = signed.tsig();
        if !key.is_named(tsig) {
            return Err(TsigError::BadKey);
        }
        let mut code = mem::replace(&mut self.code, key.begin(tsig.mac()));
        feed_signed(&mut code, signed);
        if self.begun {
            feed_timers(&mut code, tsig.time(), tsig.fudge());
        } else {
            feed_variables(&mut code, key, tsig);
        }
        self.begun = true;
        self.unsigned = 0;
        judge(key, least, now, code, tsig)
    }
}
