//! Replies to requests that were signed.

ghost use Rattle.std.specs.Prelude.{◌≡◌, IfErr, IfOk, Ok};
ghost use Rattle.dns_hmac.specs.Macs.{octets_of};
ghost use Rattle.dns_tsig.specs.Found.{found};
ghost use Rattle.dns_peer_keys.specs.Exchanges.{HasSignedReplyError, by_error, reply_of, said_of, verified};

use crate::error::SignedReplyError;
use crate::request::tsig_time;
use dns_message::Message;
use dns_name::OutOfMemory;
use dns_tsig::{Key, Mac, Signed, TsigError, find};
use std::alloc::Global;

/// The message that a reply to a signed request is without its TSIG, at a time in seconds since 1970. `mac` is that of the request.
pub fn verified_reply(
    alloc: Global,
    key: &Key,
    mac: &Mac,
    secs: u64,
    reply: &Message,
) -> Result<Message, SignedReplyError>
    ensures ok { IfOk result (λ m. reply_of key.now (octets_of mac.now) secs (found reply.now) ≡ Ok m) }
    ensures fault { IfErr result (HasSignedReplyError (reply_of key.now (octets_of mac.now) secs (found reply.now))) }
{
    match find(reply.as_slice()) {
        Ok(given) => given_reply(alloc, key, mac, secs, given),
        Err(error) => Err(SignedReplyError::NotVerified(error)),
    }
}

/// The message that a reply is without its TSIG, if it has one.
fn given_reply(
    alloc: Global,
    key: &Key,
    mac: &Mac,
    secs: u64,
    given: Option<Signed<'_>>,
) -> Result<Message, SignedReplyError>
    ensures ok { IfOk result (λ m. reply_of key.now (octets_of mac.now) secs (Ok given.entry) ≡ Ok m) }
    ensures fault { IfErr result (HasSignedReplyError (reply_of key.now (octets_of mac.now) secs (Ok given.entry))) }
{
    match given {
        Some(signed) => verified(alloc, key, mac, secs, &signed),
        None => Err(SignedReplyError::Unsigned),
    }
}

/// The message without a TSIG that verifies and says no error.
fn verified(
    alloc: Global,
    key: &Key,
    mac: &Mac,
    secs: u64,
    signed: &Signed<'_>,
) -> Result<Message, SignedReplyError>
    ensures ok { IfOk result (λ m. verified key.now (octets_of mac.now) secs signed.now ≡ Ok m) }
    ensures fault { IfErr result (HasSignedReplyError (verified key.now (octets_of mac.now) secs signed.now)) }
{
    let error = signed.tsig().error();
    if error != 0 {
        return Err(SignedReplyError::Refused(error));
    }
    let whole = key.algorithm().digest_len();
    match signed.verify(key, whole, tsig_time(secs), mac.as_slice()) {
        Ok(()) => Ok(bare(alloc, signed)?),
        Err(error) => Err(SignedReplyError::NotVerified(error)),
    }
}

/// A message without its TSIG.
fn bare(alloc: Global, signed: &Signed<'_>) -> Result<Message, OutOfMemory>
    ensures { IfOk result (λ m. m ≡ signed.now.bare) }
{
    let mut octets = Vec::new(alloc);
    signed.take_off(&mut octets)?;
    Ok(Message::from_octets(octets).unwrap())
}

/// Why a message of a transfer isn't taken that was refused with this error: what its TSIG says, if that says an error.
pub(crate) fn fault_of(message: &Message, error: TsigError) -> SignedReplyError
    ensures { result ≡ said_of error (found message.now) }
{
    match find(message.as_slice()) {
        Ok(given) => said_by(error, given),
        Err(error) => SignedReplyError::NotVerified(error),
    }
}

/// What a message says that has a TSIG or none.
fn said_by(error: TsigError, given: Option<Signed<'_>>) -> SignedReplyError
    ensures { result ≡ said_of error (Ok given.entry) }
{
    match given {
        Some(signed) => by_error(error, &signed),
        None => SignedReplyError::Unsigned,
    }
}

/// What a TSIG says, if it says an error, and else this one.
fn by_error(error: TsigError, signed: &Signed<'_>) -> SignedReplyError
    ensures { result ≡ by_error error signed.now }
{
    let said = signed.tsig().error();
    if said != 0 {
        return SignedReplyError::Refused(said);
    }
    SignedReplyError::NotVerified(error)
}
