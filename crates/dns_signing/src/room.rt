//! How many octets replies and TSIGs have.

ghost use Rattle.std.specs.Prelude.{◌≡◌, ◌≤◌, ℕ, IfOk, length};
ghost use Rattle.dns_name.specs.Labels.{spell};
ghost use Rattle.dns_tsig.specs.Keys.{algorithm_name};
ghost use Rattle.dns_tsig.specs.Refusals.{other_octets};
ghost use Rattle.dns_tsig.specs.Tsig.{six};
ghost use Rattle.dns_signing.specs.Room.{own_size, room_of, size_with, tsig_size, unsigned_size};

use dns_service::{OutOfMemory, Request, limit_over, read_asked, reply_limit};
use dns_tsig::{Algorithm, Key, TsigError, TsigRef};
use std::alloc::Global;

/// The octets that a reply may have before its TSIG.
pub(crate) fn room_of(key: &Key, limit: Option<u16>) -> u16
    ensures { result ≡ room_of key.now limit }
{
    limit.unwrap_or(65535).saturating_sub(tsig_size(key))
}

/// The octets of a TSIG of a key, without other data.
pub(crate) fn tsig_size(key: &Key) -> u16
    ensures value { result ≡ tsig_size key.now }
    ensures most { result ≤ 400 }
{
    let names = key.name().compose_len() + algorithm_len(key.algorithm());
    names + key.algorithm().digest_len() as u16 + 26
}

/// The octets of an algorithm's name.
fn algorithm_len(algorithm: Algorithm) -> u16
    ensures { result ≡ length (spell (algorithm_name algorithm)) }
{
    match algorithm {
        Algorithm::Sha1 => 11,
        Algorithm::Sha256 => 13,
        Algorithm::Sha384 => 13,
        Algorithm::Sha512 => 13,
    }
}

/// The octets of a TSIG with the names of a request's, and no MAC.
pub(crate) fn unsigned_size(alloc: Global, tsig: &TsigRef<'_>) -> Result<u16, OutOfMemory>
    ensures { IfOk result (λ n. n ≡ unsigned_size tsig.now) }
{
    let key = tsig.key().to_name(alloc)?;
    Ok(key.compose_len() + tsig.algorithm().compose_len() + 26)
}

/// The octets of the signed TSIG in a reply that refuses a request.
pub(crate) fn refusal_size(key: &Key, error: TsigError) -> u16
    ensures { (now : ℕ) → result ≡ size_with key.now (other_octets error (six now)) }
{
    match error {
        TsigError::BadTime => tsig_size(key) + 6,
        _ => tsig_size(key),
    }
}

/// How many octets a reply of the layer itself may have.
pub(crate) fn own_size(request: &Request<()>) -> u16
    ensures { result ≡ own_size request.now }
{
    let transport = request.transport_ctx();
    let client = read_asked(request.message()).opt.client_size();
    match limit_over(transport, transport.hint()) {
        Some(limit) => limit.min(reply_limit(client)),
        None => 65535,
    }
}
