//! Keys that are shared by two sides.

ghost use Rattle.std.specs.Prelude.{◌≡◌, ◌<◌, ◌≤◌, ◌^◌, length, IfOk};
ghost use Rattle.dns_hmac.specs.Keyed.{Keyed};
ghost use Rattle.dns_name.specs.Labels.{spell};
ghost use Rattle.dns_name.specs.Canonical.{same_name};
ghost use Rattle.dns_tsig.specs.Digested.{canonical, names, prior_octets};
ghost use Rattle.dns_tsig.specs.Keys.{algorithm_name, is_named};
ghost use Rattle.dns_tsig.specs.Secrets.{GivesKey, key_written};

use crate::digest::feed_prior;
use crate::error::KeyError;
use crate::tsig::TsigRef;
use base64::DecodeAllocError;
use base64::engine::general_purpose::STANDARD;
use dns_hmac::{Algorithm, Hmac};
use dns_name::{Name, NameRef, OutOfMemory, names_are_ordered, push_lower};
use std::alloc::Global;
use std::marker::Model;

/// A key: its name, its algorithm and its secret (RFC 8945, section 6), digested once. It has no Debug and no reader of the
/// secret, so nothing can print it.
#[derive(Drop)]
pub struct Key {
    name: Name,
    algorithm: Algorithm,
    secret: Vec<u8>,
    // the secret, taken in already
    start: Hmac,
    // the names of key and algorithm, as they are digested
    front: Vec<u8>,
}

impl Model for Key {
    ghost use Rattle.std.specs.Prelude.{◌≡◌, []};
    ghost use Rattle.dns_hmac.specs.Keyed.{Keyed};
    ghost use Rattle.dns_tsig.specs.Digested.{names};
    ghost use Rattle.dns_tsig.specs.Keys.{KeyParts, algorithm_name};

    ghost Value = { KeyParts };

    ghost view = { λ k. record { name = k.name; algorithm = k.algorithm; secret = k.secret.items } };

    ghost invariant = { λ k. Keyed k.algorithm k.secret.items [] k.start × (k.front.items ≡ names k.name (algorithm_name k.algorithm)) };
}

impl Key {
    /// A key with this secret, of any length.
    pub fn new(
        alloc: Global,
        name: Name,
        algorithm: Algorithm,
        secret: Vec<u8>,
    ) -> Result<Key, OutOfMemory>
        ensures { IfOk result (λ k. k ≡ record { name = name; algorithm = algorithm; secret = secret.items }) }
    {
        let start = Hmac::new(algorithm, secret.as_slice());
        let front = names_of(alloc, &name, algorithm)?;
        Ok(Key {
            name,
            algorithm,
            secret,
            start,
            front,
        })
    }

    /// A key whose secret is written in base64, as key files have it: refused if the text is no base64.
    pub fn from_base64(
        alloc: Global,
        name: Name,
        algorithm: Algorithm,
        text: &[u8],
    ) -> Result<Key, KeyError>
        ensures { GivesKey (key_written name algorithm text.now) result }
    {
        match STANDARD.decode(alloc, text) {
            Ok(secret) => Ok(Key::new(alloc, name, algorithm, secret)?),
            Err(DecodeAllocError::OutOfMemory) => Err(KeyError::OutOfMemory),
            Err(DecodeAllocError::DecodeError(_)) => Err(KeyError::NotBase64),
        }
    }

    /// The name, borrowed.
    pub fn name(&self) -> NameRef<'_>
        ensures { result ≡ self.now.name }
    {
        self.name.for_ref()
    }

    /// The algorithm of the key.
    pub fn algorithm(&self) -> Algorithm
        ensures { result ≡ self.now.algorithm }
    {
        self.algorithm
    }

    /// The empty text under the key, after the MAC before.
    pub(crate) fn begin(&self, prior: &[u8]) -> Hmac
        requires { length prior.now < 2 ^ 16 }
        ensures { Keyed self.now.algorithm self.now.secret (prior_octets prior.now) result }
    {
        let mut code = self.start.clone().unwrap();
        feed_prior(&mut code, prior);
        code
    }

    /// The names of key and algorithm, as they are digested.
    pub(crate) fn names(&self) -> &[u8]
        ensures { result.now ≡ names self.now.name (algorithm_name self.now.algorithm) }
    {
        self.front.as_slice()
    }

    /// Whether a TSIG names this key and its algorithm.
    pub(crate) fn is_named(&self, tsig: &TsigRef<'_>) -> bool
        ensures { result ≡ is_named self.now tsig.now }
    {
        names_are_ordered();
        tsig.key.name_eq(&self.name.for_ref()) && names_algorithm(&tsig.algorithm, self.algorithm)
    }
}

/// An algorithm's name as octets (RFC 8945, section 6).
pub(crate) fn algorithm_octets(algorithm: Algorithm) -> &'static [u8]
    ensures value { result.now ≡ spell (algorithm_name algorithm) }
    ensures short { length result.now ≤ 13 }
{
    match algorithm {
        Algorithm::Sha1 => b"\x09hmac-sha1\x00",
        Algorithm::Sha256 => b"\x0bhmac-sha256\x00",
        Algorithm::Sha384 => b"\x0bhmac-sha384\x00",
        Algorithm::Sha512 => b"\x0bhmac-sha512\x00",
    }
}

/// Whether a name is that of an algorithm.
fn names_algorithm(name: &NameRef<'_>, algorithm: Algorithm) -> bool
    ensures { result ≡ same_name name.now (algorithm_name algorithm) }
{
    match NameRef::from_slice(algorithm_octets(algorithm)) {
        Ok(other) => name.name_eq(&other),
        Err(_) => false,
    }
}

/// The names of a key and its algorithm as they are digested, with class ANY and TTL 0 (RFC 8945, section 4.3.3).
fn names_of(alloc: Global, name: &Name, algorithm: Algorithm) -> Result<Vec<u8>, OutOfMemory>
    ensures { IfOk result (λ v. v.items ≡ names name.now (algorithm_name algorithm)) }
{
    let mut octets = canonical_octets(alloc, name)?;
    octets.extend_from_slice(&[0, 255, 0, 0, 0, 0])?;
    octets.extend_from_slice(algorithm_octets(algorithm))?;
    Ok(octets)
}

/// A name in lower case, as octets.
fn canonical_octets(alloc: Global, name: &Name) -> Result<Vec<u8>, OutOfMemory>
    ensures { IfOk result (λ v. v.items ≡ canonical name.now) }
{
    let mut octets = Vec::new(alloc);
    let mut labels = name.labels();
    'labels: while let Some(label) = labels.next() {
        octets.push(label.len() as u8)?;
        push_lower(label, &mut octets)?;
    }
    octets.push(0)?;
    Ok(octets)
}
