//! Calls that are made that many times, which bench/tsig times.

ghost use Rattle.std.specs.Prelude.{◌≤◌, ◌<◌, length};

use crate::signatures::can_be_signed;
use dns_name::{Name, OutOfMemory};
use dns_rate_limit::{Limiter, Rate, Verdict};
use dns_tsig::{Algorithm, Key, TsigFields, find, sign};
use rows_table::{Calls, Row, RowError};
use sha2::{Digest, Sha256};
use std::alloc::Global;
use std::hash::{BuildHasherDefault, FoldHasher};
use std::num::NonZeroUsize;

/// Calls of digests, signatures and limits, made often.
pub struct Often;

impl Calls for Often {
    fn answer(&self, call: &str, row: &mut Row<'_>) -> Result<(), RowError> {
        if !call.starts_with("often_") {
            return Err(RowError::NoSuchCall);
        }
        let size = row.number();
        let count = row.number();
        let alloc = row.alloc();
        let sum = match call {
            "often_digested" => digested(alloc, size, count),
            "often_signed" => signed(alloc, size, count),
            "often_verified" => verified(alloc, size, count),
            "often_asked" => asked(alloc, size, count),
            _ => return Err(RowError::NoSuchCall),
        };
        match sum {
            Ok(sum) => row.show(&sum),
            Err(_) => row.fail(RowError::OutOfMemory),
        }
        Ok(())
    }
}

const STAMP: TsigFields = TsigFields {
    time: 1800000000,
    fudge: 300,
    error: 0,
};

/// A header and one additional record of the root, of that many octets together, at least 23.
fn message(alloc: Global, size: usize) -> Result<Vec<u8>, OutOfMemory> {
    let left = size.saturating_sub(23);
    let mut octets = Vec::new(alloc);
    octets.extend_from_slice(&[
        0, 1, 0, 0, 0, 0, 0, 0, 0, 0, 0, 1, 0, 0, 16, 0, 1, 0, 0, 0, 0,
    ])?;
    octets.push((left / 256 % 256) as u8)?;
    octets.push((left % 256) as u8)?;
    for _ in 0..left {
        octets.push(0)?;
    }
    Ok(octets)
}

/// The key `key.example.` of HMAC-SHA256, whose secret is the octets from 0 to 31.
fn key(alloc: Global) -> Result<Key, OutOfMemory> {
    let mut secret = Vec::new(alloc);
    for i in 0..32u8 {
        secret.push(i)?;
    }
    let name = Vec::from_slice(alloc, b"\x03key\x07example\x00")?;
    let name = match Name::from_octets(name) {
        Ok(name) => name,
        Err(_) => Name::root(alloc)?,
    };
    Key::new(alloc, name, Algorithm::Sha256, secret)
}

/// A copy of a message with room for a TSIG.
fn copied(alloc: Global, base: &[u8]) -> Result<Vec<u8>, OutOfMemory> {
    let mut octets = Vec::with_capacity(alloc, base.len().saturating_add(128))?;
    octets.extend_from_slice(base)?;
    Ok(octets)
}

/// The first octet of the MAC of a message that is signed.
fn sign_one(alloc: Global, key: &Key, base: &[u8]) -> Result<u8, OutOfMemory> {
    let mut message = copied(alloc, base)?;
    if !can_be_signed(message.as_slice()) {
        return Ok(0);
    }
    let mac = sign(alloc, key, &[], &STAMP, &mut message)?;
    Ok(mac.as_slice()[0])
}

/// 1 if a message is found to be signed and verifies.
fn verify_one(key: &Key, message: &[u8]) -> u8 {
    if message.len() < 12 {
        return 0;
    }
    match find(message) {
        Ok(Some(signed)) => match signed.verify(key, 32, 1800000000, &[]) {
            Ok(()) => 1,
            Err(_) => 0,
        },
        _ => 0,
    }
}

/// The sum of the first octets of digests of that many zeros.
fn digested(alloc: Global, size: usize, count: u32) -> Result<u64, OutOfMemory> {
    let mut base = Vec::new(alloc);
    for _ in 0..size {
        base.push(0)?;
    }
    let mut sum = 0u64;
    for _ in 0..count {
        let text = copied(alloc, base.as_slice())?;
        sum = sum.wrapping_add(u64::from(Sha256::digest(text.as_slice())[0]));
    }
    Ok(sum)
}

/// The sum of the first octets of the MACs of messages of this size.
fn signed(alloc: Global, size: usize, count: u32) -> Result<u64, OutOfMemory> {
    let key = key(alloc)?;
    let base = message(alloc, size)?;
    let mut sum = 0u64;
    for _ in 0..count {
        sum = sum.wrapping_add(u64::from(sign_one(alloc, &key, base.as_slice())?));
    }
    Ok(sum)
}

/// How many messages of this size verify.
fn verified(alloc: Global, size: usize, count: u32) -> Result<u64, OutOfMemory> {
    let key = key(alloc)?;
    let mut base = message(alloc, size)?;
    if !can_be_signed(base.as_slice()) {
        return Ok(0);
    }
    sign(alloc, &key, &[], &STAMP, &mut base)?;
    let mut sum = 0u64;
    for _ in 0..count {
        sum = sum.wrapping_add(u64::from(verify_one(&key, base.as_slice())));
    }
    Ok(sum)
}

/// How many responses are sent whole of those to that many clients, ten a second each. The clients are far apart in turn, a million a
/// second.
fn asked(alloc: Global, clients: usize, count: u32) -> Result<u64, OutOfMemory> {
    let rate = Rate {
        per_second: 10,
        window: 15,
        slip: 2,
    };
    let capacity = NonZeroUsize::new(65536).unwrap_or(NonZeroUsize::MIN);
    let seed = BuildHasherDefault::<FoldHasher>::new();
    let mut limiter = Limiter::new(alloc, rate, capacity, seed)?;
    let clients = u32::try_from(clients).unwrap_or(1).max(1);
    let mut sum = 0u64;
    for i in 0..count {
        let client = i.wrapping_mul(2654435761) % clients;
        if let Verdict::Whole = limiter.ask(client, u64::from(i / 1000000))? {
            sum = sum.wrapping_add(1);
        }
    }
    Ok(sum)
}
