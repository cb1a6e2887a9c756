//! The calls of dns_hmac and dns_tsig.

ghost use Rattle.std.specs.Prelude.{◌≤◌, ◌<◌, ◌^◌, length};
ghost use Rattle.std.specs.Bool.{OnTrue};
ghost use Rattle.std.specs.Result.{ForOk};
ghost use Rattle.dns_message.specs.Records.{IsLawful};
ghost use Rattle.dns_message.specs.Sections.{field};

use dns_hmac::{Algorithm, Hmac};
use dns_message::{Record, number_at};
use dns_name::{Name, OutOfMemory};
use dns_tsig::{
    IncomingStream, Key, KeyError, KeyStore, TsigError, TsigFields, find, sign, sign_other,
    signed_refusal, stream_code, unsigned_refusal,
};
use rows_table::{Calls, Row, RowError};
use std::alloc::AllocError;
use std::sync::Arc;

/// Calls of codes, signatures and streams.
pub struct Signatures;

impl Calls for Signatures {
    fn answer(&self, call: &str, row: &mut Row<'_>) -> Result<(), RowError> {
        match call {
            "mac" => mac(row),
            "sign" => signed(row),
            "sign_other" => signed_other(row),
            "verify" => verified(row),
            "stream" => streamed(row),
            "stream_code" => code_said(row),
            "base64" => written(row),
            "key" => known(row),
            "unsigned" => refused(row, false),
            "refused" => refused(row, true),
            _ => return Err(RowError::NoSuchCall),
        }
        Ok(())
    }
}

/// The algorithm of the next word.
fn algorithm(row: &mut Row<'_>) -> Algorithm {
    match row.word() {
        "sha1" => Algorithm::Sha1,
        "sha256" => Algorithm::Sha256,
        "sha384" => Algorithm::Sha384,
        "sha512" => Algorithm::Sha512,
        _ => {
            row.fail(RowError::OutOfForm);
            Algorithm::Sha1
        }
    }
}

/// The code of a text under a key.
fn mac(row: &mut Row<'_>) {
    let algorithm = algorithm(row);
    let key = row.octets();
    let text = row.octets();
    row.hexadecimal(Hmac::of(algorithm, key, text).as_slice())
}

/// The key of the next words: algorithm, name and secret.
pub fn key(row: &mut Row<'_>) -> Option<Key> {
    let algorithm = algorithm(row);
    let name = row.name();
    let secret = row.vector();
    let alloc = row.alloc();
    let name = name.to_owned(alloc).ok()?;
    Key::new(alloc, name, algorithm, secret).ok()
}

/// A time, below 2^48.
fn time(row: &mut Row<'_>) -> u64
    ensures { result < 2 ^ 48 }
{
    row.number::<u64>() % 281474976710656
}

/// A stamp: time, fudge and error.
fn stamp(row: &mut Row<'_>) -> TsigFields
    ensures { result.time < 2 ^ 48 }
{
    let time = time(row);
    let fudge = row.number();
    let error = row.number();
    TsigFields { time, fudge, error }
}

/// Octets of which there are fewer than 65,536.
fn short<'a>(row: &mut Row<'a>) -> &'a [u8]
    ensures { length result.now < 2 ^ 16 }
{
    let octets = row.octets();
    if octets.len() < 65536 {
        return octets;
    }
    row.fail(RowError::OutOfForm);
    b""
}

/// Whether octets can be signed: a header, and room for a record.
pub fn can_be_signed(message: &[u8]) -> bool
    ensures { OnTrue result ((12 ≤ length message.now) × (field 10 message.now < 65535)) }
{
    message.len() >= 12 && number_at(message, 10) < 65535
}

/// A message that is signed.
fn signed(row: &mut Row<'_>) {
    let key = key(row);
    let stamp = stamp(row);
    let prior = short(row);
    let mut message = row.vector();
    let Some(key) = key else {
        return row.fail(RowError::OutOfMemory);
    };
    if !can_be_signed(message.as_slice()) {
        return row.fail(RowError::OutOfForm);
    }
    match sign(row.alloc(), &key, prior, &stamp, &mut message) {
        Ok(_) => row.hexadecimal(message.as_slice()),
        Err(_) => row.fail(RowError::OutOfMemory),
    }
}

/// A message that is signed with other data.
fn signed_other(row: &mut Row<'_>) {
    let key = key(row);
    let stamp = stamp(row);
    let prior = short(row);
    let other = row.octets();
    let mut message = row.vector();
    let Some(key) = key else {
        return row.fail(RowError::OutOfMemory);
    };
    if !can_be_signed(message.as_slice()) || other.len() > 6 {
        return row.fail(RowError::OutOfForm);
    }
    match sign_other(row.alloc(), &key, prior, &stamp, other, &mut message) {
        Ok(_) => row.hexadecimal(message.as_slice()),
        Err(_) => row.fail(RowError::OutOfMemory),
    }
}

/// What comes of a signed message: its octets without the TSIG, or why it isn't taken.
fn verified(row: &mut Row<'_>) {
    let key = key(row);
    let least = row.number();
    let now = time(row);
    let prior = short(row);
    let message = row.octets();
    let Some(key) = key else {
        return row.fail(RowError::OutOfMemory);
    };
    if message.len() < 12 {
        return row.fail(RowError::OutOfForm);
    }
    match find(message) {
        Ok(None) => row.say("unsigned"),
        Ok(Some(signed)) => match signed.verify(&key, least, now, prior) {
            Ok(()) => {
                let mut bare = Vec::new(row.alloc());
                row.keep(signed.take_off(&mut bare));
                row.hexadecimal(bare.as_slice())
            }
            Err(error) => row.debug(&error),
        },
        Err(error) => row.debug(&error),
    }
}

/// The MAC of a message of a stream, `begun` or not, after the MAC before.
fn code_said(row: &mut Row<'_>) {
    let key = key(row);
    let stamp = stamp(row);
    let prior = short(row);
    let begun = row.word() == "begun";
    let message = row.octets();
    let Some(key) = key else {
        return row.fail(RowError::OutOfMemory);
    };
    if message.len() < 12 {
        return row.fail(RowError::OutOfForm);
    }
    row.hexadecimal(stream_code(&key, prior, begun, &stamp, message).as_slice())
}

/// What comes of a stream: whether it is whole, or why a message isn't taken.
fn streamed(row: &mut Row<'_>) {
    let key = key(row);
    let least = row.number();
    let now = time(row);
    let prior = short(row);
    let Some(key) = key else {
        return row.fail(RowError::OutOfMemory);
    };
    let mut stream = IncomingStream::new(&key, prior);
    for word in row.all_words().split(' ') {
        let message = row.octets_of(word);
        if message.len() < 12 {
            return row.fail(RowError::OutOfForm);
        }
        if let Err(error) = stream.take(&key, least, now, message) {
            return row.debug(&error);
        }
    }
    row.say(if stream.is_whole() { "whole" } else { "open" })
}

/// The MAC of a text under a key whose secret is a text of base64, or why there is no such key.
fn written(row: &mut Row<'_>) {
    let algorithm = algorithm(row);
    let name = row.name();
    let secret = row.text();
    let text = row.vector();
    let alloc = row.alloc();
    let Ok(name) = name.to_owned(alloc) else {
        return row.fail(RowError::OutOfMemory);
    };
    match Key::from_base64(alloc, name, algorithm, secret.as_bytes()) {
        Ok(key) => signed_as_is(row, &key, text),
        Err(KeyError::NotBase64) => row.say("NotBase64"),
        Err(KeyError::OutOfMemory) => row.fail(RowError::OutOfMemory),
    }
}

/// The MAC of a message that is signed at time 0 under a key.
fn signed_as_is(row: &mut Row<'_>, key: &Key, message: Vec<u8>) {
    let mut message = message;
    let stamp = TsigFields {
        time: 0,
        fudge: 300,
        error: 0,
    };
    if !can_be_signed(message.as_slice()) {
        return row.fail(RowError::OutOfForm);
    }
    match sign(row.alloc(), key, &[], &stamp, &mut message) {
        Ok(mac) => row.hexadecimal(mac.as_slice()),
        Err(_) => row.fail(RowError::OutOfMemory),
    }
}

/// The place of the key that a message's TSIG names among keys `a.`, `b.` and `b.` again: the first two of SHA-256, the last of
/// SHA-512.
fn known(row: &mut Row<'_>) {
    let message = row.octets();
    let Ok(keys) = three_keys(row) else {
        return row.fail(RowError::OutOfMemory);
    };
    if message.len() < 12 {
        return row.fail(RowError::OutOfForm);
    }
    match find(message) {
        Ok(Some(signed)) => match keys.get(signed.tsig()) {
            Some((place, _)) => row.show(&place),
            None => row.say("unknown"),
        },
        _ => row.fail(RowError::OutOfForm),
    }
}

/// Three keys.
fn three_keys(row: &mut Row<'_>) -> Result<KeyStore, AllocError> {
    let mut keys = Vec::new(row.alloc());
    for (name, algorithm) in [
        (b"\x01a\x00", Algorithm::Sha256),
        (b"\x01b\x00", Algorithm::Sha256),
        (b"\x01b\x00", Algorithm::Sha512),
    ] {
        let name = row.copied(name);
        if let Ok(name) = Name::from_octets(name) {
            if let Ok(key) = Key::new(row.alloc(), name, algorithm, Vec::new(row.alloc())) {
                keys.push(Arc::new(row.alloc(), key)?)?;
            }
        }
    }
    Ok(KeyStore::new(keys))
}

/// The error of the next word.
fn error(row: &mut Row<'_>) -> TsigError {
    match row.word() {
        "BADKEY" => TsigError::BadKey,
        "BADSIG" => TsigError::BadSig,
        "BADTIME" => TsigError::BadTime,
        "BADTRUNC" => TsigError::BadTrunc,
        _ => {
            row.fail(RowError::OutOfForm);
            TsigError::FormErr
        }
    }
}

/// The TSIG record of a reply that refuses a request: key, error, time, fudge, reply and request.
fn refused(row: &mut Row<'_>, is_signed: bool) {
    let key = key(row);
    let error = error(row);
    let now = time(row);
    let fudge = row.number();
    let reply = row.octets();
    let request = row.octets();
    let alloc = row.alloc();
    let Some(key) = key else {
        return row.fail(RowError::OutOfMemory);
    };
    if reply.len() < 12 || request.len() < 12 {
        return row.fail(RowError::OutOfForm);
    }
    let Ok(Some(signed)) = find(request) else {
        return row.fail(RowError::OutOfForm);
    };
    if is_signed {
        let made = signed_refusal(alloc, &key, signed.tsig(), error, now, fudge, reply);
        return record_said(row, made);
    }
    record_said(
        row,
        unsigned_refusal(alloc, signed.tsig(), error, now, fudge, reply),
    )
}

/// The octets of a record that was made.
fn record_said(row: &mut Row<'_>, made: Result<Record, OutOfMemory>)
    requires { ForOk made (λ r. IsLawful r.rdata) }
{
    match made {
        Ok(made) => {
            let mut octets = Vec::new(row.alloc());
            row.keep(made.compose(row.alloc(), &mut octets));
            row.hexadecimal(octets.as_slice())
        }
        Err(_) => row.fail(RowError::OutOfMemory),
    }
}
