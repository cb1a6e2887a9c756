//! Messages that are signed.

ghost use Rattle.std.specs.Prelude.{◌≡◌, ◌<◌, ◌≤◌, ◌^◌, ◌++◌, ℕ, List, [], length, take, IfOk, OnOk, OnErr};
ghost use Rattle.dns_hmac.specs.Macs.{octets_of};
ghost use Rattle.dns_name.specs.Labels.{spell};
ghost use Rattle.dns_name.specs.Place.{four, two};
ghost use Rattle.dns_message.specs.Sections.{field};
ghost use Rattle.dns_message.specs.Records.{IsLawful, record_of};
ghost use Rattle.dns_message.specs.Wire.{record_octets};
ghost use Rattle.dns_tsig.specs.Digested.{digested};
ghost use Rattle.dns_tsig.specs.Signed.{Signs, data_behind, tsig_by, with_tsig};
ghost use Rattle.dns_tsig.specs.Tsig.{tsig_record};
ghost use Rattle.dns_tsig.specs.Keys.{mac_of};
ghost use Rattle.dns_tsig.specs.Sending.{code_behind};
ghost use Rattle.dns_tsig.specs.Streams.{chain_at};

use crate::digest::{feed_error, feed_timers};
use crate::key::{Key, algorithm_octets};
use crate::octets::{six_octets, two_octets};
use dns_hmac::Mac;
use dns_message::{Record, RecordData, number_at};
use dns_name::{Class, Name, Octets, OutOfMemory, Rtype, Ttl};
use std::alloc::Global;

/// What a TSIG says besides its key and its MAC (RFC 8945, section 4.2).
#[derive(Clone, Copy)]
pub struct TsigFields {
    /// The time signed, in seconds since 1970, below 2^48.
    pub time: u64,
    /// How many seconds the clocks of both sides may differ.
    pub fudge: u16,
    /// The error: 0, or why the request wasn't taken.
    pub error: u16,
}

/// Signs a message and gives its MAC: a TSIG is appended, and the count of additional records is one more (RFC 8945, section
/// 5.1). `prior` is the request's MAC if the message is a reply, and empty if it is a request. Without memory the message
/// stays as it was.
pub fn sign(
    alloc: Global,
    key: &Key,
    prior: &[u8],
    stamp: &TsigFields,
    message: &mut Vec<u8>,
) -> Result<Mac, OutOfMemory>
    requires header { 12 ≤ length message.old.items }
    requires room { field 10 message.old.items < 65535 }
    requires time { stamp.now.time < 2 ^ 48 }
    requires prior { length prior.now < 2 ^ 16 }
    ensures ok { IfOk result (λ mac. Signs key.now prior.now stamp.now [] message.old.items message.new.items (octets_of mac)) }
    ensures err { OnErr result (message.new.items ≡ message.old.items) }
{
    sign_other(alloc, key, prior, stamp, &[], message)
}

/// Signs a message as `sign` does, with other data: at BADTIME the server's time, as six octets (RFC 8945, section 5.2.3).
pub fn sign_other(
    alloc: Global,
    key: &Key,
    prior: &[u8],
    stamp: &TsigFields,
    other: &[u8],
    message: &mut Vec<u8>,
) -> Result<Mac, OutOfMemory>
    requires header { 12 ≤ length message.old.items }
    requires room { field 10 message.old.items < 65535 }
    requires time { stamp.now.time < 2 ^ 48 }
    requires prior { length prior.now < 2 ^ 16 }
    requires other { length other.now ≤ 6 }
    ensures ok { IfOk result (λ mac. Signs key.now prior.now stamp.now other.now message.old.items message.new.items (octets_of mac)) }
    ensures err { OnErr result (message.new.items ≡ message.old.items) }
{
    let mac = code_of(key, prior, stamp, other, message.as_slice());
    append(alloc, key, stamp, other, &mac, message)?;
    Ok(mac)
}

/// The code of a message.
pub(crate) fn code_of(
    key: &Key,
    prior: &[u8],
    stamp: &TsigFields,
    other: &[u8],
    message: &[u8],
) -> Mac
    requires header { 12 ≤ length message.now }
    requires time { stamp.now.time < 2 ^ 48 }
    requires prior { length prior.now < 2 ^ 16 }
    requires other { length other.now ≤ 6 }
    ensures { (mac : List ℕ) → octets_of result
        ≡ mac_of key.now (digested prior.now message.now (tsig_by key.now stamp.now message.now other.now mac)) }
{
    let mut code = key.begin(prior);
    code.update(&two_octets(number_at(message, 0)));
    code.update(&message[2..]);
    code.update(key.names());
    feed_timers(&mut code, stamp.time, stamp.fudge);
    feed_error(&mut code, stamp.error, other);
    code.finalize()
}

/// The code of a message of a stream whose every message is signed. `prior` is the MAC of the message before, or that of the
/// request. The first message, before the stream has begun, is digested with all TSIG variables, and each later one with
/// the timers alone (RFC 8945, section 5.3.1).
pub fn stream_code(key: &Key, prior: &[u8], begun: bool, stamp: &TsigFields, message: &[u8]) -> Mac
    requires header { 12 ≤ length message.now }
    requires time { stamp.now.time < 2 ^ 48 }
    requires prior { length prior.now < 2 ^ 16 }
    ensures { octets_of result ≡ code_behind key.now (chain_at prior.now begun) stamp.now message.now }
{
    if !begun {
        return code_of(key, prior, stamp, &[], message);
    }
    let mut code = key.begin(prior);
    code.update(&two_octets(number_at(message, 0)));
    code.update(&message[2..]);
    feed_timers(&mut code, stamp.time, stamp.fudge);
    code.finalize()
}

/// The TSIG record of a message whose code this is, without other data, for a message that is built.
pub fn tsig_record(
    alloc: Global,
    key: &Key,
    stamp: &TsigFields,
    message: &[u8],
    mac: &Mac,
) -> Result<Record, OutOfMemory>
    requires header { 12 ≤ length message.now }
    requires time { stamp.now.time < 2 ^ 48 }
    ensures value { IfOk result (λ r. record_of r ≡ tsig_record (tsig_by key.now stamp.now message.now [] (octets_of mac.now))) }
    ensures lawful { IfOk result (λ r. IsLawful r.rdata) }
{
    let owner = key.name().to_owned(alloc)?;
    let id = number_at(message, 0);
    record_with(
        alloc,
        owner,
        algorithm_octets(key.algorithm()),
        stamp,
        id,
        mac.as_slice(),
        &[],
    )
}

/// The TSIG record of these names, this stamp, this ID, this MAC and other data.
pub(crate) fn record_with(
    alloc: Global,
    owner: Name,
    algorithm: &[u8],
    stamp: &TsigFields,
    id: u16,
    mac: &[u8],
    other: &[u8],
) -> Result<Record, OutOfMemory>
    requires algorithm { length algorithm.now ≤ 255 }
    requires time { stamp.now.time < 2 ^ 48 }
    requires mac { length mac.now ≤ 64 }
    requires other { length other.now ≤ 6 }
    ensures value { IfOk result (λ r. record_of r
        ≡ record {
          owner = owner;
          rtype = 250;
          class = 255;
          ttl = 0;
          rdata = algorithm.now ++ data_behind stamp.now id mac.now other.now;
        }) }
    ensures lawful { IfOk result (λ r. IsLawful r.rdata) }
{
    let mut octets = Vec::new(alloc);
    push(&mut octets, algorithm)?;
    push_data(&mut octets, stamp, id, mac, other)?;
    Ok(Record {
        owner,
        class: Class::ANY,
        ttl: Ttl::from_secs(0),
        rdata: RecordData::Unknown {
            rtype: Rtype::from_int(250),
            octets: Octets::from_vec(octets),
        },
    })
}

/// Appends a TSIG and raises the count of additional records.
fn append(
    alloc: Global,
    key: &Key,
    stamp: &TsigFields,
    other: &[u8],
    mac: &Mac,
    message: &mut Vec<u8>,
) -> Result<(), OutOfMemory>
    requires header { 12 ≤ length message.old.items }
    requires room { field 10 message.old.items < 65535 }
    requires time { stamp.now.time < 2 ^ 48 }
    requires other { length other.now ≤ 6 }
    ensures ok { OnOk result (message.new.items
        ≡ with_tsig message.old.items (tsig_by key.now stamp.now message.old.items other.now (octets_of mac.now))) }
    ensures err { OnErr result (message.new.items ≡ message.old.items) }
{
    let size = message.len();
    let count = number_at(message, 10) + 1;
    let written = push_tsig(alloc, key, stamp, other, mac, message);
    if written.is_err() {
        message.truncate(size);
        return written;
    }
    message[10] = (count / 256) as u8;
    message[11] = (count % 256) as u8;
    Ok(())
}

/// Appends the octets of a TSIG record, or some of them.
fn push_tsig(
    alloc: Global,
    key: &Key,
    stamp: &TsigFields,
    other: &[u8],
    mac: &Mac,
    target: &mut Vec<u8>,
) -> Result<(), OutOfMemory>
    requires header { 12 ≤ length target.old.items }
    requires time { stamp.now.time < 2 ^ 48 }
    requires other { length other.now ≤ 6 }
    ensures ok { OnOk result (target.new.items
        ≡ target.old.items ++ record_octets (tsig_record (tsig_by key.now stamp.now target.old.items other.now (octets_of mac.now)))) }
    ensures err { OnErr result (take (length target.old.items) target.new.items ≡ target.old.items) }
{
    let id = number_at(target, 0);
    let mac = mac.as_slice();
    let algorithm = algorithm_octets(key.algorithm());
    let size = algorithm.len() + 16 + mac.len() + other.len();
    push_owner(alloc, key, size as u16, target)?;
    push(target, algorithm)?;
    push_data(target, stamp, id, mac, other)
}

/// Appends a record's octets up to its data, or some of them: the owner, type TSIG, class ANY, TTL 0 and the size.
fn push_owner(alloc: Global, key: &Key, size: u16, target: &mut Vec<u8>) -> Result<(), OutOfMemory>
    ensures ok { OnOk result (target.new.items
        ≡ target.old.items ++ (spell key.now.name ++ (two 250 ++ (two 255 ++ (four 0 ++ two size))))) }
    ensures err { OnErr result (take (length target.old.items) target.new.items ≡ target.old.items) }
{
    key.name().compose(alloc, target)?;
    push(target, &[0, 250, 0, 255, 0, 0, 0, 0])?;
    push(target, &two_octets(size))
}

/// Appends the data of a TSIG after the algorithm's name, or some of it.
fn push_data(
    target: &mut Vec<u8>,
    stamp: &TsigFields,
    id: u16,
    mac: &[u8],
    other: &[u8],
) -> Result<(), OutOfMemory>
    requires time { stamp.now.time < 2 ^ 48 }
    requires mac { length mac.now ≤ 64 }
    requires other { length other.now ≤ 6 }
    ensures ok { OnOk result (target.new.items ≡ target.old.items ++ data_behind stamp.now id mac.now other.now) }
    ensures err { OnErr result (take (length target.old.items) target.new.items ≡ target.old.items) }
{
    push(target, &six_octets(stamp.time))?;
    push(target, &two_octets(stamp.fudge))?;
    push(target, &two_octets(mac.len() as u16))?;
    push(target, mac)?;
    push(target, &two_octets(id))?;
    push(target, &two_octets(stamp.error))?;
    push(target, &two_octets(other.len() as u16))?;
    push(target, other)
}

/// Appends octets.
fn push(target: &mut Vec<u8>, octets: &[u8]) -> Result<(), OutOfMemory>
    ensures ok { OnOk result (target.new.items ≡ target.old.items ++ octets.now) }
    ensures err { OnErr result (target.new.items ≡ target.old.items) }
{
    target.extend_from_slice(octets)?;
    Ok(())
}
