//! TSIG records of replies that refuse a request.

ghost use Rattle.std.specs.Prelude.{◌≡◌, ◌<◌, ◌≤◌, ◌^◌, length, IfOk};
ghost use Rattle.dns_message.specs.Records.{IsLawful, record_of};
ghost use Rattle.dns_tsig.specs.Refusals.{other_octets, refusal_stamp, signed_refusal, unsigned_refusal};
ghost use Rattle.dns_tsig.specs.Tsig.{six, tsig_record};

use crate::error::TsigError;
use crate::key::{Key, algorithm_octets};
use crate::octets::six_octets;
use crate::signing::{TsigFields, code_of, record_with};
use crate::tsig::TsigRef;
use dns_message::{Record, number_at};
use dns_name::OutOfMemory;
use std::alloc::Global;

/// The TSIG record of a reply to a request whose key isn't known or whose MAC is wrong: it has the names of the request's
/// TSIG and no MAC (RFC 8945, section 5.3.2). `now` is the server's time in seconds, and `reply` the reply without a TSIG.
pub fn unsigned_refusal(
    alloc: Global,
    tsig: &TsigRef<'_>,
    error: TsigError,
    now: u64,
    fudge: u16,
    reply: &[u8],
) -> Result<Record, OutOfMemory>
    requires header { 12 ≤ length reply.now }
    requires time { now < 2 ^ 48 }
    ensures value { IfOk result (λ r. record_of r ≡ tsig_record (unsigned_refusal error now fudge tsig.now reply.now)) }
    ensures lawful { IfOk result (λ r. IsLawful r.rdata) }
{
    let stamp = refusal_stamp(error, now, fudge, tsig);
    let time = six_octets(now);
    let owner = tsig.key().to_name(alloc)?;
    let other = other_octets(error, &time);
    let id = number_at(reply, 0);
    record_with(
        alloc,
        owner,
        tsig.algorithm().as_slice(),
        &stamp,
        id,
        &[],
        other,
    )
}

/// The TSIG record of a reply to a request whose time or whose size of the MAC is refused: it is signed under the key,
/// after the request's MAC. At BADTIME it has the request's time and fudge, and the server's time as other data (RFC 8945,
/// section 5.2.3). `now` is the server's time in seconds, and `reply` the reply without a TSIG.
pub fn signed_refusal(
    alloc: Global,
    key: &Key,
    tsig: &TsigRef<'_>,
    error: TsigError,
    now: u64,
    fudge: u16,
    reply: &[u8],
) -> Result<Record, OutOfMemory>
    requires header { 12 ≤ length reply.now }
    requires time { now < 2 ^ 48 }
    ensures value { IfOk result (λ r. record_of r ≡ tsig_record (signed_refusal key.now error now fudge tsig.now reply.now)) }
    ensures lawful { IfOk result (λ r. IsLawful r.rdata) }
{
    let stamp = refusal_stamp(error, now, fudge, tsig);
    let time = six_octets(now);
    let owner = key.name().to_owned(alloc)?;
    let other = other_octets(error, &time);
    let mac = code_of(key, tsig.mac(), &stamp, other, reply);
    let id = number_at(reply, 0);
    record_with(
        alloc,
        owner,
        algorithm_octets(key.algorithm()),
        &stamp,
        id,
        mac.as_slice(),
        other,
    )
}

/// The time, the fudge and the error of a reply that refuses a request.
fn refusal_stamp(error: TsigError, now: u64, fudge: u16, tsig: &TsigRef<'_>) -> TsigFields
    requires { now < 2 ^ 48 }
    ensures value { result ≡ refusal_stamp error now fudge tsig.now }
    ensures time { result.time < 2 ^ 48 }
{
    match error {
        TsigError::BadTime => TsigFields {
            time: tsig.time(),
            fudge: tsig.fudge(),
            error: error.code(),
        },
        _ => TsigFields {
            time: now,
            fudge,
            error: error.code(),
        },
    }
}

/// The other data of a reply that refuses a request, if these six octets are the server's time.
fn other_octets(error: TsigError, time: &[u8; 6]) -> &[u8]
    ensures value { result.now ≡ other_octets error time.now }
    ensures short { length result.now ≤ 6 }
{
    match error {
        TsigError::BadTime => time,
        _ => &[],
    }
}
