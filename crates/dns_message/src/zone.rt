//! The numbers of a zone's start.

ghost use Rattle.std.specs.Prelude.{◌≡◌, ◌≤◌, ◌++◌, length, take, IfOk, OnOk, OnErr};
ghost use Rattle.dns_name.specs.Place.{four};
ghost use Rattle.dns_message.specs.Zone.{ttls_at, zone_at, zone_octets};

use crate::read::{four_in, ttl_in};
use crate::write::push_four;
use dns_name::{OutOfMemory, ParseError, Serial, Ttl};

/// The numbers of a zone's start (RFC 1035, section 3.3.13).
#[derive(Clone, Copy)]
pub(crate) struct ZoneNumbers {
    pub(crate) serial: Serial,
    pub(crate) refresh: Ttl,
    pub(crate) retry: Ttl,
    pub(crate) expire: Ttl,
    pub(crate) minimum: Ttl,
}

/// Two TTLs at a place, and the place after them.
#[tactic(auto, unfolding(crate::specs::Zone::ttls_at))]
fn ttls_in(message: &[u8], at: usize) -> Result<((Ttl, Ttl), usize), ParseError>
    requires { at ≤ length message.now }
    ensures value { result ≡ ttls_at message.now at }
    ensures within { IfOk result (λ r. r.1 ≤ length message.now) }
{
    let (first, at) = ttl_in(message, at)?;
    let (second, at) = ttl_in(message, at)?;
    Ok(((first, second), at))
}

/// The numbers at a place, and the place after them.
#[tactic(auto, unfolding(crate::specs::Zone::zone_at))]
pub(crate) fn zone_in(message: &[u8], at: usize) -> Result<(ZoneNumbers, usize), ParseError>
    requires { at ≤ length message.now }
    ensures value { result ≡ zone_at message.now at }
    ensures within { IfOk result (λ r. r.1 ≤ length message.now) }
{
    let (serial, at) = four_in(message, at)?;
    let ((refresh, retry), at) = ttls_in(message, at)?;
    let ((expire, minimum), at) = ttls_in(message, at)?;
    let numbers = ZoneNumbers {
        serial: Serial(serial),
        refresh,
        retry,
        expire,
        minimum,
    };
    Ok((numbers, at))
}

/// Appends the numbers, or some of their octets.
pub(crate) fn push_zone(target: &mut Vec<u8>, numbers: ZoneNumbers) -> Result<(), OutOfMemory>
    ensures ok { OnOk result (target.new.items ≡ target.old.items ++ zone_octets numbers) }
    ensures err { OnErr result (take (length target.old.items) target.new.items ≡ target.old.items) }
{
    push_four(target, numbers.serial.into_int())?;
    push_times(target, numbers)
}

/// Appends the times, or some of their octets.
fn push_times(target: &mut Vec<u8>, numbers: ZoneNumbers) -> Result<(), OutOfMemory>
    ensures ok { OnOk result (target.new.items
        ≡ target.old.items ++ (four numbers.refresh ++ (four numbers.retry ++ (four numbers.expire ++ four numbers.minimum)))) }
    ensures err { OnErr result (take (length target.old.items) target.new.items ≡ target.old.items) }
{
    push_four(target, numbers.refresh.as_secs())?;
    push_four(target, numbers.retry.as_secs())?;
    push_four(target, numbers.expire.as_secs())?;
    push_four(target, numbers.minimum.as_secs())
}
