//! Settings, made of values or read of a text.

ghost use Rattle.std.specs.Prelude.{◌≡◌, ◌==◌, length, None, Some};
ghost use Rattle.nutscythe_c.specs.declared.status.Status.{Status as TheStatus};
ghost use Rattle.nutscythe_c.specs.Calls.{number};
ghost use Rattle.nutscythe_c.specs.Objects.{OfFirst};
ghost use Rattle.nutscythe_c.specs.Origins.{ip_with};
ghost use Rattle.nutscythe_c.specs.Setters.{Copies, Denies, HasSecret, MakesSettings, PushesDenied, ReadsText, SetsCookies, reason_number};
ghost use Rattle.nutscythe_c.specs.Uses.{UsesBy};

use crate::handle::Handle;
use crate::handle_value::HandleValue;
use crate::origin::{ip_with, sixteen};
use crate::status::Status;
use crate::uses::{Use, use_at};
use dns_base::{Addrs, IpAddr};
use dns_embed::read_settings;
use dns_service::Settings;
use dns_trace::{Reason, TraceError};
use std::alloc::Global;
use std::mem;

/// Why a text says no settings: its first bad line, counted from 1, and the reason.
#[repr(C)]
#[derive(Clone, Copy)]
pub struct LineRefusal {
    /// The line.
    pub line: u64,
    /// 0 an octet is no printable character, 1 the first word is that of no setting, 2 and 3 are not used. 4 the line stands again,
    /// 5 too few words or too many, 6 a word spells no value, 7 is not used.
    pub reason: u32,
}

/// Makes settings: whether faulty queries are refused, and whether EDNS is on. Without cookies, nobody denied. The handle
/// holds them from then on.
#[unsafe(no_mangle)]
pub extern "C" fn nutscythe_raw_settings_new(
    alloc: Global,
    strict: bool,
    edns: bool,
    settings: &mut [Handle],
) -> u32
    ensures { (t : TheStatus) × (result ≡ number t)
        × OfFirst settings.old settings.new (λ h i. MakesSettings strict edns h.kept i.kept t) (t ≡ TheStatus.NullPointer) }
{
    make(alloc, strict, edns, settings) as u32
}

/// Makes settings, by its status.
fn make(alloc: Global, strict: bool, edns: bool, settings: &mut [Handle]) -> Status
    ensures { OfFirst settings.old settings.new (λ h i. MakesSettings strict edns h.kept i.kept result) (result ≡ Status.NullPointer) }
{
    let [settings, ..] = settings else {
        return Status::NullPointer;
    };
    let mut made = Settings::new(alloc);
    made.strict = strict;
    made.edns = edns;
    match settings.hold(alloc, HandleValue::Settings(made)) {
        Ok(()) => Status::Done,
        Err(_) => Status::NoMemory,
    }
}

/// Reads settings of a text, whose lines are those of a script before its first event. The handle holds them from then on.
#[unsafe(no_mangle)]
pub extern "C" fn nutscythe_raw_settings_read(
    alloc: Global,
    text: &[u8],
    settings: &mut [Handle],
    bad_line: &mut [LineRefusal],
) -> u32
    ensures { (t : TheStatus) × (result ≡ number t) × OfFirst settings.old settings.new (λ h i. OfFirst bad_line.old bad_line.new
        (λ b c. ReadsText text.now h.kept i.kept b c t) (t ≡ TheStatus.NullPointer × i.kept ≡ h.kept))
        (t ≡ TheStatus.NullPointer × bad_line.new ≡ bad_line.old) }
{
    read(alloc, text, settings, bad_line) as u32
}

/// Reads settings, by its status.
fn read(alloc: Global, text: &[u8], settings: &mut [Handle], bad_line: &mut [LineRefusal]) -> Status
    ensures { OfFirst settings.old settings.new (λ h i. OfFirst bad_line.old bad_line.new
        (λ b c. ReadsText text.now h.kept i.kept b c result) (result ≡ Status.NullPointer × i.kept ≡ h.kept))
        (result ≡ Status.NullPointer × bad_line.new ≡ bad_line.old) }
{
    let [settings, ..] = settings else {
        return Status::NullPointer;
    };
    let [bad_line, ..] = bad_line else {
        return Status::NullPointer;
    };
    read_into(alloc, text, settings, bad_line)
}

/// Reads settings into a handle.
fn read_into(
    alloc: Global,
    text: &[u8],
    settings: &mut Handle,
    bad_line: &mut LineRefusal,
) -> Status
    ensures { ReadsText text.now settings.old.kept settings.new.kept bad_line.old bad_line.new result }
{
    match read_settings(alloc, text) {
        Ok(made) => match settings.hold(alloc, HandleValue::Settings(made)) {
            Ok(()) => Status::Done,
            Err(_) => Status::NoMemory,
        },
        Err(TraceError::Line { line, reason }) => {
            *bad_line = LineRefusal {
                line,
                reason: reason_number(reason),
            };
            Status::BadLine
        }
        Err(TraceError::OutOfMemory) => Status::NoMemory,
    }
}

/// The number of a reason.
fn reason_number(reason: Reason) -> u32
    ensures { result ≡ reason_number reason }
{
    match reason {
        Reason::Text => 0,
        Reason::Word => 1,
        Reason::Order => 2,
        Reason::Mix => 3,
        Reason::Repeat => 4,
        Reason::Count => 5,
        Reason::Value => 6,
        Reason::Zone => 7,
    }
}

/// Switches server cookies on, with their secret of 16 octets (RFC 9018, section 4).
#[unsafe(no_mangle)]
pub extern "C" fn nutscythe_raw_settings_cookies(
    alloc: Global,
    settings: &mut [Handle],
    secret: &[u8],
) -> u32
    ensures { (t : TheStatus) × (result ≡ number t)
        × OfFirst settings.old settings.new (λ h i. SetsCookies secret.now h.kept i.kept t) (t ≡ TheStatus.NullPointer) }
{
    set_cookies(alloc, settings, secret) as u32
}

/// Switches server cookies on, by its status.
fn set_cookies(alloc: Global, settings: &mut [Handle], secret: &[u8]) -> Status
    ensures { OfFirst settings.old settings.new (λ h i. SetsCookies secret.now h.kept i.kept result) (result ≡ Status.NullPointer) }
{
    let [settings, ..] = settings else {
        return Status::NullPointer;
    };
    let Some(mut kept) = settings.take(alloc) else {
        return Status::NoHandle;
    };
    let status = match &mut *kept {
        HandleValue::Settings(made) => set_secret(made, secret),
        _ => Status::NoHandle,
    };
    settings.put(kept);
    status
}

/// Sets the secret of server cookies, if it has 16 octets.
fn set_secret(made: &mut Settings, secret: &[u8]) -> Status
    ensures { HasSecret (length secret.now == 16) secret.now made.old made.new result }
{
    if secret.len() != 16 {
        return Status::OutOfRange;
    }
    made.cookies = Some(sixteen(secret));
    Status::Done
}

/// Denies service without a cookie to an address: four octets of IPv4 or sixteen of IPv6.
#[unsafe(no_mangle)]
pub extern "C" fn nutscythe_raw_settings_deny(
    alloc: Global,
    settings: &mut [Handle],
    address: &[u8],
) -> u32
    ensures { (t : TheStatus) × (result ≡ number t)
        × OfFirst settings.old settings.new (λ h i. Denies (ip_with address.now) h.kept i.kept t) (t ≡ TheStatus.NullPointer) }
{
    deny(alloc, settings, ip_with(address)) as u32
}

/// Denies service to an address, by its status.
fn deny(alloc: Global, settings: &mut [Handle], ip: Option<IpAddr>) -> Status
    ensures { OfFirst settings.old settings.new (λ h i. Denies ip h.kept i.kept result) (result ≡ Status.NullPointer) }
{
    let [settings, ..] = settings else {
        return Status::NullPointer;
    };
    let Some(mut kept) = settings.take(alloc) else {
        return Status::NoHandle;
    };
    let status = match &mut *kept {
        HandleValue::Settings(made) => push_denied(alloc, &mut made.denied, ip),
        _ => Status::NoHandle,
    };
    settings.put(kept);
    status
}

/// Adds an address to those that are denied.
fn push_denied(alloc: Global, denied: &mut Addrs, ip: Option<IpAddr>) -> Status
    ensures { PushesDenied ip denied.old denied.new result }
{
    let Some(ip) = ip else {
        return Status::OutOfRange;
    };
    let mut addresses = mem::replace(denied, Addrs::from_vec(Vec::new(alloc))).into_vec();
    let pushed = addresses.push(ip);
    *denied = Addrs::from_vec(addresses);
    match pushed {
        Ok(()) => Status::Done,
        Err(_) => Status::NoMemory,
    }
}

/// Copies settings to another handle, as for another thread. What that held is let go of.
#[unsafe(no_mangle)]
pub extern "C" fn nutscythe_raw_settings_copy(
    alloc: Global,
    settings: &mut [Handle],
    copy: &mut [Handle],
) -> u32
    ensures { (t : TheStatus) × (result ≡ number t)
        × OfFirst settings.old settings.new (λ h i. (i.kept ≡ h.kept) × OfFirst copy.old copy.new
        (λ c d. UsesBy Use.Copy h.kept c.kept d.kept t) (t ≡ TheStatus.NullPointer)) (t ≡ TheStatus.NullPointer × copy.new ≡ copy.old) }
{
    use_at(alloc, Use::Copy, settings, copy) as u32
}

/// Holds a copy of settings.
pub(crate) fn hold_copy(alloc: Global, made: &Settings, copy: &mut Handle) -> Status
    ensures { Copies made.now copy.old.kept copy.new.kept result }
{
    let Ok(copied) = made.try_clone(alloc) else {
        return Status::NoMemory;
    };
    match copy.hold(alloc, HandleValue::Settings(copied)) {
        Ok(()) => Status::Done,
        Err(_) => Status::NoMemory,
    }
}

/// Lets go of what a handle holds. It holds nothing from then on, and may be freed again.
#[unsafe(no_mangle)]
pub extern "C" fn nutscythe_raw_free(alloc: Global, handle: &mut [Handle]) -> u32
    ensures { (t : TheStatus) × (result ≡ number t)
        × OfFirst handle.old handle.new (λ h i. (t ≡ TheStatus.Done) × (i.kept ≡ None)) (t ≡ TheStatus.NullPointer) }
{
    free(alloc, handle) as u32
}

/// Lets go of what a handle holds, by its status.
fn free(alloc: Global, handle: &mut [Handle]) -> Status
    ensures { OfFirst handle.old handle.new (λ h i. (result ≡ Status.Done) × (i.kept ≡ None)) (result ≡ Status.NullPointer) }
{
    let [handle, ..] = handle else {
        return Status::NullPointer;
    };
    *handle = Handle::empty(alloc);
    Status::Done
}
