//! What is to be done about a datagram.

ghost use Rattle.std.specs.Prelude.{◌≡◌, ◌≢◌, Some};
ghost use Rattle.dns_session.specs.Datagrams.{cut_datagram};
ghost use Rattle.nutscythe_c.specs.declared.status.Status.{Status as TheStatus};
ghost use Rattle.nutscythe_c.specs.Calls.{Exchanges, ExchangesAt, ExchangesBy, number, output};
ghost use Rattle.nutscythe_c.specs.Objects.{OfFirst, OfOne};
ghost use Rattle.nutscythe_c.specs.Origins.{addr_of, verdict_of};

use crate::handle::Handle;
use crate::handle_value::HandleValue;
use crate::layers::act;
use crate::origin::{Origin, addr_of, verdict_of};
use crate::rule::Rule;
use crate::status::Status;
use dns_base::SocketAddr;
use dns_embed::{KnownVerdict, decide_datagram};
use dns_service::Settings;
use std::alloc::Global;

/// What is to be done about a datagram, as a server over datagrams does it: it is cut at 1,024 octets, and a response is
/// answered with FORMERR. Of the origin the sender and the times are looked at; the size is the settings'.
#[unsafe(no_mangle)]
pub extern "C" fn nutscythe_raw_datagram(
    alloc: Global,
    settings: &mut [Handle],
    origin: &[Origin],
    verdict: u32,
    datagram: &[u8],
    reply: &mut [u8],
    reply_len: &mut [usize],
    rule: &mut [Rule],
) -> u32
    ensures missing { result ≡ 22 → (reply.new ≡ reply.old) × (reply_len.new ≡ reply_len.old) × (rule.new ≡ rule.old) }
    ensures decided { (t : TheStatus) × (result ≡ number t)
        × OfFirst settings.old settings.new (λ h i. (i.kept ≡ h.kept)
        × OfOne origin.now (λ o. ExchangesAt h.kept o (addr_of o) (verdict_of verdict) datagram.now
        reply.old reply.new reply_len.old reply_len.new rule.old rule.new t) (t ≡ TheStatus.NullPointer)) (t ≡ TheStatus.NullPointer) }
{
    exchange_at(
        alloc, settings, origin, verdict, datagram, reply, reply_len, rule,
    ) as u32
}

/// What is to be done about a datagram, by its status.
fn exchange_at(
    alloc: Global,
    settings: &mut [Handle],
    origin: &[Origin],
    verdict: u32,
    datagram: &[u8],
    reply: &mut [u8],
    reply_len: &mut [usize],
    rule: &mut [Rule],
) -> Status
    ensures missing { result ≡ Status.NullPointer → (reply.new ≡ reply.old) × (reply_len.new ≡ reply_len.old) × (rule.new ≡ rule.old) }
    ensures decided { OfFirst settings.old settings.new (λ h i. (i.kept ≡ h.kept)
        × OfOne origin.now (λ o. ExchangesAt h.kept o (addr_of o) (verdict_of verdict) datagram.now
        reply.old reply.new reply_len.old reply_len.new rule.old rule.new result) (result ≡ Status.NullPointer))
        (result ≡ Status.NullPointer) }
{
    let [settings, ..] = settings else {
        return Status::NullPointer;
    };
    let [origin, ..] = origin else {
        return Status::NullPointer;
    };
    exchange_with(
        alloc, settings, origin, verdict, datagram, reply, reply_len, rule,
    )
}

/// What is to be done about a datagram, by a handle and an origin that are given.
fn exchange_with(
    alloc: Global,
    settings: &mut Handle,
    origin: &Origin,
    verdict: u32,
    datagram: &[u8],
    reply: &mut [u8],
    reply_len: &mut [usize],
    rule: &mut [Rule],
) -> Status
    ensures missing { result ≡ Status.NullPointer → (reply.new ≡ reply.old) × (reply_len.new ≡ reply_len.old) × (rule.new ≡ rule.old) }
    ensures settings { settings.new.kept ≡ settings.old.kept }
    ensures decided { ExchangesAt settings.old.kept origin.now (addr_of origin.now) (verdict_of verdict) datagram.now
        reply.old reply.new reply_len.old reply_len.new rule.old rule.new result }
{
    let [reply_len, ..] = reply_len else {
        return Status::NullPointer;
    };
    let [rule, ..] = rule else {
        return Status::NullPointer;
    };
    exchange(
        alloc, settings, origin, verdict, datagram, reply, reply_len, rule,
    )
}

/// What is to be done about a datagram, by a handle.
fn exchange(
    alloc: Global,
    settings: &mut Handle,
    origin: &Origin,
    verdict: u32,
    datagram: &[u8],
    reply: &mut [u8],
    reply_len: &mut usize,
    rule: &mut Rule,
) -> Status
    ensures given { result ≢ Status.NullPointer }
    ensures settings { settings.new.kept ≡ settings.old.kept }
    ensures decided { ExchangesBy settings.old.kept origin.now (addr_of origin.now) (verdict_of verdict) datagram.now
        (output reply.old reply_len.old rule.old) (output reply.new reply_len.new rule.new) result }
{
    let Some(kept) = settings.take(alloc) else {
        return Status::NoHandle;
    };
    let status = match &*kept {
        HandleValue::Settings(settings) => exchange_from(
            alloc, settings, origin, verdict, datagram, reply, reply_len, rule,
        ),
        _ => Status::NoHandle,
    };
    settings.put(kept);
    status
}

/// What is to be done about a datagram, by settings.
fn exchange_from(
    alloc: Global,
    settings: &Settings,
    origin: &Origin,
    verdict: u32,
    datagram: &[u8],
    reply: &mut [u8],
    reply_len: &mut usize,
    rule: &mut Rule,
) -> Status
    ensures given { result ≢ Status.NullPointer }
    ensures decided { ExchangesBy (Some (HandleValue.Settings settings.now)) origin.now (addr_of origin.now) (verdict_of verdict) datagram.now
        (output reply.old reply_len.old rule.old) (output reply.new reply_len.new rule.new) result }
{
    let Some(addr) = addr_of(origin) else {
        return Status::OutOfRange;
    };
    let Some(verdict) = verdict_of(verdict) else {
        return Status::OutOfRange;
    };
    exchange_by(
        alloc, settings, addr, origin, verdict, datagram, reply, reply_len, rule,
    )
}

/// What is to be done about a datagram, by numbers that are in range.
fn exchange_by(
    alloc: Global,
    settings: &Settings,
    addr: SocketAddr,
    origin: &Origin,
    verdict: KnownVerdict,
    datagram: &[u8],
    reply: &mut [u8],
    reply_len: &mut usize,
    rule: &mut Rule,
) -> Status
    ensures given { result ≢ Status.NullPointer }
    ensures decided { Exchanges settings.now verdict.verdict addr origin.now.at origin.now.secs (cut_datagram datagram.now)
        (output reply.old reply_len.old rule.old) (output reply.new reply_len.new rule.new) result }
{
    match decide_datagram(
        alloc,
        settings,
        verdict,
        addr,
        origin.at,
        origin.secs,
        datagram,
    ) {
        Ok(action) => act(action, reply, reply_len, rule),
        Err(_) => Status::NoMemory,
    }
}
