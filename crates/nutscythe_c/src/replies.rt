//! A reply that a service in C builds, so that it needn't be read again to be rewritten.

ghost use Rattle.std.specs.Prelude.{◌≡◌, ◌≢◌, ◌≤◌, length};
ghost use Rattle.dns_reply_builder.specs.Replying.{plain_record};
ghost use Rattle.nutscythe_c.specs.declared.status.Status.{Status as TheStatus};
ghost use Rattle.nutscythe_c.specs.Calls.{number};
ghost use Rattle.nutscythe_c.specs.Objects.{OfFirst, OfOne};
ghost use Rattle.nutscythe_c.specs.Replies.{AddsBy, AddsHeld, AddsOption, BeginsBy, IsPlain, WritesBy, WritesReply, added_status, plain_in, rcode_of, section_of};
ghost use Rattle.nutscythe_c.specs.Rules.{rule_in};

use crate::handle::Handle;
use crate::handle_value::HandleValue;
use crate::layers::put_reply;
use crate::rule::Rule;
use crate::status::Status;
use dns_base::{Class, NameRef, OptionCode, Rcode, Rtype, Section, Ttl};
use dns_embed::ReplyRule;
use dns_reply_builder::{AddError, PlainRecord, ServiceReply};
use std::alloc::Global;

/// The section of a number: 1 the answer, 2 the authority, 3 the additional section.
fn section_of(number: u32) -> Option<Section>
    ensures { result ≡ section_of number }
{
    match number {
        1 => Some(Section::Answer),
        2 => Some(Section::Authority),
        3 => Some(Section::Additional),
        _ => None,
    }
}

/// The response code of a number, from 0 to 15 (RFC 1035, section 4.1.1).
fn rcode_of(number: u32) -> Option<Rcode>
    ensures { result ≡ rcode_of number }
{
    if number > 15 {
        return None;
    }
    Rcode::checked_from_int(number as u8)
}

/// Begins the reply to a query, with a response code, authoritative or not. The handle holds it from then on.
#[unsafe(no_mangle)]
pub extern "C" fn nutscythe_raw_reply_begin(
    alloc: Global,
    query: &[u8],
    rcode: u32,
    is_authoritative: bool,
    reply: &mut [Handle],
) -> u32
    ensures { (t : TheStatus) × (result ≡ number t)
        × OfFirst reply.old reply.new (λ h i. BeginsBy query.now (rcode_of rcode) is_authoritative h.kept i.kept t)
        (t ≡ TheStatus.NullPointer) }
{
    begin_at(alloc, query, rcode_of(rcode), is_authoritative, reply) as u32
}

/// Begins a reply, by its status.
fn begin_at(
    alloc: Global,
    query: &[u8],
    rcode: Option<Rcode>,
    is_authoritative: bool,
    reply: &mut [Handle],
) -> Status
    ensures { OfFirst reply.old reply.new (λ h i. BeginsBy query.now rcode is_authoritative h.kept i.kept result)
        (result ≡ Status.NullPointer) }
{
    let [reply, ..] = reply else {
        return Status::NullPointer;
    };
    let Some(rcode) = rcode else {
        return Status::OutOfRange;
    };
    match ServiceReply::begin(alloc, query, rcode, is_authoritative) {
        Ok(Some(begun)) => match reply.hold(alloc, HandleValue::Reply(begun)) {
            Ok(()) => Status::Done,
            Err(_) => Status::NoMemory,
        },
        Ok(None) => Status::Unreadable,
        Err(_) => Status::NoMemory,
    }
}

/// Adds a record to a section, 1 the answer, 2 the authority, 3 the additional section: the one that was begun last or a later
/// one. Its name is in wire form, and both name and data are uncompressed.
#[unsafe(no_mangle)]
pub extern "C" fn nutscythe_raw_reply_add(
    alloc: Global,
    reply: &mut [Handle],
    section: u32,
    owner: &[u8],
    rtype: u16,
    class: u16,
    ttl: u32,
    rdata: &[u8],
) -> u32
    ensures { (t : TheStatus) × (result ≡ number t)
        × OfFirst reply.old reply.new (λ h i. AddsBy (section_of section) (plain_in owner.now rtype class ttl rdata.now) h.kept i.kept t)
        (t ≡ TheStatus.NullPointer) }
{
    add_at(alloc, reply, section, owner, rtype, class, ttl, rdata) as u32
}

/// A record of a name in wire form, or why it is none.
fn plain_in<'a>(
    owner: &'a [u8],
    rtype: u16,
    class: u16,
    ttl: u32,
    rdata: &'a [u8],
) -> Result<PlainRecord<'a>, Status>
    ensures { IsPlain (plain_in owner.now rtype class ttl rdata.now) result }
{
    if rdata.len() > 65535 {
        return Err(Status::TooLong);
    }
    let Ok(owner) = NameRef::from_slice(owner) else {
        return Err(Status::Unreadable);
    };
    Ok(PlainRecord {
        owner,
        rtype: Rtype::from_int(rtype),
        class: Class::from_int(class),
        ttl: Ttl::from_secs(ttl),
        rdata,
    })
}

/// Adds a record, by its status.
fn add_at(
    alloc: Global,
    reply: &mut [Handle],
    section: u32,
    owner: &[u8],
    rtype: u16,
    class: u16,
    ttl: u32,
    rdata: &[u8],
) -> Status
    ensures { OfFirst reply.old reply.new
        (λ h i. AddsBy (section_of section) (plain_in owner.now rtype class ttl rdata.now) h.kept i.kept result)
        (result ≡ Status.NullPointer) }
{
    let [reply, ..] = reply else {
        return Status::NullPointer;
    };
    let Some(section) = section_of(section) else {
        return Status::OutOfRange;
    };
    match plain_in(owner, rtype, class, ttl, rdata) {
        Ok(record) => add_in(alloc, reply, section, &record),
        Err(status) => status,
    }
}

/// Adds a record to what a handle holds.
fn add_in(alloc: Global, reply: &mut Handle, section: Section, added: &PlainRecord<'_>) -> Status
    requires { length added.now.rdata.now ≤ 65535 }
    ensures { AddsHeld section (plain_record added.now) reply.old.kept reply.new.kept result }
{
    let Some(mut kept) = reply.take(alloc) else {
        return Status::NoHandle;
    };
    let status = match &mut *kept {
        HandleValue::Reply(held) => added_status(held.add(alloc, section, added)),
        _ => Status::NoHandle,
    };
    reply.put(kept);
    status
}

/// What became of an addition.
fn added_status(added: Result<(), AddError>) -> Status
    ensures { result ≡ added_status added }
{
    match added {
        Ok(()) => Status::Done,
        Err(AddError::Unreadable) => Status::Unreadable,
        Err(AddError::Order) => Status::OutOfRange,
        Err(AddError::TooLong) => Status::TooLong,
        Err(AddError::OutOfMemory) => Status::NoMemory,
    }
}

/// Adds an option after those of a reply's OPT record (RFC 6891, section 6.1.1), which is its last additional record then.
#[unsafe(no_mangle)]
pub extern "C" fn nutscythe_raw_reply_option(
    alloc: Global,
    reply: &mut [Handle],
    code: u16,
    octets: &[u8],
) -> u32
    ensures { (t : TheStatus) × (result ≡ number t)
        × OfFirst reply.old reply.new (λ h i. AddsOption code octets.now h.kept i.kept t) (t ≡ TheStatus.NullPointer) }
{
    option_at(alloc, reply, code, octets) as u32
}

/// Adds an option, by its status.
fn option_at(alloc: Global, reply: &mut [Handle], code: u16, octets: &[u8]) -> Status
    ensures { OfFirst reply.old reply.new (λ h i. AddsOption code octets.now h.kept i.kept result) (result ≡ Status.NullPointer) }
{
    let [reply, ..] = reply else {
        return Status::NullPointer;
    };
    let Some(mut kept) = reply.take(alloc) else {
        return Status::NoHandle;
    };
    let code = OptionCode::from_int(code);
    let status = match &mut *kept {
        HandleValue::Reply(held) => added_status(held.add_option(alloc, code, octets)),
        _ => Status::NoHandle,
    };
    reply.put(kept);
    status
}

/// Writes a reply that was built as it is sent, rewritten by the rule of its request. One that was written before stays as it was
/// rewritten then.
#[unsafe(no_mangle)]
pub extern "C" fn nutscythe_raw_reply_write(
    alloc: Global,
    reply: &mut [Handle],
    rule: &[Rule],
    octets: &mut [u8],
    octets_len: &mut [usize],
) -> u32
    ensures missing { result ≡ 22 → (reply.new ≡ reply.old) × (octets.new ≡ octets.old) × (octets_len.new ≡ octets_len.old) }
    ensures written { (t : TheStatus) × (result ≡ number t)
        × OfOne rule.now (λ r. OfFirst reply.old reply.new (λ h i. OfFirst octets_len.old octets_len.new
        (λ n l. WritesBy (rule_in r) h.kept i.kept octets.old octets.new n l t)
        (t ≡ TheStatus.NullPointer)) (t ≡ TheStatus.NullPointer)) (t ≡ TheStatus.NullPointer) }
{
    write_at(alloc, reply, rule, octets, octets_len) as u32
}

/// Writes a reply, by its status.
fn write_at(
    alloc: Global,
    reply: &mut [Handle],
    rule: &[Rule],
    octets: &mut [u8],
    octets_len: &mut [usize],
) -> Status
    ensures missing { result ≡ Status.NullPointer → (reply.new ≡ reply.old) × (octets.new ≡ octets.old)
        × (octets_len.new ≡ octets_len.old) }
    ensures written { OfOne rule.now (λ r. OfFirst reply.old reply.new (λ h i. OfFirst octets_len.old octets_len.new
        (λ n l. WritesBy (rule_in r) h.kept i.kept octets.old octets.new n l result)
        (result ≡ Status.NullPointer)) (result ≡ Status.NullPointer)) (result ≡ Status.NullPointer) }
{
    let [rule, ..] = rule else {
        return Status::NullPointer;
    };
    let [reply, ..] = reply else {
        return Status::NullPointer;
    };
    let [octets_len, ..] = octets_len else {
        return Status::NullPointer;
    };
    write_in(alloc, reply, &rule.rule(), octets, octets_len)
}

/// Writes the reply that a handle holds.
fn write_in(
    alloc: Global,
    reply: &mut Handle,
    rule: &ReplyRule,
    octets: &mut [u8],
    octets_len: &mut usize,
) -> Status
    ensures given { result ≢ Status.NullPointer }
    ensures written { WritesBy rule.now reply.old.kept reply.new.kept octets.old octets.new octets_len.old octets_len.new result }
{
    let Some(mut kept) = reply.take(alloc) else {
        return Status::NoHandle;
    };
    let status = match &mut *kept {
        HandleValue::Reply(held) => write(alloc, held, rule, octets, octets_len),
        _ => Status::NoHandle,
    };
    reply.put(kept);
    status
}

/// Writes a reply, rewritten by a rule.
fn write(
    alloc: Global,
    held: &mut ServiceReply,
    rule: &ReplyRule,
    octets: &mut [u8],
    octets_len: &mut usize,
) -> Status
    ensures given { result ≢ Status.NullPointer }
    ensures written { WritesReply rule.now held.old held.new octets.old octets.new octets_len.old octets_len.new result }
{
    let _rewritten = held.rewrite(alloc, rule);
    match held.rewritten() {
        Some(built) => put_reply(built, octets, octets_len),
        None => Status::NoMemory,
    }
}
