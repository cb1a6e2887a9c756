//! What a request of opcode NOTIFY asks a target (RFC 1996, section 3).

ghost use Rattle.std.specs.Prelude.{◌≡◌, IfOk};
ghost use Rattle.dns_service.specs.declared.message.Request.{Request};
ghost use Rattle.dns_service.specs.Asked.{asked_of};
ghost use Rattle.dns_base.specs.Sections.{first_of, questions_of};
ghost use Rattle.dns_layers.specs.Notify.{notice_by, notice_of, serial_among, serial_read, soa_serial, notified_serial};

use dns_base::{
    Class, IpAddr, Message, Name, Opcode, OutOfMemory, ParseError, QuestionRef, Record, RecordData,
    RecordIter, RecordRef, Rtype, Serial,
};
use dns_service::{Asked, Request};
use std::alloc::Global;

/// What a target is asked.
#[derive(Debug, Drop)]
pub struct Notice {
    /// The class of the zone.
    pub class: Class,
    /// The name of the zone.
    pub apex_name: Name,
    /// The serial that the sender says the zone has, if it does.
    pub serial: Option<Serial>,
    /// The sender.
    pub source: IpAddr,
}

/// What a request asks the target, if this was read of the request.
#[inline(always)]
pub fn notice_of<Meta>(
    alloc: Global,
    request: &Request<Meta>,
    asked: &Asked,
) -> Result<Option<Notice>, OutOfMemory>
    requires { asked.now ≡ asked_of request.now.octets }
    ensures { IfOk result (λ notice. notice ≡ notice_of request.now) }
{
    if asked.opcode != Opcode::NOTIFY {
        return Ok(None);
    }
    notice_in(alloc, request.message(), request.client_addr().ip)
}

/// What a message from a sender asks, if its first question is for a zone's start.
fn notice_in(
    alloc: Global,
    message: &Message,
    source: IpAddr,
) -> Result<Option<Notice>, OutOfMemory>
    ensures { IfOk result (λ notice. notice ≡ notice_by message.now source (first_of (questions_of message.now).0)) }
{
    let Some(question) = message.first_question() else {
        return Ok(None);
    };
    if question.qtype() != Rtype::SOA {
        return Ok(None);
    }
    let notice = made_notice(alloc, message, &question, source)?;
    Ok(Some(notice))
}

/// What a message asks by a question.
fn made_notice(
    alloc: Global,
    message: &Message,
    question: &QuestionRef<'_>,
    source: IpAddr,
) -> Result<Notice, OutOfMemory>
    ensures { IfOk result (λ n. n ≡ record {
      class = question.now.qclass;
      apex_name = question.now.qname;
      serial = notified_serial message.now;
      source = source;
    }) }
{
    let apex_name = question.qname().to_name(alloc)?;
    let serial = notified_serial(alloc, message)?;
    Ok(Notice {
        class: question.qclass(),
        apex_name,
        serial,
        source,
    })
}

/// The serial in the first answer, if that is a zone's start and can be read.
fn notified_serial(alloc: Global, message: &Message) -> Result<Option<Serial>, OutOfMemory>
    ensures { IfOk result (λ s. s ≡ notified_serial message.now) }
{
    match message.answer() {
        Ok(records) => first_serial(alloc, records),
        Err(_) => Ok(None),
    }
}

/// The serial in the first of some records.
fn first_serial(alloc: Global, records: RecordIter<'_>) -> Result<Option<Serial>, OutOfMemory>
    ensures { IfOk result (λ s. s ≡ serial_among records.entry) }
{
    let mut left = records;
    match left.next() {
        Some(Ok(record)) => serial_in(alloc, &record),
        _ => Ok(None),
    }
}

/// The serial in a record, if that is a zone's start and can be read.
fn serial_in(alloc: Global, resource: &RecordRef<'_>) -> Result<Option<Serial>, OutOfMemory>
    ensures { IfOk result (λ s. s ≡ serial_read resource.now.content) }
{
    match resource.to_record(alloc) {
        Ok(record) => Ok(serial_of(record)),
        Err(ParseError::OutOfMemory) => Err(OutOfMemory),
        Err(_) => Ok(None),
    }
}

/// The serial of a record, if that is a zone's start.
fn serial_of(resource: Record) -> Option<Serial>
    ensures { result ≡ soa_serial resource.rdata }
{
    soa_serial(&resource.rdata)
}

/// The serial of a zone's start.
fn soa_serial(rdata: &RecordData) -> Option<Serial>
    ensures { result ≡ soa_serial rdata.now }
{
    match rdata {
        RecordData::Soa { serial, .. } => Some(*serial),
        _ => None,
    }
}
