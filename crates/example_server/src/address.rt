//! A service that knows one address: it answers a question for an address with it, and refuses all else.

ghost use Rattle.std.specs.Prelude.{◌≡◌, IfOk, MatchOption, Some, true, false};
ghost use Rattle.std.specs.Result.{ForOk};
ghost use Rattle.dns_base.specs.Built.{with_answer};
ghost use Rattle.dns_base.specs.Records.{IsLawful, record_of};
ghost use Rattle.dns_base.specs.Replies.{answer_to, have_room};
ghost use Rattle.example_server.specs.Address.{address_item, address_record, asks_address, authoritative, item_for, new_builder, replied_within};

use dns_base::{AnswerBuilder, Message, PushError, QuestionRef, Record, RecordData};
use dns_name::{Class, OutOfMemory, Rcode, Rtype, Ttl};
use dns_service::{CallResult, Gives, Request, ServiceError, ServiceResult, mk_builder_for_target};
use std::alloc::Global;

/// Names what the service gives of a request and of the address that stands beside it.
pub(crate) struct OneAddress {}

impl Gives<[u8; 4]> for OneAddress {
    ghost use Rattle.example_server.specs.Address.{address_item};

    ghost item = { λ request address. address_item request.octets address };
}

/// Answers a request by its first question.
pub(crate) fn answer(
    alloc: Global,
    request: &Request<()>,
    address: &[u8; 4],
) -> Result<ServiceResult, OutOfMemory>
    ensures { ForOk result (λ item. item ≡ address_item request.now.octets address.now) }
{
    match request.message().first_question() {
        Some(question) => answer_to_question(alloc, request.message(), &question, *address),
        None => Ok(Err(ServiceError::Refused)),
    }
}

/// The item for a question.
fn answer_to_question(
    alloc: Global,
    message: &Message,
    question: &QuestionRef<'_>,
    address: [u8; 4],
) -> Result<ServiceResult, OutOfMemory>
    ensures { IfOk result (λ i. i ≡ item_for message.now address (Some question.now)) }
{
    if !asks_address(question) {
        return Ok(Err(ServiceError::Refused));
    }
    let record = record_for(alloc, question, address)?;
    match begin(alloc, message)? {
        Some(reply) => append(alloc, reply, &record),
        None => Ok(Err(ServiceError::InternalError)),
    }
}

/// Whether a question is for an address.
fn asks_address(question: &QuestionRef<'_>) -> bool
    ensures { result ≡ asks_address question.now }
{
    question.qtype() == Rtype::A && question.qclass() == Class::IN
}

/// The record of the name that is asked for.
fn record_for(
    alloc: Global,
    question: &QuestionRef<'_>,
    address: [u8; 4],
) -> Result<Record, OutOfMemory>
    ensures value { IfOk result (λ r. record_of r ≡ address_record question.now.qname address) }
    ensures lawful { IfOk result (λ r. IsLawful r.rdata) }
{
    let owner = question.qname().to_name(alloc)?;
    Ok(Record {
        owner,
        class: Class::IN,
        ttl: Ttl::from_secs(60),
        rdata: RecordData::A(address),
    })
}

/// Begins the reply, with AA set. None if the questions have no room.
fn begin(alloc: Global, message: &Message) -> Result<Option<AnswerBuilder>, OutOfMemory>
    ensures { IfOk result (λ o. MatchOption o (have_room new_builder message.now 0 ≡ false)
        (λ b. (b ≡ authoritative (answer_to new_builder message.now 0)) × (have_room new_builder message.now 0 ≡ true))) }
{
    let builder = mk_builder_for_target(alloc)?;
    match builder.start_answer(alloc, message, Rcode::NOERROR) {
        Ok(mut reply) => {
            let mut header = reply.header();
            header.aa = true;
            reply.set_header(header);
            Ok(Some(reply))
        }
        Err(PushError::ShortBuf) => Ok(None),
        Err(PushError::OutOfMemory) => Err(OutOfMemory),
    }
}

/// Appends a record to a reply, which is done then.
fn append(alloc: Global, reply: AnswerBuilder, added: &Record) -> Result<ServiceResult, OutOfMemory>
    requires { IsLawful added.now.rdata }
    ensures { IfOk result (λ i. i ≡ replied_within (with_answer reply (record_of added.now))) }
{
    let mut reply = reply;
    match reply.push(alloc, added) {
        Ok(()) => Ok(Ok(CallResult::new(reply.additional()))),
        Err(PushError::ShortBuf) => Ok(Err(ServiceError::InternalError)),
        Err(PushError::OutOfMemory) => Err(OutOfMemory),
    }
}
