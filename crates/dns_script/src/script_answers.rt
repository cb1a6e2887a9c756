//! The answers of a script, made for a message.

ghost use Rattle.std.specs.Prelude.{◌≡◌, IfErr, IfOk, MatchOption, OnOk, Some, replicate, true, false};
ghost use Rattle.dns_base.specs.Built.{with_answer};
ghost use Rattle.dns_base.specs.Records.{IsLawful, record_of};
ghost use Rattle.dns_base.specs.Replies.{answer_to, have_room, within_limit};
ghost use Rattle.dns_opt.specs.Drafts.{with_opt, with_opt_record};
ghost use Rattle.dns_script.specs.Played.{PutsPadding, blank_reply, answered_with, given, new_builder, opt_reply, padded_draft, played_reply, private_record, replied_within, reply_item, item_with_feedback};

use crate::rule::{ScriptAnswer, ScriptReply};
use dns_base::{
    AdditionalBuilder, AnswerBuilder, Message, MessageBuilder, PushError, Record, RecordData,
};
use dns_name::{BuildDataError, Class, Name, Octets, OutOfMemory, Rcode, Rtype, Ttl};
use dns_opt::{BuildOpt, OptBuilder};
use dns_service::{CallResult, Polled, ServiceError, ServiceFeedback, ServiceResult};
use std::alloc::Global;

/// One answer to a message.
#[inline(always)]
pub fn make_answer(
    alloc: Global,
    message: &Message,
    answer: &ScriptAnswer,
    memory: Vec<u8>,
) -> Result<Polled<Option<ServiceResult>>, OutOfMemory>
    ensures { IfOk result (λ p. p ≡ given message.now answer.now) }
{
    match *answer {
        ScriptAnswer::Pend => Ok(Polled::Pending),
        ScriptAnswer::Error(error) => Ok(Polled::Ready(Some(Err(error)))),
        ScriptAnswer::Feedback(feedback) => {
            Ok(Polled::Ready(Some(Ok(CallResult::feedback_only(feedback)))))
        }
        ScriptAnswer::Reply(reply) => {
            let item = make_item(alloc, message, reply, memory)?;
            Ok(Polled::Ready(Some(item)))
        }
        ScriptAnswer::Both(feedback, reply) => make_both(alloc, message, feedback, reply, memory),
    }
}

/// A reply to a message, or the error `servfail` if something has no room.
#[inline(always)]
fn make_item(
    alloc: Global,
    message: &Message,
    reply: ScriptReply,
    memory: Vec<u8>,
) -> Result<ServiceResult, OutOfMemory>
    ensures { IfOk result (λ i. i ≡ reply_item message.now reply) }
{
    match reply {
        ScriptReply::Rcode(rcode) => make_reply(alloc, message, rcode, memory),
        ScriptReply::Blank(rcode) => make_blank(alloc, rcode),
        ScriptReply::Fill(len) => make_answered(alloc, message, Ttl::from_secs(0), len),
        ScriptReply::Opt(len) => make_padded(alloc, message, len),
        ScriptReply::Live(ttl) => make_answered(alloc, message, ttl, 0),
    }
}

/// A reply to a message with a feedback. An error has none.
fn make_both(
    alloc: Global,
    message: &Message,
    feedback: ServiceFeedback,
    reply: ScriptReply,
    memory: Vec<u8>,
) -> Result<Polled<Option<ServiceResult>>, OutOfMemory>
    ensures { IfOk result (λ p. p ≡ Polled.Ready (Some (item_with_feedback feedback (reply_item message.now reply)))) }
{
    match make_item(alloc, message, reply, memory)? {
        Ok(given) => Ok(Polled::Ready(Some(Ok(given.with_feedback(feedback))))),
        Err(error) => Ok(Polled::Ready(Some(Err(error)))),
    }
}

/// An answer to a message is begun; none if there is no room for the questions.
#[inline(always)]
pub(crate) fn begin(
    alloc: Global,
    message: &Message,
    rcode: Rcode,
) -> Result<Option<AnswerBuilder>, OutOfMemory>
    ensures { IfOk result (λ o. MatchOption o (have_room new_builder message.now rcode ≡ false)
        (λ b. (b ≡ answer_to new_builder message.now rcode) × (have_room new_builder message.now rcode ≡ true))) }
{
    begin_in(alloc, message, rcode, Vec::new(alloc))
}

/// An answer to a message is begun in memory that is given; none if there is no room for the questions.
#[inline(always)]
fn begin_in(
    alloc: Global,
    message: &Message,
    rcode: Rcode,
    memory: Vec<u8>,
) -> Result<Option<AnswerBuilder>, OutOfMemory>
    ensures { IfOk result (λ o. MatchOption o (have_room new_builder message.now rcode ≡ false)
        (λ b. (b ≡ answer_to new_builder message.now rcode) × (have_room new_builder message.now rcode ≡ true))) }
{
    match MessageBuilder::start_answer_in(alloc, memory, message, rcode) {
        Ok(reply) => Ok(Some(reply)),
        Err(PushError::ShortBuf) => Ok(None),
        Err(PushError::OutOfMemory) => Err(OutOfMemory),
    }
}

/// A reply with this response code, or the error `servfail` if the questions have no room.
#[inline(always)]
fn make_reply(
    alloc: Global,
    message: &Message,
    rcode: Rcode,
    memory: Vec<u8>,
) -> Result<ServiceResult, OutOfMemory>
    ensures { IfOk result (λ i. i ≡ played_reply message.now rcode) }
{
    match begin_in(alloc, message, rcode, memory)? {
        Some(reply) => Ok(Ok(CallResult::new(reply.additional()))),
        None => Ok(Err(ServiceError::InternalError)),
    }
}

/// A reply that is a header alone.
fn make_blank(alloc: Global, rcode: Rcode) -> Result<ServiceResult, OutOfMemory>
    ensures { IfOk result (λ i. i ≡ blank_reply rcode) }
{
    let mut reply = MessageBuilder::new(alloc)?;
    let mut header = reply.header();
    header.rcode = rcode;
    reply.set_header(header);
    Ok(Ok(CallResult::new(reply.additional())))
}

/// A reply with an answer of this time to live and that many zeros, or the error `servfail` if
/// something has no room.
fn make_answered(
    alloc: Global,
    message: &Message,
    ttl: Ttl,
    len: u16,
) -> Result<ServiceResult, OutOfMemory>
    ensures { IfOk result (λ i. i ≡ answered_with message.now (private_record ttl (replicate len 0))) }
{
    match begin(alloc, message, Rcode::NOERROR)? {
        Some(reply) => append(alloc, reply, ttl, len),
        None => Ok(Err(ServiceError::InternalError)),
    }
}

/// What is begun with an answer of this time to live and that many zeros more.
fn append(
    alloc: Global,
    reply: AnswerBuilder,
    ttl: Ttl,
    len: u16,
) -> Result<ServiceResult, OutOfMemory>
    ensures { IfOk result (λ i. i ≡ replied_within (with_answer reply (private_record ttl (replicate len 0)))
        (with_answer reply (private_record ttl (replicate len 0)))) }
{
    let mut reply = reply;
    match put_zeros(&mut reply, alloc, ttl, len) {
        Ok(()) => Ok(Ok(CallResult::new(reply.additional()))),
        Err(PushError::ShortBuf) => Ok(Err(ServiceError::InternalError)),
        Err(PushError::OutOfMemory) => Err(OutOfMemory),
    }
}

/// Appends an answer of this time to live and that many zeros, if it has room.
fn put_zeros(reply: &mut AnswerBuilder, alloc: Global, ttl: Ttl, len: u16) -> Result<(), PushError>
    ensures added { OnOk result ((reply.new ≡ with_answer reply.old (private_record ttl (replicate len 0)))
        × (within_limit (with_answer reply.old (private_record ttl (replicate len 0))) ≡ true)) }
    ensures full { IfErr result (λ e. e ≡ PushError.ShortBuf
        → within_limit (with_answer reply.old (private_record ttl (replicate len 0))) ≡ false) }
{
    match zeros(alloc, ttl, len) {
        Ok(record) => reply.push(alloc, &record),
        Err(OutOfMemory) => Err(PushError::OutOfMemory),
    }
}

/// The record of this time to live and that many zeros.
fn zeros(alloc: Global, ttl: Ttl, len: u16) -> Result<Record, OutOfMemory>
    ensures value { IfOk result (λ r. record_of r ≡ private_record ttl (replicate len 0)) }
    ensures lawful { IfOk result (λ r. IsLawful r.rdata) }
{
    let octets = Octets::from_vec(vec![in alloc; 0u8; len as usize]?);
    let owner = Name::root(alloc)?;
    let rtype = Rtype::from_int(65280);
    Ok(Record {
        owner,
        class: Class::IN,
        ttl,
        rdata: RecordData::Unknown { rtype, octets },
    })
}

/// A reply with an OPT record of that many zeros, or the error `servfail` if something has no room.
fn make_padded(alloc: Global, message: &Message, len: u16) -> Result<ServiceResult, OutOfMemory>
    ensures { IfOk result (λ i. i ≡ opt_reply message.now len) }
{
    match begin(alloc, message, Rcode::NOERROR)? {
        Some(reply) => pad(alloc, reply.additional(), len),
        None => Ok(Err(ServiceError::InternalError)),
    }
}

/// What is begun with an OPT record of that many zeros more.
fn pad(alloc: Global, reply: AdditionalBuilder, len: u16) -> Result<ServiceResult, OutOfMemory>
    ensures { IfOk result (λ i. i ≡ replied_within (with_opt_record (padded_draft reply len) reply)
        (with_opt (padded_draft reply len) reply)) }
{
    let mut reply = reply;
    match put_padding(&mut reply, alloc, len) {
        Ok(()) => Ok(Ok(CallResult::new(reply))),
        Err(BuildDataError::OutOfMemory) => Err(OutOfMemory),
        Err(_) => Ok(Err(ServiceError::InternalError)),
    }
}

/// Appends an OPT record with that many zeros.
fn put_padding(reply: &mut AdditionalBuilder, alloc: Global, len: u16) -> Result<(), BuildDataError>
    ensures { PutsPadding (padded_draft reply.old len) reply.old reply.new result }
{
    let _limited = reply.push_limit();
    reply.opt(alloc, |opt: &mut OptBuilder| opt.padding(alloc, len))
}
