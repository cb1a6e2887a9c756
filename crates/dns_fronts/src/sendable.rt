//! The message that an upstream is asked for a request.

ghost use Rattle.std.specs.Prelude.{◌≡◌, ◌≤◌, ◌++◌, ◌∷◌, [], length, IfOk, IfSome, OnOk};
ghost use Rattle.dns_base.specs.Header.{header_octets};
ghost use Rattle.dns_base.specs.Msg.{HasName};
ghost use Rattle.dns_base.specs.Wire.{question_octets, wire};
ghost use Rattle.dns_fronts.specs.Layered.{AsksAlone, asks_alone, lone_question, message_sent, sendable};

use dns_base::{ComposeQuestion, Header, HeaderCounts, Message, PushError, QuestionRef};
use dns_route::RequestMessage;
use dns_route::request::Error;
use dns_service::{OutOfMemory, Request};
use std::alloc::Global;

/// The message that is sent on for a request: without its OPT record, or with one of our own that keeps the DO bit and client
/// subnets. None if the request can't be read, or if the message would have more than 65,535 octets.
pub(crate) fn sendable(alloc: Global, request: &Request<()>) -> Result<Option<Message>, OutOfMemory>
    ensures { IfOk result (λ m. m ≡ sendable request.now.octets) }
{
    let message = request.message();
    match only_question(message) {
        Some(question) => {
            let sent = lone_message(alloc, message.header(), &question)?;
            Ok(Some(sent))
        }
        None => read_sendable(alloc, request),
    }
}

/// Whether a header states one question and no records.
pub(crate) fn asks_alone(counts: HeaderCounts) -> bool
    ensures { result ≡ asks_alone counts }
{
    counts.qdcount == 1 && counts.ancount == 0 && counts.nscount == 0 && counts.arcount == 0
}

/// The question of a message that has no records, so that it needn't be read to be sent.
fn only_question(message: &Message) -> Option<QuestionRef<'_>>
    ensures { IfSome result (λ q. AsksAlone message.now q) }
{
    let counts = message.header_counts();
    match message.first_question() {
        Some(question) if asks_alone(counts) => Some(question),
        _ => None,
    }
}

/// The message of a header and one question.
fn lone_message(
    alloc: Global,
    header: Header,
    question: &QuestionRef<'_>,
) -> Result<Message, OutOfMemory>
    ensures value { IfOk result (λ m. m ≡ wire (lone_question header question.now)) }
    ensures named { IfOk result (λ m. HasName question.now) }
{
    let octets = lone_octets(alloc, header, question)?;
    Ok(Message::of(octets))
}

/// The octets of a header that states one question, and of that question.
fn lone_octets(
    alloc: Global,
    header: Header,
    question: &QuestionRef<'_>,
) -> Result<Vec<u8>, OutOfMemory>
    ensures octets { IfOk result (λ v. v.items
        ≡ (header_octets header ++ (0 ∷ 1 ∷ 0 ∷ 0 ∷ 0 ∷ 0 ∷ 0 ∷ 0 ∷ [])) ++ question_octets question.now) }
    ensures header { IfOk result (λ v. 12 ≤ length v.items) }
    ensures named { IfOk result (λ v. HasName question.now) }
{
    let mut octets = Vec::with_capacity(alloc, 12 + question.compose_len())?;
    push_head(header, &mut octets)?;
    question.compose_question(alloc, &mut octets)?;
    Ok(octets)
}

/// Appends a header that states one question.
fn push_head(header: Header, target: &mut Vec<u8>) -> Result<(), OutOfMemory>
    ensures { OnOk result (target.new.items
        ≡ target.old.items ++ (header_octets header ++ (0 ∷ 1 ∷ 0 ∷ 0 ∷ 0 ∷ 0 ∷ 0 ∷ 0 ∷ []))) }
{
    target.extend_from_slice(&header.octets())?;
    target.extend_from_slice(&[0, 1, 0, 0, 0, 0, 0, 0])?;
    Ok(())
}

/// The message that is sent on for a request, which is read for it.
fn read_sendable(alloc: Global, request: &Request<()>) -> Result<Option<Message>, OutOfMemory>
    ensures { IfOk result (λ m. m ≡ sendable request.now.octets) }
{
    match RequestMessage::try_from(alloc, request) {
        Ok(sent) => message_sent(alloc, &sent),
        Err(Error::Unreadable(_)) => Ok(None),
        Err(Error::OutOfMemory) => Err(OutOfMemory),
    }
}

/// The message that a request is sent as.
fn message_sent(alloc: Global, sent: &RequestMessage) -> Result<Option<Message>, OutOfMemory>
    ensures { IfOk result (λ m. m ≡ message_sent sent.now) }
{
    match sent.to_message(alloc) {
        Ok(message) => Ok(Some(message)),
        Err(PushError::ShortBuf) => Ok(None),
        Err(PushError::OutOfMemory) => Err(OutOfMemory),
    }
}
