//! Which octets answer a message that was sent.

ghost use Rattle.std.specs.Prelude.{◌≡◌, ◌≤◌, length, IfOk};
ghost use Rattle.dns_name.specs.Canonical.{same_name};
ghost use Rattle.dns_base.specs.Equality.{same_question};
ghost use Rattle.dns_base.specs.Header.{header_of};
ghost use Rattle.dns_forward.specs.Matching.{both_ask, is_answer, responds, single_question, with_id};

use dns_base::{Header, Message, MessageRef, Question, QuestionRef};
use dns_name::{Name, Opcode, OutOfMemory, ParsedName};
use std::alloc::Global;

/// What an answer has: the identifier that the message was sent under, its opcode, and its question. Without a single
/// readable question there is no answer.
#[derive(Debug, Drop)]
pub(crate) struct Expected {
    pub(crate) id: u16,
    pub(crate) opcode: Opcode,
    pub(crate) question: Option<Question>,
}

impl Expected {
    /// What the answer to a message has that is sent under an identifier.
    pub(crate) fn of(alloc: Global, message: &Message, id: u16) -> Result<Expected, OutOfMemory>
        ensures id { IfOk result (λ e. e.id ≡ id) }
        ensures opcode { IfOk result (λ e. e.opcode ≡ (header_of message.now).opcode) }
        ensures question { IfOk result (λ e. e.question ≡ single_question message.now) }
    {
        let question = asked_question(alloc, message)?;
        Ok(Expected {
            id,
            opcode: message.header().opcode(),
            question,
        })
    }

    /// Whether a header is that of the answer.
    fn is_header(&self, header: Header) -> bool
        ensures { result ≡ responds self.now.id self.now.opcode header }
    {
        header.id == self.id && header.qr && header.opcode == self.opcode
    }

    /// Whether a question is there and is the one that was asked.
    fn is_question(&self, found: Option<QuestionRef<'_>>) -> bool
        ensures { result ≡ both_ask self.now.question found.entry }
    {
        match (&self.question, found) {
            (Some(asked), Some(found)) => is_same(asked, &found),
            _ => false,
        }
    }

    /// Whether octets are the answer.
    pub(crate) fn is_answer(&self, octets: &[u8]) -> bool
        ensures { result ≡ is_answer self.now.id self.now.opcode self.now.question octets.now }
    {
        match MessageRef::from_slice(octets) {
            Ok(message) => {
                self.is_header(message.header()) && self.is_question(single_question(&message))
            }
            Err(_) => false,
        }
    }
}

/// The question of a message that has one alone, if it is readable.
fn single_question<'a>(message: &MessageRef<'a>) -> Option<QuestionRef<'a>>
    ensures { result ≡ single_question message.now }
{
    if message.header_counts().qdcount() == 1 {
        return message.first_question();
    }
    None
}

/// A message's question, copied, if it has exactly one that can be read.
fn asked_question(alloc: Global, message: &Message) -> Result<Option<Question>, OutOfMemory>
    ensures { IfOk result (λ q. q ≡ single_question message.now) }
{
    match single_question(&message.for_ref()) {
        Some(question) => {
            let owned = question.to_question(alloc)?;
            Ok(Some(owned))
        }
        None => Ok(None),
    }
}

/// Whether names are the same up to ASCII case.
fn is_same_name(asked: &Name, found: &ParsedName<'_>) -> bool
    ensures { result ≡ same_name asked.now found.now }
{
    found.name_eq(&asked.for_ref())
}

/// Whether questions are the same: name up to ASCII case, type and class.
fn is_same(asked: &Question, found: &QuestionRef<'_>) -> bool
    ensures { result ≡ same_question asked.now found.now }
{
    is_same_name(&asked.qname, &found.qname())
        && asked.qtype == found.qtype()
        && asked.qclass == found.qclass()
}

/// A message under another identifier. The vector is not copied.
pub(crate) fn with_id(octets: Vec<u8>, id: u16) -> Message
    requires { 12 ≤ length octets.items }
    ensures { result ≡ with_id id octets.items }
{
    let mut octets = octets;
    octets[0] = (id / 256) as u8;
    octets[1] = (id % 256) as u8;
    Message::of(octets)
}
