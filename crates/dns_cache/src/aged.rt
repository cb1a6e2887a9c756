//! Replies out of the cache.

ghost use Rattle.std.specs.Prelude.{◌≡◌, ◌≤◌, ◌+◌, ◌++◌, ◌∷◌, [], drop, length, take, IfOk, IsTrue, Ok, OnErr, OnOk};
ghost use Rattle.dns_name.specs.Place.{four};
ghost use Rattle.dns_base.specs.Header.{IsHeader, header_octets, header_of};
ghost use Rattle.dns_base.specs.Msg.{HasName, IsMessage};
ghost use Rattle.dns_base.specs.Sections.{message_of, questions_of};
ghost use Rattle.dns_base.specs.Wire.{question_octets, wire};
ghost use Rattle.dns_route.specs.ReplyMessage.{reply_message};
ghost use Rattle.dns_cache.specs.Aged.{aged, asked_header};
ghost use Rattle.dns_cache.specs.AskedCache.{bare_octets, fits_frame, young_message};
ghost use Rattle.dns_cache.specs.Steps.{ComposesShort, GivesBuilt, GivesMessage, age_of};
ghost use Rattle.dns_cache.specs.Keys.{AsksOnce};
ghost use Rattle.dns_cache.specs.Marks.{IsKept, MarksFit, aged_octets, aged_ttl};

use crate::built::{built_message, built_reply};
use crate::cached_reply::{CachedReply, own_opt};
use crate::marks::Mark;
use dns_base::{AdditionalBuilder, ComposeQuestion, Header, Message, QuestionRef};
use dns_route::ReplyMessage;
use dns_service::{OutOfMemory, ReplyError, Request};
use std::alloc::Global;

impl CachedReply {
    /// The reply as a request gets it, if it is young.
    pub(crate) fn aged(
        &self,
        alloc: Global,
        request: &Request<()>,
    ) -> Result<Option<ReplyMessage>, OutOfMemory>
        requires { AsksOnce request.now.octets }
        ensures { IfOk result (λ r. GivesMessage (young_message request.now self.now) r) }
    {
        let Some(age) = self.age(request.received_secs()) else {
            return Ok(None);
        };
        match request.message().first_question() {
            Some(question) if self.fits(&question) => {
                let reply = self.reply(alloc, request.message(), &question, age)?;
                Ok(Some(reply))
            }
            _ => Ok(None),
        }
    }

    /// The age in s at a moment's seconds, if the reply is young.
    fn age(&self, secs: u64) -> Option<u32>
        ensures { result ≡ age_of self.now secs }
    {
        match secs.checked_sub(self.secs) {
            Some(age) if age < self.least as u64 => Some(age as u32),
            _ => None,
        }
    }

    /// The reply to the one question of a request, with its TTLs lowered by an age, if that fits.
    fn reply(
        &self,
        alloc: Global,
        request: &Message,
        question: &QuestionRef<'_>,
        age: u32,
    ) -> Result<ReplyMessage, OutOfMemory>
        requires asked { (questions_of request.now).0 ≡ question.now ∷ [] }
        requires fits { IsTrue (fits_frame (aged self.now.message request.now age)) }
        ensures message { IfOk result (λ r. reply_message r ≡ Ok (aged self.now.message request.now age)) }
        ensures octets { IfOk result (λ r. r.octets ≡ bare_octets (aged self.now.message request.now age)) }
    {
        match &self.opt {
            Some(_) => self.reply_with_opt(alloc, request, question, age),
            None => built_reply(
                alloc,
                &self.message,
                self.start,
                self.marks.as_slice(),
                request,
                question,
                age,
            ),
        }
    }

    /// The message as a request of one question gets it, built, if the reply is young.
    pub(crate) fn aged_message(
        &self,
        alloc: Global,
        request: &Request<()>,
        question: &QuestionRef<'_>,
    ) -> Result<Option<AdditionalBuilder>, OutOfMemory>
        requires { (questions_of request.now.octets).0 ≡ question.now ∷ [] }
        ensures { IfOk result (λ b. GivesBuilt (young_message request.now self.now) b) }
    {
        let Some(age) = self.age(request.received_secs()) else {
            return Ok(None);
        };
        if !self.fits(question) {
            return Ok(None);
        }
        let built = self.message_for(alloc, request.message(), question, age)?;
        Ok(Some(built))
    }

    /// The message that answers the one question of a request, built, with its TTLs lowered by an age, if that fits.
    fn message_for(
        &self,
        alloc: Global,
        request: &Message,
        question: &QuestionRef<'_>,
        age: u32,
    ) -> Result<AdditionalBuilder, OutOfMemory>
        requires asked { (questions_of request.now).0 ≡ question.now ∷ [] }
        requires fits { IsTrue (fits_frame (aged self.now.message request.now age)) }
        ensures { IfOk result (λ b. b.message ≡ aged self.now.message request.now age) }
    {
        match &self.opt {
            Some(_) => {
                let reply = self.reply_with_opt(alloc, request, question, age)?;
                composed(alloc, reply)
            }
            None => built_message(
                alloc,
                &self.message,
                self.start,
                self.marks.as_slice(),
                request,
                question,
                age,
            ),
        }
    }

    /// The reply as octets, and its OPT record beside them.
    fn reply_with_opt(
        &self,
        alloc: Global,
        request: &Message,
        question: &QuestionRef<'_>,
        age: u32,
    ) -> Result<ReplyMessage, OutOfMemory>
        requires { (questions_of request.now).0 ≡ question.now ∷ [] }
        ensures message { IfOk result (λ r. reply_message r ≡ Ok (aged self.now.message request.now age)) }
        ensures octets { IfOk result (λ r. r.octets ≡ bare_octets (aged self.now.message request.now age)) }
    {
        let octets = octets_of(
            alloc,
            &self.message,
            self.start,
            self.marks.as_slice(),
            request,
            question,
            age,
        )?;
        let opt = own_opt(alloc, self.opt.as_ref())?;
        Ok(ReplyMessage::of(Message::of(octets), opt))
    }
}

/// The message that a reply is composed of, which fits.
fn composed(alloc: Global, reply: ReplyMessage) -> Result<AdditionalBuilder, OutOfMemory>
    requires { ComposesShort (reply_message reply) }
    ensures { IfOk result (λ b. reply_message reply ≡ Ok b.message) }
{
    match reply.into_builder(alloc) {
        Ok(built) => Ok(built),
        Err(ReplyError::Service(_)) => unreachable!(),
        Err(ReplyError::OutOfMemory) => Err(OutOfMemory),
    }
}

/// The octets of a message that is kept without its OPT record, as a request of one question gets it at an age.
fn octets_of(
    alloc: Global,
    message: &Message,
    start: usize,
    marks: &[Mark],
    request: &Message,
    question: &QuestionRef<'_>,
    age: u32,
) -> Result<Vec<u8>, OutOfMemory>
    requires kept { IsKept message.now start marks.now }
    requires asked { (questions_of request.now).0 ≡ question.now ∷ [] }
    ensures octets { IfOk result (λ v. v.items ≡ wire (aged (message_of message.now) request.now age)) }
    ensures lawful { IfOk result (λ v. IsMessage (aged (message_of message.now) request.now age)) }
    ensures header { IfOk result (λ v. 12 ≤ length v.items) }
{
    let mut octets = begun(alloc, message, request.header(), question)?;
    push_aged(&message.as_slice()[start..], marks, age, &mut octets)?;
    Ok(octets)
}

/// The header of a message as that of a reply to a request's, its counts, and one question; in memory for the whole message.
fn begun(
    alloc: Global,
    message: &Message,
    request: Header,
    question: &QuestionRef<'_>,
) -> Result<Vec<u8>, OutOfMemory>
    requires { length message.now ≤ 65535 }
    ensures octets { IfOk result (λ v. v.items
        ≡ header_octets (asked_header (header_of message.now) request)
        ++ (0 ∷ 1 ∷ (take 6 (drop 6 message.now) ++ question_octets question.now))) }
    ensures header { IfOk result (λ v. IsHeader (asked_header (header_of message.now) request)) }
    ensures named { IfOk result (λ v. HasName question.now) }
{
    let size = message.as_slice().len() + question.compose_len();
    let mut octets = Vec::with_capacity(alloc, size)?;
    push_head(message, request, &mut octets)?;
    question.compose_question(alloc, &mut octets)?;
    Ok(octets)
}

/// Appends the header of a message as that of a reply to a request's, the count of one question, and the other counts.
fn push_head(message: &Message, request: Header, target: &mut Vec<u8>) -> Result<(), OutOfMemory>
    ensures octets { OnOk result (target.new.items
        ≡ target.old.items ++ (header_octets (asked_header (header_of message.now) request) ++ (0 ∷ 1 ∷ take 6 (drop 6 message.now)))) }
    ensures header { OnOk result (IsHeader (asked_header (header_of message.now) request)) }
{
    let header = asked(message.header(), request);
    target.extend_from_slice(&header.octets())?;
    target.extend_from_slice(&[0, 1])?;
    target.extend_from_slice(&message.as_slice()[6..12])?;
    Ok(())
}

/// A header with a request's identifier and RD bit.
pub(crate) fn asked(header: Header, request: Header) -> Header
    ensures { result ≡ asked_header header request }
{
    Header {
        id: request.id,
        rd: request.rd,
        ..header
    }
}

/// Appends marked records, their TTLs lowered by an age.
fn push_aged(
    records: &[u8],
    marks: &[Mark],
    age: u32,
    target: &mut Vec<u8>,
) -> Result<(), OutOfMemory>
    requires { MarksFit marks.now records.now }
    ensures { OnOk result (target.new.items ≡ target.old.items ++ aged_octets age marks.now records.now) }
{
    let mut left = records;
    'marks: for mark in marks {
        let (record, behind) = left.split_at(mark.size as usize);
        push_record(record, *mark, age, target)?;
        left = behind;
    }
    Ok(())
}

/// Appends a record with its TTL lowered by an age; nothing if there is no memory.
pub(crate) fn push_record(
    octets: &[u8],
    mark: Mark,
    age: u32,
    target: &mut Vec<u8>,
) -> Result<(), OutOfMemory>
    requires { mark.before + 4 ≤ length octets.now }
    ensures ok { OnOk result (target.new.items ≡ target.old.items
        ++ (take mark.before octets.now ++ (four (aged_ttl age mark) ++ drop (mark.before + 4) octets.now))) }
    ensures err { OnErr result (target.new.items ≡ target.old.items) }
{
    let before = mark.before as usize;
    target.reserve(octets.len())?;
    target.extend_from_slice(&octets[..before])?;
    target.extend_from_slice(&four_octets(mark.aged(age)))?;
    target.extend_from_slice(&octets[before + 4..])?;
    Ok(())
}

impl Mark {
    /// The TTL in s at an age in s.
    fn aged(self, age: u32) -> u32
        ensures { result ≡ aged_ttl age self }
    {
        if self.is_opt {
            self.ttl
        } else {
            self.ttl.saturating_sub(age)
        }
    }
}

/// A number of 32 bits as four octets (RFC 1035, section 2.3.2).
fn four_octets(number: u32) -> [u8; 4]
    ensures { result ≡ four number }
{
    let high = number / 65536;
    let low = number % 65536;
    [
        (high / 256) as u8,
        (high % 256) as u8,
        (low / 256) as u8,
        (low % 256) as u8,
    ]
}
