//! An authority over several zones.

ghost use Rattle.std.specs.Prelude.{◌≡◌, ◌++◌, ◌∷◌, [], ℕ, List, IsTrue, IfOk, OnOk, OnErr, Some, None, Option, false, ◌&&◌, not, nat_eq, if◌then◌else◌};
ghost use Rattle.std.specs.Arc.{arc_value};
ghost use Rattle.std.specs.Option.{option_copied};
ghost use Rattle.dns_name.specs.Canonical.{same_name};
ghost use Rattle.dns_base.specs.Builds.{Builds, unlimited};
ghost use Rattle.dns_base.specs.Header.{header_of};
ghost use Rattle.dns_base.specs.Sections.{counts_of};
ghost use Rattle.dns_service.specs.Once.{once};
ghost use Rattle.dns_service.specs.Req.{hint_at_entry};
ghost use Rattle.dns_service.specs.Transport.{is_stream};
ghost use Rattle.dns_route.specs.Routes.{ends_name};
ghost use Rattle.dns_zone.specs.ZoneTurns.{zone_begun};
ghost use Rattle.dns_authority.specs.Authorities.{and_data, and_zone, asked_zone, asks_transfer, authority_answer, by_class, by_question, by_zone, coded, longer, may_transfer, sole_question, transferred, zone_above, zone_for, zone_for_ds};
ghost use Rattle.dns_authority.specs.ServedZones.{sent_of};

use crate::stream::{AuthorityFuture, AuthorityStream};
use crate::zone_data::ZoneData;
use crate::zones::ServedZone;
use dns_base::{AdditionalBuilder, Class, Message, Opcode, PushError, QuestionRef, Rcode, Rtype};
use dns_networks::Network;
use dns_service::{Once, OutOfMemory, ReplyStream, Request, Service, ServiceResult};
use dns_transfer::message_item;
use dns_zone::begin_reply;
use dns_zone_tree::ZoneTree;
use std::alloc::Global;
use std::marker::Model;

/// Answers with the zone that has the longest apex which ends a question's name, and transfers each zone to the networks that
/// may have it.
#[derive(Drop)]
pub struct Authority {
    zones: Vec<ServedZone>,
    allowed: Vec<Network>,
}

impl Model for Authority {
    ghost use Rattle.dns_authority.specs.Authorities.{AuthorityState};

    ghost Value = { AuthorityState };

    ghost view = { λ a. record { zones = a.zones.items; allowed = a.allowed.items } };
}

impl Authority {
    /// An authority with no zone. A zone that is added without networks of its own may be transferred to these.
    pub fn new(alloc: Global, allowed: Vec<Network>) -> Authority
        ensures { result ≡ record { zones = []; allowed = allowed.items } }
    {
        Authority {
            zones: Vec::new(alloc),
            allowed,
        }
    }

    /// The networks that may transfer a zone that was added without networks of its own.
    pub fn allowed(&self) -> &[Network]
        ensures { result.now ≡ self.now.allowed }
    {
        self.allowed.as_slice()
    }

    /// Adds a zone after the others, which may be transferred to the authority's networks. A refused call leaves the authority.
    pub fn add(&mut self, alloc: Global, zone: ZoneTree) -> Result<(), OutOfMemory>
        ensures ok { OnOk result (self.new ≡ and_zone self.old.allowed zone self.old) }
        ensures err { OnErr result (self.new ≡ self.old) }
    {
        let allowed = Vec::from_slice(alloc, self.allowed.as_slice())?;
        self.add_for(alloc, zone, allowed)
    }

    /// Adds a zone after the others, which may be transferred to these networks. A refused call leaves the authority.
    pub fn add_for(
        &mut self,
        alloc: Global,
        zone: ZoneTree,
        allowed: Vec<Network>,
    ) -> Result<(), OutOfMemory>
        ensures ok { OnOk result (self.new ≡ and_zone allowed.items zone self.old) }
        ensures err { OnErr result (self.new ≡ self.old) }
    {
        self.add_data(alloc, ZoneData::Unsigned(zone), allowed)
    }

    /// Adds a zone after the others, signed or not, which may be transferred to these networks. A refused call leaves the
    /// authority.
    pub fn add_data(
        &mut self,
        alloc: Global,
        zone: ZoneData,
        allowed: Vec<Network>,
    ) -> Result<(), OutOfMemory>
        ensures ok { OnOk result (self.new ≡ and_data allowed.items zone self.old) }
        ensures err { OnErr result (self.new ≡ self.old) }
    {
        let served = ServedZone::new(alloc, zone, allowed)?;
        self.zones.push(served)?;
        Ok(())
    }

    /// The zone with the longest apex that ends the name of a question.
    fn zone_for(&self, question: &QuestionRef<'_>) -> Option<&ServedZone>
        ensures { option_copied result ≡ zone_for question.now.qname self.now.zones }
    {
        let mut best: Option<&ServedZone> = None;
        let mut left = self.zones.len();
        'each: while left > 0 {
            left -= 1;
            best = better(&self.zones[left], best, question);
        }
        best
    }

    /// The zone with the longest apex that ends the name of a question and isn't the name.
    fn zone_above(&self, question: &QuestionRef<'_>) -> Option<&ServedZone>
        ensures { option_copied result ≡ zone_above question.now.qname self.now.zones }
    {
        let mut best: Option<&ServedZone> = None;
        let mut left = self.zones.len();
        'each: while left > 0 {
            left -= 1;
            best = better_above(&self.zones[left], best, question);
        }
        best
    }

    /// The zone for a question for DS records.
    fn zone_for_ds(&self, question: &QuestionRef<'_>) -> Option<&ServedZone>
        ensures { option_copied result ≡ zone_for_ds question.now.qname self.now.zones }
    {
        match self.zone_above(question) {
            Some(zone) => Some(zone),
            None => self.zone_for(question),
        }
    }

    /// The zone that a question asks.
    fn asked_zone(&self, question: &QuestionRef<'_>) -> Option<&ServedZone>
        ensures { option_copied result ≡ asked_zone question.now self.now.zones }
    {
        if asks_ds(question) {
            return self.zone_for_ds(question);
        }
        self.zone_for(question)
    }

    /// What is answered to a question for a zone.
    fn asked<Meta>(
        &self,
        alloc: Global,
        request: &Request<Meta>,
        question: &QuestionRef<'_>,
        zone: &ServedZone,
    ) -> Result<AuthorityStream, OutOfMemory>
        requires { IsTrue (ends_name question.now.qname zone.now.zone.apex) }
        ensures { IfOk result (λ s. ⟦<AuthorityStream as ReplyStream>⟧.answer s ≡ by_zone request.now question.now (Some zone.now)) }
    {
        if asks_transfer(question) {
            return self.transferred(alloc, request, question, zone);
        }
        let item = zone.reply(alloc, request, question)?;
        Ok(single(item))
    }

    /// What is answered to a question for a transfer of a zone.
    fn transferred<Meta>(
        &self,
        alloc: Global,
        request: &Request<Meta>,
        question: &QuestionRef<'_>,
        zone: &ServedZone,
    ) -> Result<AuthorityStream, OutOfMemory>
        ensures { IfOk result (λ s. ⟦<AuthorityStream as ReplyStream>⟧.answer s
            ≡ transferred zone.now.allowed request.now question.now (sent_of zone.now.zone zone.now.signing)) }
    {
        if zone.allows(request, question) {
            let transfer = zone.transfer(request)?;
            return Ok(AuthorityStream::Transferred(transfer));
        }
        coded(alloc, request, Rcode::REFUSED)
    }

    /// What is answered to a question for class IN.
    fn found<Meta>(
        &self,
        alloc: Global,
        request: &Request<Meta>,
        question: &QuestionRef<'_>,
    ) -> Result<AuthorityStream, OutOfMemory>
        ensures { IfOk result (λ s. ⟦<AuthorityStream as ReplyStream>⟧.answer s
            ≡ by_zone request.now question.now (asked_zone question.now self.now.zones)) }
    {
        match self.asked_zone(question) {
            Some(zone) => self.asked(alloc, request, question, zone),
            None => coded(alloc, request, Rcode::REFUSED),
        }
    }

    /// What is answered to a question.
    fn classed<Meta>(
        &self,
        alloc: Global,
        request: &Request<Meta>,
        question: &QuestionRef<'_>,
    ) -> Result<AuthorityStream, OutOfMemory>
        ensures { IfOk result (λ s. ⟦<AuthorityStream as ReplyStream>⟧.answer s ≡ by_class self.now.zones request.now question.now) }
    {
        if is_internet(question) {
            return self.found(alloc, request, question);
        }
        coded(alloc, request, Rcode::REFUSED)
    }

    /// What is answered to a query.
    fn answered<Meta>(
        &self,
        alloc: Global,
        request: &Request<Meta>,
    ) -> Result<AuthorityStream, OutOfMemory>
        ensures { IfOk result (λ s. ⟦<AuthorityStream as ReplyStream>⟧.answer s
            ≡ by_question self.now.zones request.now (sole_question request.now.octets)) }
    {
        match sole_question(request) {
            Some(question) => self.classed(alloc, request, &question),
            None => coded(alloc, request, Rcode::FORMERR),
        }
    }

    /// What is answered to a request.
    fn stream<Meta>(
        &self,
        alloc: Global,
        request: &Request<Meta>,
    ) -> Result<AuthorityStream, OutOfMemory>
        ensures { IfOk result (λ s. ⟦<AuthorityStream as ReplyStream>⟧.answer s ≡ authority_answer self.now request.now) }
    {
        if is_query(request) {
            return self.answered(alloc, request);
        }
        coded(alloc, request, Rcode::NOTIMP)
    }
}

impl<Meta> Service<Meta> for Authority {
    type Stream = AuthorityStream;

    type Future = AuthorityFuture;

    ghost answer = { authority_answer };

    ghost hint = { λ _. hint_at_entry };

    /// The response code is NOTIMP for an opcode other than QUERY, and FORMERR if a query doesn't have one readable question. It is
    /// REFUSED for a class other than IN, for a name that is in no zone and for a transfer that isn't allowed. The error is
    /// InternalError if a reply doesn't fit 65,535 octets, and there is no other.
    fn call(
        &self,
        alloc: Global,
        request: &mut Request<Meta>,
    ) -> Result<AuthorityFuture, OutOfMemory> {
        let stream = self.stream(alloc, request)?;
        Ok(AuthorityFuture::new(stream))
    }
}

/// The type of a question that asks for a transfer (RFC 1035, section 3.2.3).
const AXFR: u16 = 252;

/// The type of a question that asks for what has changed in a zone (RFC 1995, section 2).
const IXFR: u16 = 251;

/// Whether a request is a query.
fn is_query<Meta>(request: &Request<Meta>) -> bool
    ensures { result ≡ nat_eq (header_of request.now.octets).opcode 0 }
{
    request.message().header().opcode == Opcode::QUERY
}

/// Whether a request's message has one question.
fn has_one_question<Meta>(request: &Request<Meta>) -> bool
    ensures { result ≡ nat_eq (counts_of request.now.octets).qdcount 1 }
{
    request.message().header_counts().qdcount == 1
}

/// The one question of a request's message, if it is readable.
fn sole_question<Meta>(request: &Request<Meta>) -> Option<QuestionRef<'_>>
    ensures { result ≡ sole_question request.now.octets }
{
    if has_one_question(request) {
        return request.message().first_question();
    }
    None
}

/// Whether a question is for class IN.
fn is_internet(question: &QuestionRef<'_>) -> bool
    ensures { result ≡ nat_eq question.now.qclass 1 }
{
    question.qclass() == Class::IN
}

/// Whether a question asks for a transfer.
fn asks_transfer(question: &QuestionRef<'_>) -> bool
    ensures { result ≡ asks_transfer question.now }
{
    let qtype = question.qtype().to_int();
    qtype == AXFR || qtype == IXFR
}

/// Whether a question asks for DS records.
fn asks_ds(question: &QuestionRef<'_>) -> bool
    ensures { result ≡ nat_eq question.now.qtype 43 }
{
    question.qtype() == Rtype::DS
}

/// A zone, if its apex ends the name of a question and is no shorter than that of the best one after it.
fn better<'a>(
    zone: &'a ServedZone,
    best: Option<&'a ServedZone>,
    question: &QuestionRef<'_>,
) -> Option<&'a ServedZone>
    ensures { option_copied result ≡ (if ends_name question.now.qname zone.now.zone.apex
        then longer zone.now (option_copied best.entry) else option_copied best.entry) }
{
    if !zone.ends(question) {
        return best;
    }
    match best {
        Some(other) if zone.labels() < other.labels() => best,
        _ => Some(zone),
    }
}

/// That, except for a zone whose apex is the name.
fn better_above<'a>(
    zone: &'a ServedZone,
    best: Option<&'a ServedZone>,
    question: &QuestionRef<'_>,
) -> Option<&'a ServedZone>
    ensures { option_copied result ≡ (if not (same_name question.now.qname zone.now.zone.apex)
        && ends_name question.now.qname zone.now.zone.apex then longer zone.now (option_copied best.entry) else option_copied best.entry) }
{
    if zone.is_named(question) {
        return best;
    }
    better(zone, best, question)
}

/// An item that is there at once.
fn single(item: ServiceResult) -> AuthorityStream
    ensures { ⟦<AuthorityStream as ReplyStream>⟧.answer result ≡ once item }
{
    AuthorityStream::Single(Once::new(item))
}

/// The reply to a query that has a response code and no records.
fn code_reply(alloc: Global, query: &Message, rcode: Rcode) -> Result<AdditionalBuilder, PushError>
    ensures { Builds (unlimited (zone_begun query.now rcode false)) result }
{
    let reply = begin_reply(alloc, query, rcode, false)?;
    Ok(reply.additional())
}

/// The reply as an item.
fn code_item<Meta>(
    alloc: Global,
    request: &Request<Meta>,
    rcode: Rcode,
) -> Result<ServiceResult, OutOfMemory>
    ensures { IfOk result (λ i. i ≡ coded request.now.octets rcode) }
{
    let built = code_reply(alloc, request.message(), rcode);
    message_item(built, None)
}

/// A response code that is there at once.
fn coded<Meta>(
    alloc: Global,
    request: &Request<Meta>,
    rcode: Rcode,
) -> Result<AuthorityStream, OutOfMemory>
    ensures { IfOk result (λ s. ⟦<AuthorityStream as ReplyStream>⟧.answer s ≡ once (coded request.now.octets rcode)) }
{
    let item = code_item(alloc, request, rcode)?;
    Ok(single(item))
}
