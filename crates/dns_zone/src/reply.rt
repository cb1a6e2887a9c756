//! The replies of a zone.

ghost use Rattle.std.specs.Prelude.{◌≡◌, ℕ, List, IfOk, IsTrue, Some, false, if◌then◌else◌};
ghost use Rattle.dns_base.specs.Builds.{Builds, unlimited};
ghost use Rattle.dns_base.specs.Header.{header_of};
ghost use Rattle.dns_base.specs.Sections.{first_of, questions_of};
ghost use Rattle.std.specs.Option.{option_copied};
ghost use Rattle.dns_message.specs.declared.question.Question.{Question};
ghost use Rattle.dns_route.specs.Routes.{ends_name};
ghost use Rattle.dns_zone.specs.Aliases.{followed};
ghost use Rattle.dns_zone.specs.Cuts.{is_cut_off};
ghost use Rattle.dns_zone.specs.ZoneIndex.{IsSought};
ghost use Rattle.dns_zone.specs.Paths.{name_path};
ghost use Rattle.dns_zone.specs.Places.{at_places};
ghost use Rattle.dns_zone.specs.Standings.{Owns};
ghost use Rattle.dns_zone.specs.ZoneReply.{authoritative, delegation, denied, follows, referral, zone_reply};
ghost use Rattle.dns_zone.specs.ZoneTurns.{GivesReply, IsReplyTo, asks_zone, zone_answer, zone_message};

use crate::cuts::{Standing, places_in};
use crate::kinds::{ANY, Kinds};
use crate::laws::zone_replies_are_built;
use crate::path::path_of;
use crate::sections::{add_places, begin_reply};
use crate::zone::Zone;
use dns_base::{AdditionalBuilder, Class, Message, Opcode, PushError, QuestionRef, Rcode, Rtype};
use dns_route::ReplyMessage;
use dns_service::{ReplyError, ServiceError};
use std::alloc::Global;

/// How many octets a name has at most (RFC 1035, section 2.3.4).
const LONGEST: usize = 255;

/// Whether an alias is followed for a type.
fn follows(rtype: u16) -> bool
    ensures { result ≡ follows rtype }
{
    rtype != Rtype::CNAME.to_int() && rtype != ANY
}

/// The response code of a negative answer.
fn negative_code(exists: bool) -> Rcode
    ensures { result ≡ (if exists then 0 else 3) }
{
    if exists {
        return Rcode::NOERROR;
    }
    Rcode::NXDOMAIN
}

impl Zone {
    ghost use Rattle.dns_zone.specs.Found.{AreAliases};

    /// A referral to the name servers at places, without their addresses.
    fn delegated(
        &self,
        alloc: Global,
        query: &Message,
        servers: &[usize],
    ) -> Result<AdditionalBuilder, PushError>
        ensures { Builds (unlimited (zone_message query.now (delegation (at_places self.now.records servers.now)))) result }
    {
        let mut referred = begin_reply(alloc, query, Rcode::NOERROR, false)?.authority();
        add_places(&mut referred, alloc, self.records.as_slice(), servers)?;
        Ok(referred.additional())
    }

    /// A referral to the name servers at places.
    fn referred(
        &self,
        alloc: Global,
        query: &Message,
        servers: &[usize],
    ) -> Result<AdditionalBuilder, PushError>
        ensures { Builds (unlimited (zone_message query.now (referral self.now (at_places self.now.records servers.now)))) result }
    {
        let glue = self.glue(alloc, servers)?;
        let mut reply = self.delegated(alloc, query, servers)?;
        add_places(&mut reply, alloc, self.records.as_slice(), glue.as_slice())?;
        Ok(reply)
    }

    /// The answer that is the records at places.
    fn found(
        &self,
        alloc: Global,
        query: &Message,
        found: &[usize],
    ) -> Result<AdditionalBuilder, PushError>
        ensures { Builds (unlimited (zone_message query.now (authoritative (at_places self.now.records found.now)))) result }
    {
        let mut reply = begin_reply(alloc, query, Rcode::NOERROR, true)?;
        add_places(&mut reply, alloc, self.records.as_slice(), found)?;
        Ok(reply.additional())
    }

    /// The answer that begins with the aliases at places.
    fn followed(
        &self,
        alloc: Global,
        query: &Message,
        rtype: u16,
        aliases: &[usize],
    ) -> Result<AdditionalBuilder, PushError>
        ensures { (name : List (List ℕ)) → AreAliases self.now name aliases.now
            → Builds (unlimited (zone_message query.now (authoritative (followed self.now rtype 8 name)))) result }
    {
        let trail = self.trail(alloc, rtype, aliases)?;
        self.found(alloc, query, trail.as_slice())
    }

    /// The negative answer: the name exists or not.
    fn denied(
        &self,
        alloc: Global,
        query: &Message,
        exists: bool,
    ) -> Result<AdditionalBuilder, PushError>
        ensures { Builds (unlimited (zone_message query.now (denied self.now (if exists then 0 else 3)))) result }
    {
        let mut reply = begin_reply(alloc, query, negative_code(exists), true)?.authority();
        reply.push(alloc, &self.negative)?;
        Ok(reply.additional())
    }

    /// The reply to a question for a type of the name of a path that isn't at or below a cut, and owns these.
    fn reply_within(
        &self,
        alloc: Global,
        query: &Message,
        rtype: u16,
        path: &Vec<u8>,
        kinds: Option<&Kinds>,
    ) -> Result<AdditionalBuilder, PushError>
        ensures { (q : Question) → path.now.items ≡ name_path q.qname → q.qtype ≡ rtype → is_cut_off self.now q.qname ≡ false
            → Owns self.now q.qname (option_copied kinds.entry) → Builds (unlimited (zone_message query.now (zone_reply self.now q))) result }
    {
        if follows(rtype) {
            if let Some(aliases) = places_in(kinds, Rtype::CNAME.to_int()) {
                return self.followed(alloc, query, rtype, aliases);
            }
        }
        match places_in(kinds, rtype) {
            Some(found) => self.found(alloc, query, found),
            None => self.denied(alloc, query, self.has(path)),
        }
    }

    /// Whether the zone is asked, by the path of the name.
    fn asks_zone(&self, question: &QuestionRef<'_>, path: &[u8]) -> bool
        requires { path.now ≡ name_path question.now.qname }
        ensures { result ≡ asks_zone self.now question.now }
    {
        let within = path.starts_with(self.path.as_slice());
        question.qclass() == Class::IN && within
    }

    /// The reply to a question for a name at or below the apex, as it is built.
    pub fn reply(
        &self,
        alloc: Global,
        query: &Message,
        question: &QuestionRef<'_>,
    ) -> Result<AdditionalBuilder, PushError>
        requires { IsTrue (ends_name question.now.qname self.now.apex) }
        ensures { Builds (unlimited (zone_message query.now (zone_reply self.now question.now))) result }
    {
        let path = path_of(alloc, question.qname().labels(), LONGEST)?;
        self.reply_at(alloc, query, question, &path)
    }

    /// The reply to a question for the name of a path at or below the apex.
    fn reply_at(
        &self,
        alloc: Global,
        query: &Message,
        question: &QuestionRef<'_>,
        path: &Vec<u8>,
    ) -> Result<AdditionalBuilder, PushError>
        requires within { IsTrue (ends_name question.now.qname self.now.apex) }
        requires path { path.now.items ≡ name_path question.now.qname }
        ensures { Builds (unlimited (zone_message query.now (zone_reply self.now question.now))) result }
    {
        let rtype = question.qtype().to_int();
        match self.standing(path.as_slice()) {
            Standing::Cut(servers) => self.referred(alloc, query, servers),
            Standing::Owner(kinds) => self.reply_within(alloc, query, rtype, path, Some(kinds)),
            Standing::Nothing => self.reply_within(alloc, query, rtype, path, None),
        }
    }

    /// The answer to a question.
    fn answer_to(
        &self,
        alloc: Global,
        query: &Message,
        question: &QuestionRef<'_>,
    ) -> Result<ReplyMessage, ReplyError>
        ensures answer { GivesReply (zone_answer self.now query.now (header_of query.now).opcode (Some question.now)) result }
        ensures built { IfOk result (IsReplyTo self.now query.now (Some question.now)) }
    {
        if query.header().opcode != Opcode::QUERY {
            return Err(ReplyError::Service(ServiceError::NotImplemented));
        }
        let path = path_of(alloc, question.qname().labels(), LONGEST)?;
        if !self.asks_zone(question, path.as_slice()) {
            return Err(ReplyError::Service(ServiceError::Refused));
        }
        let built = self.reply_at(alloc, query, question, &path)?;
        let _octets = built.as_slice();
        let _records = self.records();
        zone_replies_are_built();
        let reply = ReplyMessage::from_typed(alloc, built)?;
        Ok(reply)
    }

    /// The answer to a query, by its first question.
    pub(crate) fn answer(&self, alloc: Global, query: &Message) -> Result<ReplyMessage, ReplyError>
        ensures answer { GivesReply (zone_answer self.now query.now (header_of query.now).opcode
            (first_of (questions_of query.now).0)) result }
        ensures built { IfOk result (IsReplyTo self.now query.now (first_of (questions_of query.now).0)) }
    {
        match query.first_question() {
            Some(question) => self.answer_to(alloc, query, &question),
            None => Err(ReplyError::Service(ServiceError::FormatError)),
        }
    }
}
