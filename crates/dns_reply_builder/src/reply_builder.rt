//! A reply that a service builds, record by record.

ghost use Rattle.std.specs.Prelude.{◌≡◌, ◌≤◌, length, IfOk};
ghost use Rattle.dns_base.specs.Standing.{GivesParsed};
ghost use Rattle.dns_embed.specs.Embedded.{rewrite_by};
ghost use Rattle.dns_reply_builder.specs.Replying.{AddedAs, Adds, AddsBuilt, AddsRecord, Begins, OptionAdded, PushesAt, built_of, plain_record, record_alone, stage_of, stage_onward};

use crate::plain_record::PlainRecord;
use dns_base::{
    AdditionalBuilder, AnswerBuilder, AuthorityBuilder, BuildDataError, ComposeRecord,
    CopiedRecord, Header, Message, MessageBuilder, OptionCode, OutOfMemory, ParseError, PushError,
    Rcode, Section, record_in,
};
use dns_embed::ReplyRule;
use dns_layers::Rewrite;
use dns_opt::UnknownOptDataRef;
use dns_service::add_edns_option;
use std::alloc::Global;

/// The reply to a query, at the section of records that was begun last.
#[derive(Drop)]
pub enum ReplyBuilder {
    /// Answer records are added.
    Answer(AnswerBuilder),
    /// Authority records are added.
    Authority(AuthorityBuilder),
    /// Additional records are added.
    Additional(AdditionalBuilder),
}

/// Why a record isn't added to a reply.
#[derive(Clone, Copy)]
pub enum AddError {
    /// The octets are no record, or are more than one, or the data is unreadable.
    Unreadable,
    /// A later section was begun.
    Order,
    /// The reply would take more than 65,535 octets.
    TooLong,
    /// There was no memory.
    OutOfMemory,
}

impl ReplyBuilder {
    /// Begins the reply to a query's octets, with a response code, authoritative or not: identifier, opcode, RD and questions are
    /// the query's (RFC 1035, section 4.1.1). If the questions have no room the code is SERVFAIL. None if the octets are no message.
    pub fn begin(
        alloc: Global,
        query: &[u8],
        rcode: Rcode,
        is_authoritative: bool,
    ) -> Result<Option<ReplyBuilder>, OutOfMemory>
        ensures { IfOk result (Begins query.now rcode is_authoritative) }
    {
        let octets = Vec::from_slice(alloc, query)?;
        let Ok(message) = Message::from_octets(octets) else {
            return Ok(None);
        };
        let begun = MessageBuilder::new(alloc)?;
        let mut reply = begun.start_error(alloc, &message, rcode)?;
        let header = Header {
            aa: is_authoritative,
            ..reply.header()
        };
        reply.set_header(header);
        Ok(Some(ReplyBuilder::Answer(reply)))
    }

    /// Adds a record in wire form (RFC 1035, section 3.2.1), its names uncompressed, to a section: the one that was begun last, or a
    /// later one, which is begun by it even if the record is refused. Else a refused call leaves the reply.
    pub fn add(
        self,
        alloc: Global,
        section: Section,
        octets: &[u8],
    ) -> (ReplyBuilder, Result<(), AddError>)
        ensures { Adds section octets.now self result.0 result.1 }
    {
        let mut reply = self.onward(section);
        let added = reply.push_read(alloc, section, octets);
        (reply, added)
    }

    /// Goes on to a section, unless that comes after.
    fn onward(self, section: Section) -> ReplyBuilder
        ensures built { built_of result ≡ built_of self }
        ensures stage { stage_of result ≡ stage_onward section self }
    {
        match section {
            Section::Answer => self,
            Section::Authority => match self {
                ReplyBuilder::Answer(reply) => ReplyBuilder::Authority(reply.authority()),
                ReplyBuilder::Authority(reply) => ReplyBuilder::Authority(reply),
                ReplyBuilder::Additional(reply) => ReplyBuilder::Additional(reply),
            },
            Section::Additional => ReplyBuilder::Additional(self.additional()),
        }
    }

    /// The reply at its last section.
    fn additional(self) -> AdditionalBuilder
        ensures { result ≡ built_of self }
    {
        match self {
            ReplyBuilder::Answer(reply) => reply.additional(),
            ReplyBuilder::Authority(reply) => reply.additional(),
            ReplyBuilder::Additional(reply) => reply,
        }
    }

    /// Adds the one record that octets are to the section that was begun last, if it is this one.
    fn push_read(&mut self, alloc: Global, section: Section, octets: &[u8]) -> Result<(), AddError>
        ensures stage { stage_of self.new ≡ stage_of self.old }
        ensures added { AddsBuilt section octets.now (built_of self.old) (stage_of self.old) (built_of self.new) result }
    {
        match record_alone(alloc, octets) {
            Ok(copied) => self.push(alloc, section, copied.get()),
            Err(ParseError::OutOfMemory) => Err(AddError::OutOfMemory),
            Err(_) => Err(AddError::Unreadable),
        }
    }

    /// Adds a record whose name and data are borrowed to a section: the one that was begun last, or a later one, which is begun by it
    /// even if the record is refused. Else a refused call leaves the reply.
    pub fn add_plain(
        self,
        alloc: Global,
        section: Section,
        added: &PlainRecord<'_>,
    ) -> (ReplyBuilder, Result<(), AddError>)
        requires { length added.now.rdata.now ≤ 65535 }
        ensures stage { stage_of result.0 ≡ stage_onward section self }
        ensures added { AddsRecord section (plain_record added.now) (built_of self) (stage_onward section self)
            (built_of result.0) result.1 }
    {
        let mut reply = self.onward(section);
        let pushed = reply.push(alloc, section, added);
        (reply, pushed)
    }

    /// Adds an option after those of the reply's OPT record, which becomes its last additional record (RFC 6891, section 6.1.1).
    /// The additional section is begun by it. A refused call leaves what was built. TooLong if the option list would pass 65,535
    /// octets, or the reply.
    pub fn add_option(
        self,
        alloc: Global,
        code: OptionCode,
        octets: &[u8],
    ) -> (ReplyBuilder, Result<(), AddError>)
        ensures stage { stage_of result.0 ≡ 2 }
        ensures added { OptionAdded code octets.now (built_of self) (built_of result.0) result.1 }
    {
        let mut reply = self.additional();
        let added = push_option(alloc, &mut reply, code, octets);
        (ReplyBuilder::Additional(reply), added)
    }

    /// Adds a record to the section that was begun last, if it is this one.
    fn push<R: ComposeRecord>(
        &mut self,
        alloc: Global,
        section: Section,
        added: &R,
    ) -> Result<(), AddError>
        requires { R.is_lawful added.now }
        ensures { PushesAt section (R.resource added.now) self.old self.new result }
    {
        match self {
            ReplyBuilder::Answer(reply) => match section {
                Section::Answer => added_as(reply.push_composed(alloc, added)),
                _ => Err(AddError::Order),
            },
            ReplyBuilder::Authority(reply) => match section {
                Section::Authority => added_as(reply.push_composed(alloc, added)),
                _ => Err(AddError::Order),
            },
            ReplyBuilder::Additional(reply) => match section {
                Section::Additional => added_as(reply.push_composed(alloc, added)),
                _ => Err(AddError::Order),
            },
        }
    }

    /// The reply as it is sent, rewritten by the rule of its request.
    pub fn rewritten(
        self,
        alloc: Global,
        rule: &ReplyRule,
    ) -> Result<AdditionalBuilder, OutOfMemory>
        ensures { IfOk result (λ b. b.message ≡ rewrite_by rule.now (built_of self).message) }
    {
        let mut reply = self.additional();
        rule.rewrite(alloc, &mut reply)?;
        Ok(reply)
    }
}

/// Adds an option after those of a reply's OPT record.
fn push_option(
    alloc: Global,
    reply: &mut AdditionalBuilder,
    code: OptionCode,
    octets: &[u8],
) -> Result<(), AddError>
    ensures { OptionAdded code octets.now reply.old reply.new result }
{
    let Ok(option) = UnknownOptDataRef::new(code, octets) else {
        return Err(AddError::TooLong);
    };
    match add_edns_option(alloc, reply, &option) {
        Ok(()) => Ok(()),
        Err(BuildDataError::OutOfMemory) => Err(AddError::OutOfMemory),
        Err(_) => Err(AddError::TooLong),
    }
}

/// The result of an addition, by that of the push.
fn added_as(pushed: Result<(), PushError>) -> Result<(), AddError>
    ensures { AddedAs pushed result }
{
    match pushed {
        Ok(()) => Ok(()),
        Err(PushError::ShortBuf) => Err(AddError::TooLong),
        Err(PushError::OutOfMemory) => Err(AddError::OutOfMemory),
    }
}

/// The one record that octets are.
fn record_alone(alloc: Global, octets: &[u8]) -> Result<CopiedRecord, ParseError>
    ensures { GivesParsed result (record_alone octets.now) }
{
    let (record, end) = record_in(octets, 0)?;
    if end != octets.len() {
        return Err(ParseError::ShortInput);
    }
    CopiedRecord::read(alloc, &record)
}
