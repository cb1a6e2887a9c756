//! A reply as its service holds it from call to call.

ghost use Rattle.std.specs.Prelude.{◌≡◌, ◌≤◌, length, option_map, IfOk};
ghost use Rattle.dns_reply_builder.specs.Replying.{plain_record};
ghost use Rattle.dns_reply_builder.specs.Held.{AddsOptionTo, AddsTo, BeginsReply, RewritesTo, rewritten_in};

use crate::plain_record::PlainRecord;
use crate::reply_builder::{AddError, ReplyBuilder};
use dns_base::{AdditionalBuilder, OptionCode, OutOfMemory, Rcode, Section};
use dns_embed::ReplyRule;
use std::alloc::Global;
use std::mem;

/// A reply as its service holds it from call to call.
#[derive(Drop)]
pub enum ServiceReply {
    /// Records and options are added.
    Begun(ReplyBuilder),
    /// It was rewritten by the rule of its request, and is to be sent.
    Rewritten(AdditionalBuilder),
    /// There was no memory to rewrite it.
    Lost,
}

impl ServiceReply {
    /// Begins the reply to a query's octets, as `ReplyBuilder::begin` does.
    pub fn begin(
        alloc: Global,
        query: &[u8],
        rcode: Rcode,
        is_authoritative: bool,
    ) -> Result<Option<ServiceReply>, OutOfMemory>
        ensures { IfOk result (BeginsReply query.now rcode is_authoritative) }
    {
        match ReplyBuilder::begin(alloc, query, rcode, is_authoritative)? {
            Some(builder) => Ok(Some(ServiceReply::Begun(builder))),
            None => Ok(None),
        }
    }

    /// Adds a record to a section, as `ReplyBuilder::add_plain` does. A reply that was rewritten or lost takes no record more: Order.
    pub fn add(
        &mut self,
        alloc: Global,
        section: Section,
        added: &PlainRecord<'_>,
    ) -> Result<(), AddError>
        requires { length added.now.rdata.now ≤ 65535 }
        ensures { AddsTo section (plain_record added.now) self.old self.new result }
    {
        match mem::replace(self, ServiceReply::Lost) {
            ServiceReply::Begun(builder) => {
                let (builder, pushed) = builder.add_plain(alloc, section, added);
                *self = ServiceReply::Begun(builder);
                pushed
            }
            ServiceReply::Rewritten(built) => {
                *self = ServiceReply::Rewritten(built);
                Err(AddError::Order)
            }
            ServiceReply::Lost => Err(AddError::Order),
        }
    }

    /// Adds an option to its OPT record, as `ReplyBuilder::add_option` does. A reply that was rewritten or lost takes none more: Order.
    pub fn add_option(
        &mut self,
        alloc: Global,
        code: OptionCode,
        octets: &[u8],
    ) -> Result<(), AddError>
        ensures { AddsOptionTo code octets.now self.old self.new result }
    {
        match mem::replace(self, ServiceReply::Lost) {
            ServiceReply::Begun(builder) => {
                let (builder, added) = builder.add_option(alloc, code, octets);
                *self = ServiceReply::Begun(builder);
                added
            }
            ServiceReply::Rewritten(built) => {
                *self = ServiceReply::Rewritten(built);
                Err(AddError::Order)
            }
            ServiceReply::Lost => Err(AddError::Order),
        }
    }

    /// Rewrites it by the rule of its request, unless it was rewritten before. If there is no memory it is lost.
    pub fn rewrite(&mut self, alloc: Global, rule: &ReplyRule) -> Result<(), OutOfMemory>
        ensures { RewritesTo rule.now self.old self.new result }
    {
        match mem::replace(self, ServiceReply::Lost) {
            ServiceReply::Begun(builder) => {
                let built = builder.rewritten(alloc, rule)?;
                *self = ServiceReply::Rewritten(built);
                Ok(())
            }
            ServiceReply::Rewritten(built) => {
                *self = ServiceReply::Rewritten(built);
                Ok(())
            }
            ServiceReply::Lost => Err(OutOfMemory),
        }
    }

    /// What is sent, once it was rewritten.
    pub fn rewritten(&self) -> Option<&AdditionalBuilder>
        ensures { option_map (λ m. m.now) result ≡ rewritten_in self.now }
    {
        match self {
            ServiceReply::Rewritten(built) => Some(built),
            ServiceReply::Begun(_) | ServiceReply::Lost => None,
        }
    }
}
