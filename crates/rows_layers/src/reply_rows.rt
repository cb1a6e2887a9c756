//! Rows of replies: the helpers of whoever writes one.

ghost use Rattle.dns_base.specs.Records.{IsLawful};

use crate::route_rows::{copied_message, reply_message};
use crate::words::{message, opt_rcode};
use crate::zone_rows::zone;
use dns_base::{AdditionalBuilder, PushError, Record, RecordData};
use dns_name::{BuildDataError, Class, Name, OptRcode, Ttl};
use dns_opt::{AllOptData, BuildOpt, MessageOpt, NsidRef, OptBuilder, OptRecordRef};
use dns_service::{
    CallResult, add_edns_option, add_edns_options, mk_builder_for_target, mk_error_response,
    remove_edns_opt_record,
};
use rows_table::{Calls, Row, RowError};
use std::alloc::Global;
use std::fmt::Debug;

/// Replies, messages for routers, and zones.
#[derive(Drop)]
pub(crate) struct ReplyRows;

impl Calls for ReplyRows {
    fn answer(&self, call: &str, row: &mut Row<'_>) -> Result<(), RowError> {
        match call {
            "mk_builder_for_target" => empty(row),
            "mk_error_response" => error_response(row),
            "response_mut" => response_mut(row),
            "reply" => replied(row, true),
            "reply_opt" => replied(row, false),
            "reply_message" => reply_message(row),
            "copied_message" => copied_message(row),
            "zone" => zone(row, false),
            "zone_turn" => zone(row, true),
            _ => return Err(RowError::NoSuchCall),
        }
        Ok(())
    }
}

fn empty(row: &mut Row<'_>) {
    match mk_builder_for_target(row.alloc()) {
        Ok(builder) => row.hexadecimal(builder.as_slice()),
        Err(_) => row.fail(RowError::OutOfMemory),
    }
}

/// The error reply to a message with a response code.
fn error_reply(row: &mut Row<'_>) -> Result<AdditionalBuilder, RowError> {
    match message(row) {
        Ok(query) => {
            let rcode = opt_rcode(row.number());
            mk_error_response(row.alloc(), &query, rcode).or(Err(RowError::OutOfMemory))
        }
        Err(fault) => Err(fault),
    }
}

/// The push limit of an error reply, and its octets.
fn error_response(row: &mut Row<'_>) {
    match error_reply(row) {
        Ok(reply) => {
            row.show(&reply.push_limit());
            row.hexadecimal(reply.as_slice())
        }
        Err(fault) => row.fail(fault),
    }
}

/// The error reply as a call's result holds it after steps: its octets.
fn response_mut(row: &mut Row<'_>) {
    match error_reply(row) {
        Ok(reply) => given_said(row, CallResult::new(reply)),
        Err(fault) => row.fail(fault),
    }
}

/// The octets of the response that a call's result holds, after the steps of the next words.
fn given_said(row: &mut Row<'_>, given: CallResult) {
    let mut given = given;
    match given.response_mut() {
        Some(reply) => steps_taken(row, reply),
        None => row.fail(RowError::Missing),
    }
    match given.response() {
        Some(reply) => row.hexadecimal(reply.as_slice()),
        None => row.fail(RowError::Missing),
    }
}

/// The refusals of the steps that an empty message takes, and the message's octets or what its OPT record says.
fn replied(row: &mut Row<'_>, whole: bool) {
    match mk_builder_for_target(row.alloc()) {
        Ok(builder) => {
            let mut reply = builder.additional();
            steps_taken(row, &mut reply);
            if whole {
                row.hexadecimal(reply.as_slice())
            } else {
                written_said(row, &reply)
            }
        }
        Err(_) => row.fail(RowError::OutOfMemory),
    }
}

/// What a message's OPT record says: how many additional records there are, the header's response code, the whole response code,
/// and the size. Then how many octets of options there are, and how many options are read.
fn written_said(row: &mut Row<'_>, reply: &AdditionalBuilder) {
    match reply.as_message().opt() {
        Some(opt) => {
            let header = reply.header();
            row.show(&reply.counts().arcount);
            row.show(&header.rcode.to_int());
            row.show(&opt.rcode(header).to_int());
            row.show(&opt.udp_payload_size());
            row.show(&opt.opt().len());
            row.show(&readable(&opt))
        }
        None => row.say("none"),
    }
}

/// How many options of any kind a record has that are read.
fn readable(opt: &OptRecordRef<'_>) -> usize {
    let mut many = 0usize;
    for item in opt.opt().iter::<AllOptData>() {
        if item.is_ok() {
            many = many.saturating_add(1);
        }
    }
    many
}

/// Takes the steps of the next word, which commas part, and says the refusals.
fn steps_taken(row: &mut Row<'_>, reply: &mut AdditionalBuilder) {
    for step in row.word().split(',') {
        step_said(row, reply, step);
    }
}

/// A step: an OPT record of a size and with the code BADCOOKIE, or one with padding. Or padding, an NSID or an address that is
/// added, a push limit, or the OPT record that is removed.
fn step_said(row: &mut Row<'_>, reply: &mut AdditionalBuilder, step: &str) {
    let (name, argument) = step.split_once(':').unwrap_or((step, "0"));
    match name {
        "nsid" => match NsidRef::from_slice(row.octets_of(argument)) {
            Ok(identifier) => refusal_said(row, add_edns_option(row.alloc(), reply, &identifier)),
            Err(error) => row.debug(&error),
        },
        "address" => match Name::root(row.alloc()) {
            Ok(owner) => refusal_said(row, push(row.alloc(), reply, address(owner))),
            Err(_) => row.fail(RowError::OutOfMemory),
        },
        "remove" => row.keep(remove_edns_opt_record(row.alloc(), reply)),
        _ => {
            let number = row.number_of::<u16>(argument);
            match name {
                "opt" => sized_opt(row, reply, number),
                "padding" => padded(row, reply, true, number),
                "add_padding" => padded(row, reply, false, number),
                "limit" => reply.set_push_limit(usize::from(number)),
                _ => row.fail(RowError::NoSuchStep),
            }
        }
    }
}

/// Says the refusal of a step.
fn refusal_said<E: Debug + Drop>(row: &mut Row<'_>, done: Result<(), E>) {
    if let Err(error) = done {
        row.debug(&error);
    }
}

/// An OPT record of a size, and with the response code BADCOOKIE if there is a size.
fn sized_opt(row: &mut Row<'_>, reply: &mut AdditionalBuilder, size: u16) {
    let done = reply.opt(row.alloc(), |opt: &mut OptBuilder| sized(opt, size));
    refusal_said(row, done)
}

/// An OPT record with padding, or padding that is added.
fn padded(row: &mut Row<'_>, reply: &mut AdditionalBuilder, alone: bool, number: u16) {
    let alloc = row.alloc();
    let padding = |opt: &mut OptBuilder| opt.padding(alloc, number);
    if alone {
        refusal_said(row, reply.opt(alloc, padding))
    } else {
        refusal_said(row, add_edns_options(alloc, reply, padding))
    }
}

/// Sets the size, and the response code BADCOOKIE if there is a size.
fn sized(opt: &mut OptBuilder, size: u16) -> Result<(), BuildDataError> {
    if size > 0 {
        opt.set_udp_payload_size(size);
        opt.set_rcode(OptRcode::BADCOOKIE);
    }
    Ok(())
}

fn push(alloc: Global, reply: &mut AdditionalBuilder, item: Record) -> Result<(), PushError>
    requires { IsLawful item.rdata }
{
    reply.push(alloc, &item)
}

/// The address of a name.
fn address(owner: Name) -> Record
    ensures { IsLawful result.rdata }
{
    Record {
        owner,
        class: Class::IN,
        ttl: Ttl::from_secs(5),
        rdata: RecordData::A([192, 0, 2, 1]),
    }
}
