//! OPT records of messages under construction.

use crate::said::built;
use crate::steps::build;
use dns_base::{AdditionalBuilder, MessageBuilder};
use dns_opt::{BuildDataError, BuildOpt, OptBuilder, OptRecord, OptRecordRef, opt_of};
use rows_table::{Row, RowError, Steps};
use std::alloc::Global;

/// Appends an OPT record, built by the steps of a row.
pub fn opened(message: &mut AdditionalBuilder, row: &mut Row<'_>) -> Result<(), BuildDataError> {
    message.opt(row.alloc(), |opt: &mut OptBuilder| build(opt, row))
}

/// Goes on with the OPT record by the steps of a row.
fn reopened(message: &mut AdditionalBuilder, row: &mut Row<'_>) -> Result<(), BuildDataError> {
    message.reopen(row.alloc(), |opt: &mut OptBuilder| build(opt, row))
}

/// A message under construction.
#[derive(Drop)]
struct Built {
    message: AdditionalBuilder,
}

impl Built {
    /// Goes on with a message with nothing but an OPT record like its own.
    fn copy(&mut self, row: &mut Row<'_>) {
        match copied(&self.message, row.alloc()) {
            Ok(copy) => self.message = copy,
            Err(fault) => row.fail(fault),
        }
    }
}

/// A message with nothing but an OPT record like that of another.
fn copied(message: &AdditionalBuilder, alloc: Global) -> Result<AdditionalBuilder, RowError> {
    match opt_of(&message.as_message()) {
        Some(found) => taken_over(alloc, &found),
        None => Err(RowError::OutOfForm),
    }
}

/// A message with nothing but an OPT record like another.
fn taken_over(alloc: Global, found: &OptRecordRef<'_>) -> Result<AdditionalBuilder, RowError> {
    let mut copy = MessageBuilder::new(alloc)?.additional();
    match copy.opt(alloc, |opt: &mut OptBuilder| opt.clone_from(alloc, found)) {
        Ok(()) => Ok(copy),
        Err(_) => Err(RowError::OutOfForm),
    }
}

impl Steps for Built {
    fn take_step(&mut self, step: &str, row: &mut Row<'_>) {
        match step {
            "limit" => self.message.set_push_limit(row.number()),
            "copy" => self.copy(row),
            "append" => append(&mut self.message, row),
            "opt" => {
                let done = opened(&mut self.message, row);
                built(row, done)
            }
            "reopen" => {
                let done = reopened(&mut self.message, row);
                built(row, done)
            }
            _ => row.fail(RowError::NoSuchStep),
        }
    }
}

/// Appends an OPT record of the next word's payload size, and says what that answers.
fn append(message: &mut AdditionalBuilder, row: &mut Row<'_>) {
    let mut record = OptRecord::default(row.alloc());
    record.set_udp_payload_size(row.number());
    row.outcome(record.append_to(row.alloc(), message))
}

/// A message's length, the response code of its header, its number of additional records and its OPT record: the
/// response code with that of the header, the size and the options.
fn message_said(row: &mut Row<'_>, message: &AdditionalBuilder) {
    let header = message.header();
    row.tell("len", &message.as_slice().len());
    row.tell("header", &header.rcode.to_int());
    row.tell("arcount", &message.counts().arcount);
    match message.opt_record() {
        Some(found) => {
            row.tell("rcode", &found.rcode(header).to_int());
            row.tell("udp_payload_size", &found.udp_payload_size());
            row.tell_octets("options", found.opt().as_slice())
        }
        None => row.say("none"),
    }
}

/// What the steps, which a slash parts, answer with an empty message, and the message that it is then.
pub fn opt_message(row: &mut Row<'_>) {
    match MessageBuilder::new(row.alloc()) {
        Ok(builder) => {
            let message = builder.additional();
            let mut built = Built { message };
            row.take_steps(" / ", &mut built);
            message_said(row, &built.message)
        }
        Err(_) => row.fail(RowError::OutOfMemory),
    }
}
