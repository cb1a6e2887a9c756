//! Rows of messages that are composed of other ones.

use crate::words::message_ref;
use dns_base::AdditionalBuilder;
use dns_opt::NsidRef;
use dns_route::{ComposeReply, CopiedMessage, ReplyMessage, RequestMessage};
use dns_service::Request;
use rows_table::{Row, RowError};
use std::fmt::Debug;

/// A request that is asked again after steps: whether DNSSEC records are wanted, and the octets that are sent.
pub(crate) fn request_message(row: &mut Row<'_>, request: &Request<()>) {
    let steps = row.word();
    match RequestMessage::try_from(row.alloc(), request) {
        Ok(asked) => sent(row, asked, steps),
        Err(error) => row.debug(&error),
    }
}

/// What is sent of a request message after steps, which commas separate.
fn sent(row: &mut Row<'_>, asked: RequestMessage, steps: &str) {
    let mut asked = asked;
    for step in steps.split(',') {
        step_taken(row, &mut asked, step);
    }
    sent_said(row, &asked)
}

fn sent_said(row: &mut Row<'_>, asked: &RequestMessage) {
    match asked.to_message(row.alloc()) {
        Ok(sent) => {
            row.show(&asked.dnssec_ok());
            row.hexadecimal(sent.as_slice());
        }
        Err(error) => row.debug(&error),
    }
}

/// One step: `-` for none, `dnssec_ok:false`, or an NSID that is added.
fn step_taken(row: &mut Row<'_>, asked: &mut RequestMessage, step: &str) {
    match step.split_once(':') {
        None => {}
        Some(("dnssec_ok", value)) => asked.set_dnssec_ok(value == "true"),
        Some((_, octets)) => match NsidRef::from_slice(row.octets_of(octets)) {
            Ok(identifier) => row.keep(asked.add_opt(row.alloc(), &identifier)),
            Err(_) => row.fail(RowError::OutOfForm),
        },
    }
}

/// A reply that is composed of a message, with an NSID that is added or `-` for none.
pub(crate) fn reply_message(row: &mut Row<'_>) {
    let source = message_ref(row);
    let added = row.octets();
    match ReplyMessage::from_message(row.alloc(), &source) {
        Ok(reply) => composed(row, reply, added),
        Err(error) => row.debug(&error),
    }
}

/// The octets of a reply, to which an NSID is added if there are octets of one.
fn composed(row: &mut Row<'_>, reply: ReplyMessage, added: &[u8]) {
    let mut reply = reply;
    if !added.is_empty() {
        match NsidRef::from_slice(added) {
            Ok(identifier) => row.keep(reply.add_opt(row.alloc(), &identifier)),
            Err(_) => row.fail(RowError::OutOfForm),
        }
    }
    composed_said(row, &reply)
}

/// The octets of a reply, or why it can't be built.
pub(crate) fn composed_said(row: &mut Row<'_>, reply: &ReplyMessage) {
    built_said(row, reply.additional_builder_stream_target(row.alloc()))
}

/// The copy of a message with QR set, built.
pub(crate) fn copied_message(row: &mut Row<'_>) {
    let source = message_ref(row);
    match CopiedMessage::read(row.alloc(), &source) {
        Ok(mut copied) => {
            let mut header = copied.header();
            header.set_qr(true);
            copied.set_header(header);
            built_said(row, copied.build(row.alloc(), None))
        }
        Err(_) => row.fail(RowError::OutOfForm),
    }
}

/// The octets of what is built, or why it isn't.
fn built_said<E: Debug + Drop>(row: &mut Row<'_>, built: Result<AdditionalBuilder, E>) {
    match built {
        Ok(built) => row.hexadecimal(built.as_slice()),
        Err(error) => row.debug(&error),
    }
}
