//! How a query with options is built and read.

use crate::messages::opened;
use dns_base::{AdditionalBuilder, MessageBuilder, MessageRef, PushError, Question};
use dns_name::{Class, Name, OutOfMemory, Rtype};
use dns_opt::MessageOpt;
use rows_table::{Row, RowError};
use std::alloc::Global;

/// The question for the root's address.
fn question(alloc: Global) -> Result<Question, OutOfMemory> {
    Ok(Question {
        qname: Name::root(alloc)?,
        qtype: Rtype::A,
        qclass: Class::IN,
    })
}

/// A query for the root's address, at its additional records.
fn asking(alloc: Global) -> Result<AdditionalBuilder, PushError> {
    match question(alloc) {
        Ok(question) => asking_for(alloc, &question),
        Err(error) => Err(error.into()),
    }
}

/// A query with an identifier, RD and a question, at its additional records.
fn asking_for(alloc: Global, question: &Question) -> Result<AdditionalBuilder, PushError> {
    let mut message = MessageBuilder::new(alloc)?;
    let mut header = message.header();
    header.set_id(0x1234);
    header.set_rd(true);
    message.set_header(header);
    let mut builder = message.question();
    match builder.push(alloc, question) {
        Ok(()) => Ok(builder.additional()),
        Err(error) => Err(error),
    }
}

/// The type that a query asks for, and the size and the identifier's data of its OPT record.
pub fn query_said(row: &mut Row<'_>, octets: &[u8]) {
    match MessageRef::from_slice(octets) {
        Ok(query) => match (query.first_question(), query.opt()) {
            (Some(question), Some(opt)) => {
                row.tell("qtype", &question.qtype().to_int());
                row.tell("udp_payload_size", &opt.udp_payload_size());
                match opt.opt().nsid() {
                    Some(identifier) => row.tell_octets("nsid", identifier.as_slice()),
                    None => row.say("nsid=none"),
                }
            }
            _ => row.say("none"),
        },
        Err(_) => row.fail(RowError::OutOfForm),
    }
}

/// The query with an OPT record that the steps build, and what is read of it.
pub fn query(row: &mut Row<'_>) {
    match asking(row.alloc()) {
        Ok(mut builder) => match opened(&mut builder, row) {
            Ok(()) => {
                row.hexadecimal(builder.as_slice());
                query_said(row, builder.as_slice())
            }
            Err(refusal) => row.debug(&refusal),
        },
        Err(_) => row.fail(RowError::OutOfMemory),
    }
}
