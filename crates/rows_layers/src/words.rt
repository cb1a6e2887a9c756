//! What words of rows stand for: messages, replies, response codes and errors.

use dns_base::{AdditionalBuilder, Message, MessageRef};
use dns_name::{OptRcode, Rcode};
use dns_opt::{MessageOpt, OptRecordRef};
use dns_route::CopiedMessage;
use dns_service::ServiceError;
use rows_table::{Row, RowError};
use std::alloc::Global;

/// The octets of the next word as a message.
pub(crate) fn message(row: &mut Row<'_>) -> Result<Message, RowError> {
    Message::from_octets(row.vector()).or(Err(RowError::OutOfForm))
}

/// The octets of the next word as a message that is borrowed.
pub(crate) fn message_ref<'a>(row: &mut Row<'a>) -> MessageRef<'a> {
    match MessageRef::from_slice(row.octets()) {
        Ok(message) => message,
        Err(_) => {
            row.fail(RowError::OutOfForm);
            MessageRef::of(b"\0\0\0\0\0\0\0\0\0\0\0\0")
        }
    }
}

/// Octets as a reply under construction: each section as it stands, with uncompressed names, and the OPT record last.
pub(crate) fn reply(alloc: Global, octets: &[u8]) -> Result<AdditionalBuilder, RowError> {
    match MessageRef::from_slice(octets) {
        Ok(message) => copied(alloc, &message),
        Err(_) => Err(RowError::OutOfForm),
    }
}

/// A message as a reply under construction: each section as it stands, names uncompressed, the OPT record last.
fn copied(alloc: Global, message: &MessageRef<'_>) -> Result<AdditionalBuilder, RowError> {
    match CopiedMessage::read(alloc, message) {
        Ok(copied) => built(alloc, &copied, message.opt()),
        Err(_) => Err(RowError::OutOfForm),
    }
}

/// A copy that is built, with this OPT record.
fn built(
    alloc: Global,
    copied: &CopiedMessage,
    opt: Option<OptRecordRef<'_>>,
) -> Result<AdditionalBuilder, RowError> {
    match opt {
        Some(found) => match found.to_owned(alloc) {
            Ok(opt) => copied.build(alloc, Some(&opt)).or(Err(RowError::OutOfForm)),
            Err(_) => Err(RowError::OutOfMemory),
        },
        None => copied.build(alloc, None).or(Err(RowError::OutOfForm)),
    }
}

/// The response code of a number.
pub(crate) fn opt_rcode(number: u8) -> OptRcode {
    let rcode = Rcode::checked_from_int(number % 16).unwrap_or(Rcode::NOERROR);
    OptRcode::from_parts(rcode, number / 16)
}

/// The error of a service by its name.
pub(crate) fn service_error(name: &str) -> Option<ServiceError> {
    match name {
        "FormatError" => Some(ServiceError::FormatError),
        "InternalError" => Some(ServiceError::InternalError),
        "NotImplemented" => Some(ServiceError::NotImplemented),
        "Refused" => Some(ServiceError::Refused),
        _ => None,
    }
}
