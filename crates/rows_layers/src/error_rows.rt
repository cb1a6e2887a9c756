//! Rows of the errors of services and replies, and their texts.

use crate::words::service_error;
use dns_base::PushError;
use dns_name::{FormReason, ParseError};
use dns_service::{OutOfMemory, ReplyError, ServiceError};
use rows_table::{Row, RowError};

/// The error of a service that the next word names.
pub(crate) fn next_error(row: &mut Row<'_>) -> ServiceError {
    match service_error(row.word()) {
        Some(error) => error,
        None => {
            row.fail(RowError::OutOfForm);
            ServiceError::Refused
        }
    }
}

/// The response code of the next word's error, or its text.
pub(crate) fn error_said(row: &mut Row<'_>, coded: bool) {
    let error = next_error(row);
    if coded {
        row.show(&error.rcode().to_int())
    } else {
        row.show(&error)
    }
}

/// The error that a reply is refused with, if a push or a reading was, or memory was short.
pub(crate) fn refused_by(words: &str) -> Option<ReplyError> {
    match words {
        "push ShortBuf" => Some(PushError::ShortBuf.into()),
        "push OutOfMemory" => Some(PushError::OutOfMemory.into()),
        "parse ShortInput" => Some(ParseError::ShortInput.into()),
        "parse Shape" => Some(ParseError::Form(FormReason::Shape).into()),
        "parse OutOfMemory" => Some(ParseError::OutOfMemory.into()),
        "memory OutOfMemory" => Some(OutOfMemory.into()),
        _ => None,
    }
}
