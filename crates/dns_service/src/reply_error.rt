//! Why a reply could not be made.

ghost use Rattle.std.specs.Prelude.{◌≡◌};
ghost use Rattle.dns_service.specs.ReplyErrors.{push_refused, parse_refused};

use crate::service::ServiceError;
use dns_base::PushError;
use dns_name::{OutOfMemory, ParseError};

/// Why a reply could not be made: the service's own error, or out of memory, which no client is told of.
#[derive(Clone, Copy, Debug, PartialEq, Eq)]
pub enum ReplyError {
    /// The service's own error.
    Service(ServiceError),
    /// There was no memory.
    OutOfMemory,
}

impl From<PushError> for ReplyError {
    ghost from_gives = { λ push e. e ≡ push_refused push };

    fn from(error: PushError) -> Self {
        match error {
            PushError::ShortBuf => ReplyError::Service(ServiceError::InternalError),
            PushError::OutOfMemory => ReplyError::OutOfMemory,
        }
    }
}

impl From<ParseError> for ReplyError {
    ghost from_gives = { λ refusal e. e ≡ parse_refused refusal };

    fn from(error: ParseError) -> Self {
        match error {
            ParseError::ShortInput | ParseError::Form(_) => {
                ReplyError::Service(ServiceError::FormatError)
            }
            ParseError::OutOfMemory => ReplyError::OutOfMemory,
        }
    }
}

impl From<OutOfMemory> for ReplyError {
    ghost use Rattle.dns_service.specs.declared.reply_error.ReplyError.TheVariants.{OutOfMemory as NoMemory};

    ghost from_gives = { λ _ e. e ≡ NoMemory };

    fn from(_error: OutOfMemory) -> Self {
        ReplyError::OutOfMemory
    }
}
