//! Requests that are asked again elsewhere.

ghost use Rattle.std.specs.Prelude.{◌≡◌, ◌≤◌, [], IfOk, Some, false, length};
ghost use Rattle.std.specs.Option.{option_copied};
ghost use Rattle.dns_route.specs.declared.kept.KeptKinds.TheVariants.{Subnets};
ghost use Rattle.dns_route.specs.KeptOptions.{kept_opt};
ghost use Rattle.dns_route.specs.RequestMessage.{AddsTo, ReadsRequest, Sends, request_error_text, request_of, request_opt, request_sent, sent_opt, sent_size};

use crate::kept::{KeptKinds, kept_opt, plain};
use dns_base::{Message, ParseError, PushError};
use dns_name::{BuildDataError, ComposeOptData, OutOfMemory};
use dns_opt::{MessageOpt, OptRecord, OptRecordRef};
use dns_service::{CopiedMessage, Request};
use std::alloc::Global;
use std::fmt;
use std::marker::Model;

/// The greatest payload over UDP that a sent request asks for, in octets (RFC 6891, section 6.2.5).
const SIZE: u16 = 1232;

/// Why a request can't be asked again.
#[derive(Clone, Copy, Debug, PartialEq, Eq)]
pub enum Error {
    /// A section, its data or an option of the first OPT record is unreadable.
    Unreadable(ParseError),
    OutOfMemory,
}

impl fmt::Display for Error {
    ghost output = { λ e. Some (request_error_text e) };

    fn fmt<W: fmt::Write>(&self, f: &mut fmt::Formatter<W>) -> fmt::Result {
        match self {
            Error::Unreadable(error) => write!(f, "unreadable request: {error}"),
            Error::OutOfMemory => f.write_str("out of memory"),
        }
    }
}

impl std::error::Error for Error {}

impl From<ParseError> for Error {
    ghost use Rattle.dns_route.specs.RequestMessage.{unreadable};

    ghost from_gives = { λ parse e. e ≡ unreadable parse };

    fn from(error: ParseError) -> Self {
        match error {
            ParseError::OutOfMemory => Error::OutOfMemory,
            other => Error::Unreadable(other),
        }
    }
}

/// A request without its OPT record, and the one that is sent in its place.
#[derive(Debug, Drop)]
pub struct RequestMessage {
    message: CopiedMessage,
    opt: OptRecord,
}

impl Model for RequestMessage {
    ghost use Rattle.std.specs.Prelude.{◌≡◌};
    ghost use Rattle.dns_opt.specs.OptRecords.{is_do};
    ghost use Rattle.dns_route.specs.KeptOptions.{plain_head};
    ghost use Rattle.dns_route.specs.RequestMessage.{RequestState, sent_size};

    ghost Value = { RequestState };

    ghost view = { λ r. record { message = r.message; dnssec_ok = is_do r.opt.head.flags; options = r.opt.options } };

    ghost invariant = { λ r. r.opt.head ≡ plain_head sent_size (is_do r.opt.head.flags) };
}

impl RequestMessage {
    /// Keeps the message without OPT record, the DO bit and the client subnets. Sections and data are read first, then the
    /// options of the first OPT record, each as its kind.
    pub fn try_from(alloc: Global, request: &Request<()>) -> Result<RequestMessage, Error>
        ensures { ReadsRequest (request_of request.now.octets) result }
    {
        let source = request.message();
        let message = CopiedMessage::read(alloc, &source.for_ref())?;
        match source.opt() {
            Some(found) => Self::kept(alloc, message, &found),
            None => Ok(Self::without_opt(alloc, message)),
        }
    }

    /// Keeps the DO bit and the client subnets of an OPT record.
    fn kept(
        alloc: Global,
        message: CopiedMessage,
        found: &OptRecordRef<'_>,
    ) -> Result<RequestMessage, Error>
        ensures { ReadsRequest (request_opt message (kept_opt sent_size Subnets found.now)) result }
    {
        let opt = kept_opt(alloc, SIZE, KeptKinds::Subnets, found)?;
        Ok(RequestMessage { message, opt })
    }

    /// The request of a message without an OPT record: no options, and DO isn't set.
    fn without_opt(alloc: Global, message: CopiedMessage) -> RequestMessage
        ensures { result ≡ record { message = message; dnssec_ok = false; options = [] } }
    {
        let opt = plain(OptRecord::default(alloc), SIZE, false);
        RequestMessage { message, opt }
    }

    /// Says whether DNSSEC records are wanted.
    pub fn set_dnssec_ok(&mut self, value: bool)
        ensures { self.new ≡ record self.old { dnssec_ok = value } }
    {
        self.opt.set_dnssec_ok(value);
    }

    /// Whether DNSSEC records are wanted (RFC 3225).
    pub fn dnssec_ok(&self) -> bool
        ensures { result ≡ self.now.dnssec_ok }
    {
        self.opt.dnssec_ok()
    }

    /// Adds an option. Refused LongOptData exactly if the options would pass 65,535 octets; a refused call leaves the
    /// request.
    pub fn add_opt<D: ComposeOptData>(
        &mut self,
        alloc: Global,
        opt: &D,
    ) -> Result<(), BuildDataError>
        ensures { AddsTo (D.code_of opt.now) (D.octets opt.now) self.old self.new result }
    {
        self.opt.push(alloc, opt)
    }

    /// The message that is sent: its names uncompressed, and last an OPT record of size 1,232 if DO is set or there are
    /// options.
    pub fn to_message(&self, alloc: Global) -> Result<Message, PushError>
        ensures { Sends (request_sent self.now) result }
    {
        let built = self.message.build(alloc, self.sent_opt())?;
        let _octets = built.as_slice();
        Ok(built.into_message())
    }

    /// The OPT record that is sent.
    fn sent_opt(&self) -> Option<&OptRecord>
        ensures { option_copied result ≡ sent_opt self.now.dnssec_ok self.now.options }
    {
        if self.opt.dnssec_ok() || !self.opt.opt().is_empty() {
            return Some(&self.opt);
        }
        None
    }
}
