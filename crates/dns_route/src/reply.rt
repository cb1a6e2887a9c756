//! Replies that are composed of other messages.

ghost use Rattle.std.specs.Prelude.{◌≡◌, IfOk, IfSome, None, Ok};
ghost use Rattle.std.specs.Option.{option_copied};
ghost use Rattle.dns_route.specs.OwnReplies.{kept_whole};
ghost use Rattle.dns_base.specs.Standing.{GivesParsed};
ghost use Rattle.dns_opt.specs.Reopened.{opt_among};
ghost use Rattle.dns_service.specs.LastOpt.{and_opt};
ghost use Rattle.dns_route.specs.declared.kept.KeptKinds.TheVariants.{SubnetsAndErrors};
ghost use Rattle.dns_route.specs.KeptOptions.{kept_opt};
ghost use Rattle.dns_route.specs.ReplyMessage.{Adds, BeginsReply, Composes, ReplyState, reply_message, reply_read, reply_with};

use crate::kept::{KeptKinds, kept_opt};
use dns_base::{AdditionalBuilder, Message, MessageRef, ParseError};
use dns_name::{BuildDataError, ComposeOptData, OutOfMemory};
use dns_opt::{BuildOpt, MessageOpt, OptRecord, OptRecordRef};
use dns_service::{CopiedMessage, ReplyError};
use std::alloc::Global;
use std::marker::Model;

/// A reply that is composed of another message.
pub trait ComposeReply: Sized {
    /// The octets of the message that a reply is composed of, and the OPT record that it gets.
    ghost state: { Self → ReplyState };

    /// Begins a reply with a message. FormatError if one of its options is unreadable.
    fn from_message(alloc: Global, message: &MessageRef<'_>) -> Result<Self, ReplyError>
        ensures { BeginsReply state (reply_read message.now) result };

    /// Adds an option to the reply's OPT record. Refused LongOptData exactly if the options would pass 65,535 octets; a
    /// refused call leaves the reply.
    fn add_opt<D: ComposeOptData>(&mut self, alloc: Global, opt: &D) -> Result<(), BuildDataError>
        ensures { Adds (D.code_of opt.now) (D.octets opt.now) (state self.old) (state self.new) result };

    /// The reply, which may be added to. FormatError if a section or its data is unreadable, else InternalError if
    /// something has no room in 65,535 octets.
    fn additional_builder_stream_target(
        &self,
        alloc: Global,
    ) -> Result<AdditionalBuilder, ReplyError>
        ensures { Composes (reply_message (state self.now)) result };
}

/// What a reply is composed of.
#[derive(Debug, Drop)]
enum Source {
    /// A message, which is read for it.
    Read(Message),
    /// A message that was built here.
    Built(AdditionalBuilder),
}

/// A message and the OPT record that it gets: in place of its own, if it has one. A message that was built here may be what is built
/// of the reply; then it isn't read for it.
#[derive(Debug, Drop)]
pub struct ReplyMessage {
    source: Source,
    opt: Option<OptRecord>,
    is_built: bool,
}

impl Model for ReplyMessage {
    ghost use Rattle.dns_route.specs.ReplyMessage.{ReplyState};
    ghost use Rattle.dns_route.specs.Sources.{KeepsBuilt, source_octets};

    ghost Value = { ReplyState };

    ghost view = { λ r. record { octets = source_octets r.source; opt = r.opt } };

    ghost invariant = { λ r. KeepsBuilt (record { octets = source_octets r.source; opt = r.opt }) r.source r.is_built };
}

impl ComposeReply for ReplyMessage {
    ghost state = { λ r. r };

    /// Keeps the octets, and of a readable OPT record the size, the DO bit, the client subnets and the extended errors.
    fn from_message(alloc: Global, message: &MessageRef<'_>) -> Result<Self, ReplyError> {
        match message.opt() {
            Some(found) => Ok(kept_reply(alloc, message, &found)?),
            None => Ok(reply_of(alloc, message, None)?),
        }
    }

    /// An OPT record whose numbers are all 0 is begun if there was none. Refused LongOptData exactly if its options
    /// would pass 65,535 octets.
    fn add_opt<D: ComposeOptData>(&mut self, alloc: Global, opt: &D) -> Result<(), BuildDataError> {
        self.is_built = false;
        match &mut self.opt {
            Some(kept) => kept.push(alloc, opt),
            None => self.begin_opt(alloc, opt),
        }
    }

    /// The message with names uncompressed, without its OPT records, and the kept one last. InternalError if that
    /// passes 65,535 octets.
    fn additional_builder_stream_target(
        &self,
        alloc: Global,
    ) -> Result<AdditionalBuilder, ReplyError> {
        match self.kept() {
            Some(built) => match built.try_clone(alloc) {
                Ok(copy) => Ok(copy),
                Err(_) => Err(ReplyError::OutOfMemory),
            },
            None => self.read_again(alloc),
        }
    }
}

impl ReplyMessage {
    /// The message that is built of the reply, if it is kept.
    fn kept(&self) -> Option<&AdditionalBuilder>
        ensures { IfSome result (λ b. Composes (reply_message self.now) (Ok b.now)) }
    {
        if !self.is_built {
            return None;
        }
        match &self.source {
            Source::Built(built) => Some(built),
            Source::Read(_) => None,
        }
    }

    /// The reply, whose message is read for it.
    fn read_again(&self, alloc: Global) -> Result<AdditionalBuilder, ReplyError>
        ensures { Composes (reply_message self.now) result }
    {
        let copied = CopiedMessage::read(alloc, &self.message())?;
        composed(alloc, copied, self.opt.as_ref())
    }

    /// The reply, as `additional_builder_stream_target` gives it. What was built is handed on and not copied.
    pub fn into_builder(self, alloc: Global) -> Result<AdditionalBuilder, ReplyError>
        ensures { Composes (reply_message self) result }
    {
        if !self.is_built {
            return self.read_again(alloc);
        }
        let ReplyMessage { source, opt, .. } = self;
        match source {
            Source::Built(built) => Ok(built),
            Source::Read(message) => ReplyMessage::of(message, opt).read_again(alloc),
        }
    }

    /// The reply of a message and the OPT record that takes the place of its own. The message is not copied.
    pub fn of(message: Message, opt: Option<OptRecord>) -> ReplyMessage
        ensures { result ≡ record { octets = message; opt = opt } }
    {
        ReplyMessage {
            source: Source::Read(message),
            opt,
            is_built: false,
        }
    }

    /// The message that the reply is composed of. Its OPT record isn't the reply's.
    pub fn message(&self) -> MessageRef<'_>
        ensures { result ≡ self.now.octets }
    {
        match &self.source {
            Source::Read(message) => message.for_ref(),
            Source::Built(built) => built.as_message(),
        }
    }

    /// The OPT record that the reply gets.
    pub fn opt(&self) -> Option<&OptRecord>
        ensures { option_copied result ≡ self.now.opt }
    {
        self.opt.as_ref()
    }

    /// Adds an option to an OPT record that is begun, all of whose numbers are 0.
    fn begin_opt<D: ComposeOptData>(&mut self, alloc: Global, opt: &D) -> Result<(), BuildDataError>
        requires { self.old.opt ≡ None }
        ensures { Adds (D.code_of opt.now) (D.octets opt.now) self.old self.new result }
    {
        let mut begun = OptRecord::default(alloc);
        begun.push(alloc, opt)?;
        self.is_built = false;
        self.opt = Some(begun);
        Ok(())
    }

    /// A reply that is a message of our own. Its OPT record is kept whole; its octets are taken over, and only its additional
    /// records are read.
    pub fn from_builder(
        alloc: Global,
        built: AdditionalBuilder,
    ) -> Result<ReplyMessage, OutOfMemory>
        ensures { IfOk result (λ r. r ≡ kept_whole built.message) }
    {
        let opt = own_record(alloc, &built)?;
        Ok(ReplyMessage::of(built.into_message(), opt))
    }

    /// A reply that is a message of our own, which is kept as built, so that it needn't be read and built again. It
    /// must be what a build of the reply gives.
    pub fn from_typed(alloc: Global, built: AdditionalBuilder) -> Result<ReplyMessage, OutOfMemory>
        requires { Composes (reply_message (kept_whole built.message)) (Ok built) }
        ensures { IfOk result (λ r. r ≡ kept_whole built.message) }
    {
        let opt = own_record(alloc, &built)?;
        Ok(ReplyMessage {
            source: Source::Built(built),
            opt,
            is_built: true,
        })
    }
}

/// The OPT record of a message that was built, owned.
fn own_record(alloc: Global, built: &AdditionalBuilder) -> Result<Option<OptRecord>, OutOfMemory>
    ensures { IfOk result (λ o. o ≡ opt_among built.now.message.additional) }
{
    match built.opt_record() {
        Some(found) => Ok(Some(found.to_owned(alloc)?)),
        None => Ok(None),
    }
}

/// A copy of a message with this OPT record as its last.
fn composed(
    alloc: Global,
    copied: CopiedMessage,
    opt: Option<&OptRecord>,
) -> Result<AdditionalBuilder, ReplyError>
    ensures { Composes (Ok (and_opt copied (option_copied opt.entry))) result }
{
    let built = copied.build(alloc, opt)?;
    Ok(built)
}

/// The reply that a message with an OPT record begins.
fn kept_reply(
    alloc: Global,
    message: &MessageRef<'_>,
    found: &OptRecordRef<'_>,
) -> Result<ReplyMessage, ParseError>
    ensures { GivesParsed result (reply_with message.now (kept_opt found.now.head.size SubnetsAndErrors found.now)) }
{
    let opt = kept_opt(
        alloc,
        found.udp_payload_size(),
        KeptKinds::SubnetsAndErrors,
        found,
    )?;
    let reply = reply_of(alloc, message, Some(opt))?;
    Ok(reply)
}

/// The reply that an owned message begins. The message is not copied.
pub(crate) fn owned_reply(alloc: Global, message: Message) -> Result<ReplyMessage, ParseError>
    ensures { GivesParsed result (reply_read message) }
{
    let opt = match message.opt() {
        Some(found) => Some(kept_opt(
            alloc,
            found.udp_payload_size(),
            KeptKinds::SubnetsAndErrors,
            &found,
        )?),
        None => None,
    };
    Ok(ReplyMessage::of(message, opt))
}

/// A reply that is a copy of the message, with this OPT record or without one.
fn reply_of(
    alloc: Global,
    message: &MessageRef<'_>,
    opt: Option<OptRecord>,
) -> Result<ReplyMessage, OutOfMemory>
    ensures { IfOk result (λ r. r ≡ record { octets = message.now; opt = opt }) }
{
    let message = owned(alloc, message)?;
    Ok(ReplyMessage::of(message, opt))
}

/// A copy of a borrowed message in memory of its own.
fn owned(alloc: Global, message: &MessageRef<'_>) -> Result<Message, OutOfMemory>
    ensures { IfOk result (λ m. m ≡ message.now) }
{
    let octets = Vec::from_slice(alloc, message.as_slice())?;
    match Message::from_octets(octets) {
        Ok(message) => Ok(message),
        Err(_) => unreachable!(),
    }
}
