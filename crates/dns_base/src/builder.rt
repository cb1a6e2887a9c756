//! Builders of a message, one for each stage.

ghost use Rattle.std.specs.Prelude.{◌≡◌, ◌≤◌, length, min, IfOk};
ghost use Rattle.dns_base.specs.Msg.{IsMessage, item_counts};
ghost use Rattle.dns_base.specs.Wire.{wire};
ghost use Rattle.dns_base.specs.Built.{with_header};
ghost use Rattle.dns_base.specs.Readers.{AreReadable, readable_items};
ghost use Rattle.dns_base.specs.Sections.{all_of, questions_of};

mod additional;
mod assembled;
mod message;
mod question;
mod record;
mod stage;

use crate::draft::Draft;
use crate::stream::StreamTarget;
pub use assembled::assemble;
use dns_message::{Header, HeaderCounts, Message, MessageRef, QuestionIter};
use dns_name::OutOfMemory;
use stage::{AdditionalStage, AnswerStage, AuthorityStage, Before, HeaderStage, QuestionStage};
pub use stage::{RecordStage, Stage};
use std::alloc::Global;
use std::marker::{Model, PhantomData};

/// A message that is being built, at a stage: what is after that is empty.
#[derive(Debug, Drop)]
pub struct Builder<S: Stage> {
    draft: Draft,
    stage: PhantomData<S>,
}

impl<S: Stage> Model for Builder<S> {
    ghost use Rattle.dns_base.specs.Built.{Built, IsWithin};

    ghost Value = { Built };

    ghost view = { λ b. b.draft };

    ghost invariant = { λ b. IsWithin S.extent b.draft.message };
}

/// A message that nothing but a header was built of yet.
pub type MessageBuilder = Builder<HeaderStage>;

/// A message whose questions are being built.
pub type QuestionBuilder = Builder<QuestionStage>;

/// A message whose answer records are being built.
pub type AnswerBuilder = Builder<AnswerStage>;

/// A message whose authority records are being built.
pub type AuthorityBuilder = Builder<AuthorityStage>;

/// A message whose additional records are being built.
pub type AdditionalBuilder = Builder<AdditionalStage>;

impl<S: Before<QuestionStage>> Builder<S> {
    /// Goes on to the question section. The message stays as it is.
    pub fn question(self) -> QuestionBuilder
        ensures { result ≡ self }
    {
        self.at()
    }
}

impl<S: Before<AnswerStage>> Builder<S> {
    /// Goes on to the answer section. The message stays as it is.
    pub fn answer(self) -> AnswerBuilder
        ensures { result ≡ self }
    {
        self.at()
    }
}

impl<S: Before<AuthorityStage>> Builder<S> {
    /// Goes on to the authority section. The message stays as it is.
    pub fn authority(self) -> AuthorityBuilder
        ensures { result ≡ self }
    {
        self.at()
    }
}

impl<S: Before<AdditionalStage>> Builder<S> {
    /// Goes on to the additional section. The message stays as it is.
    pub fn additional(self) -> AdditionalBuilder
        ensures { result ≡ self }
    {
        self.at()
    }
}

impl<S: Stage> Builder<S> {
    /// Changes the stage, which is a type alone. The draft is moved, not copied.
    fn at<Later: Stage>(self) -> Builder<Later>
    where
        S: Before<Later>,
        ensures { result ≡ self }
    {
        Builder {
            draft: self.draft,
            stage: PhantomData,
        }
    }

    /// The header as it is so far, with the counts left out.
    pub fn header(&self) -> Header
        ensures { result ≡ self.now.message.header }
    {
        self.draft.header()
    }

    /// Replaces the header; the counts stay those of what was pushed.
    pub fn set_header(&mut self, header: Header)
        ensures { self.new ≡ with_header self.old header }
    {
        self.draft.set_header(header);
    }

    /// How many items each section has.
    pub fn counts(&self) -> HeaderCounts
        ensures { result ≡ item_counts self.now.message }
    {
        self.draft.counts()
    }

    /// How many octets the message may take; 65,535 if no limit is set.
    pub fn push_limit(&self) -> usize
        ensures value { result ≡ self.now.limit }
        ensures limited { result ≤ 65535 }
    {
        self.draft.push_limit()
    }

    /// Lets the message take that many octets, at most 65,535.
    pub fn set_push_limit(&mut self, limit: usize)
        ensures { self.new ≡ record self.old { limit = min limit 65535 } }
    {
        self.draft.set_push_limit(limit);
    }

    /// Lets the message take 65,535 octets.
    pub fn clear_push_limit(&mut self)
        ensures { self.new ≡ record self.old { limit = 65535 } }
    {
        self.draft.set_push_limit(65535);
    }

    /// The octets of the message as it is so far, uncut.
    pub fn as_slice(&self) -> &[u8]
        ensures value { result.now ≡ wire self.now.message }
        ensures lawful { IsMessage self.now.message }
        ensures header { 12 ≤ length result.now }
        ensures short { length result.now ≤ 65535 }
    {
        self.draft.as_slice()
    }

    /// The message as it is so far, to be read.
    pub fn as_message(&self) -> MessageRef<'_>
        ensures value { result ≡ wire self.now.message }
        ensures lawful { IsMessage self.now.message }
    {
        self.draft.as_message()
    }

    /// The questions, in order.
    pub fn questions(&self) -> QuestionIter<'_>
        ensures value { result ≡ all_of (questions_of (wire self.now.message)) }
        ensures readable { AreReadable result }
        ensures questions { readable_items result ≡ self.now.message.questions }
    {
        self.draft.questions()
    }

    /// A copy of message and limit in memory of its own.
    pub fn try_clone(&self, alloc: Global) -> Result<Builder<S>, OutOfMemory>
        ensures { IfOk result (λ b. b ≡ self.now) }
    {
        let draft = self.draft.try_clone(alloc)?;
        Ok(Builder {
            draft,
            stage: PhantomData,
        })
    }

    /// The message. Its octets are moved by two places within their own memory, and not copied.
    pub fn into_message(self) -> Message
        ensures value { result ≡ wire self.message }
        ensures lawful { IsMessage self.message }
    {
        self.draft.into_message()
    }

    /// Ends the build: the message as a datagram, or after its length for a stream.
    pub fn finish(self) -> StreamTarget
        ensures value { result ≡ wire self.message }
        ensures lawful { IsMessage self.message }
    {
        self.draft.finish()
    }
}
