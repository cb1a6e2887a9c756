//! Message that nothing but a header was built of yet.

ghost use Rattle.std.specs.Prelude.{◌≡◌, IfOk};
ghost use Rattle.dns_base.specs.Built.{empty};
ghost use Rattle.dns_base.specs.Replies.{Answers, answer_header, error_to, with_rcode};

use crate::builder::{AnswerBuilder, Builder, MessageBuilder};
use crate::draft::Draft;
use crate::error::PushError;
use dns_message::{Header, Message};
use dns_name::{OutOfMemory, Rcode};
use std::alloc::Global;
use std::marker::PhantomData;

impl MessageBuilder {
    /// The empty message with a zero header, which may take 65,535 octets.
    #[inline(always)]
    pub fn new(alloc: Global) -> Result<MessageBuilder, OutOfMemory>
        ensures { IfOk result (λ b. b ≡ record { message = empty; limit = 65535 }) }
    {
        let draft = Draft::new(alloc)?;
        Ok(Builder {
            draft,
            stage: PhantomData,
        })
    }

    /// The empty message with a zero header, which may take 65,535 octets, in memory that is used again if it is large enough.
    #[inline(always)]
    pub fn in_memory(alloc: Global, memory: Vec<u8>) -> Result<MessageBuilder, OutOfMemory>
        ensures { IfOk result (λ b. b ≡ record { message = empty; limit = 65535 }) }
    {
        let draft = Draft::in_memory(alloc, memory)?;
        Ok(Builder {
            draft,
            stage: PhantomData,
        })
    }

    /// Begins the answer to a query: its identifier, opcode, RD and questions are copied, up to the first
    /// unreadable question, and QR and the response code are set.
    #[inline(always)]
    pub fn start_answer(
        self,
        alloc: Global,
        message: &Message,
        rcode: Rcode,
    ) -> Result<AnswerBuilder, PushError>
        ensures { Answers self message.now rcode result }
    {
        let mut draft = self.draft;
        let header = draft.header();
        draft.set_header(answered(header, message.header(), rcode));
        draft.copy_questions(alloc, message)?;
        Ok(Builder {
            draft,
            stage: PhantomData,
        })
    }

    /// Begins the answer to a query as `start_answer` of the empty message does, in memory that is used again if it is large enough.
    #[inline(always)]
    pub fn start_answer_in(
        alloc: Global,
        memory: Vec<u8>,
        message: &Message,
        rcode: Rcode,
    ) -> Result<AnswerBuilder, PushError>
        ensures { Answers (record { message = empty; limit = 65535 }) message.now rcode result }
    {
        let mut draft = Draft::in_memory(alloc, memory)?;
        draft.set_answer_header(message, rcode);
        draft.copy_questions(alloc, message)?;
        Ok(Builder {
            draft,
            stage: PhantomData,
        })
    }

    /// Begins the error answer to a query, as `start_answer` does; at a question that has no room the response
    /// code is set to SERVFAIL, and the questions before it stay.
    pub fn start_error(
        self,
        alloc: Global,
        message: &Message,
        rcode: Rcode,
    ) -> Result<AnswerBuilder, OutOfMemory>
        ensures { IfOk result (λ b. b ≡ error_to self message.now rcode) }
    {
        let mut draft = self.draft;
        let header = draft.header();
        draft.set_header(answered(header, message.header(), rcode));
        match draft.copy_questions(alloc, message) {
            Ok(()) => {}
            Err(PushError::ShortBuf) => fail(&mut draft),
            Err(PushError::OutOfMemory) => return Err(OutOfMemory),
        }
        Ok(Builder {
            draft,
            stage: PhantomData,
        })
    }
}

/// Sets the response code to SERVFAIL.
fn fail(draft: &mut Draft)
    ensures { draft.new ≡ with_rcode draft.old 2 }
{
    let header = Header {
        rcode: Rcode::SERVFAIL,
        ..draft.header()
    };
    draft.set_header(header);
}

/// A header as the answer to a query's.
fn answered(header: Header, query: Header, rcode: Rcode) -> Header
    ensures { result ≡ answer_header header query rcode }
{
    Header {
        id: query.id,
        qr: true,
        opcode: query.opcode,
        rd: query.rd,
        rcode,
        ..header
    }
}
