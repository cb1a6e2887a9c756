//! Messages that are built several items at a time.

ghost use Rattle.std.specs.Prelude.{◌≡◌};
ghost use Rattle.dns_base.specs.Built.{Pushes, empty, with_record};
ghost use Rattle.dns_base.specs.Builds.{Becomes, Builds, KeepsLimit, unlimited, with_records};
ghost use Rattle.dns_base.specs.Replies.{with_questions};

use crate::builder::stage::RecordStage;
use crate::builder::{AdditionalBuilder, Builder, MessageBuilder, QuestionBuilder};
use crate::copied_record::CopiedRecord;
use crate::error::PushError;
use dns_message::{Header, Question};
use std::alloc::Global;

impl<S: RecordStage> Builder<S> {
    /// Adds a copied record.
    fn push_copied(&mut self, alloc: Global, copied: &CopiedRecord) -> Result<(), PushError>
        ensures { Pushes self.old self.new (with_record S.section self.old copied.now) result }
    {
        self.push(alloc, copied.get())
    }

    /// Adds records, one after another.
    fn push_all(&mut self, alloc: Global, records: &[CopiedRecord]) -> Result<(), PushError>
        requires { KeepsLimit self.old }
        ensures { Becomes self.new (with_records S.section self.old records.now) result }
    {
        'each: for item in records {
            self.push_copied(alloc, item)?;
        }
        Ok(())
    }

    /// The message with these records.
    fn with_all(self, alloc: Global, records: &[CopiedRecord]) -> Result<Builder<S>, PushError>
        requires { KeepsLimit self }
        ensures { Builds (with_records S.section self records.now) result }
    {
        let mut builder = self;
        builder.push_all(alloc, records)?;
        Ok(builder)
    }
}

impl QuestionBuilder {
    /// Adds questions, one after another.
    fn push_questions(&mut self, alloc: Global, questions: &[Question]) -> Result<(), PushError>
        requires { KeepsLimit self.old }
        ensures { Becomes self.new (with_questions self.old questions.now) result }
    {
        'each: for item in questions {
            self.push(alloc, item)?;
        }
        Ok(())
    }
}

/// The empty message with a header.
fn started(alloc: Global, header: Header) -> Result<QuestionBuilder, PushError>
    ensures { Builds (unlimited (record empty { header = header })) result }
{
    let mut message = MessageBuilder::new(alloc)?;
    message.set_header(header);
    Ok(message.question())
}

/// A message with a header and questions.
fn questions_built(
    alloc: Global,
    header: Header,
    questions: &[Question],
) -> Result<QuestionBuilder, PushError>
    ensures { Builds (unlimited (record empty { header = header; questions = questions.now })) result }
{
    let mut builder = started(alloc, header)?;
    builder.push_questions(alloc, questions)?;
    Ok(builder)
}

/// The message of these parts, which may take 65,535 octets. Refused `ShortBuf` exactly if it would take more.
pub fn assemble(
    alloc: Global,
    header: Header,
    questions: &[Question],
    answers: &[CopiedRecord],
    authority: &[CopiedRecord],
    additional: &[CopiedRecord],
) -> Result<AdditionalBuilder, PushError>
    ensures { Builds (unlimited (record {
      header = header;
      questions = questions.now;
      answers = answers.now;
      authority = authority.now;
      additional = additional.now;
    })) result }
{
    let asked = questions_built(alloc, header, questions)?;
    let answered = asked.answer().with_all(alloc, answers)?;
    let referred = answered.authority().with_all(alloc, authority)?;
    referred.additional().with_all(alloc, additional)
}
