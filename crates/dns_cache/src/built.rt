//! Replies out of the cache that are kept as built, so that they needn't be read again.

ghost use Rattle.std.specs.Prelude.{◌≡◌, ◌≤◌, ◌++◌, ◌∷◌, [], List, length, IfOk, Ok};
ghost use Rattle.dns_base.specs.Built.{empty};
ghost use Rattle.dns_base.specs.Builds.{Becomes, Builds, KeepsLimit, unlimited, with_records};
ghost use Rattle.dns_base.specs.Msg.{ResourceRecord};
ghost use Rattle.dns_base.specs.Sections.{message_of, questions_of};
ghost use Rattle.dns_base.specs.Wire.{wire};
ghost use Rattle.dns_route.specs.ReplyMessage.{reply_message};
ghost use Rattle.dns_cache.specs.Aged.{aged, aged_record};
ghost use Rattle.dns_cache.specs.AgedRecords.{AreMarkedRecords, AreTheirs, IsMarkedRecord, aged_records, record_in};
ghost use Rattle.dns_cache.specs.AskedCache.{bare_octets};
ghost use Rattle.dns_cache.specs.Marks.{IsKept};

use crate::aged::{asked, push_record};
use crate::marks::{Mark, start_before};
use dns_base::{
    AdditionalBuilder, Builder, ComposeRecord, Header, Message, MessageBuilder, PushError,
    QuestionBuilder, QuestionRef, RecordStage,
};
use dns_route::ReplyMessage;
use dns_service::OutOfMemory;
use std::alloc::Global;

/// A marked record whose TTL is lowered by an age.
#[derive(Clone, Copy)]
struct AgedRecord<'a> {
    octets: &'a [u8],
    mark: Mark,
    age: u32,
}

impl ComposeRecord for AgedRecord<'_> {
    ghost resource = { λ r. aged_record r.age (record_in r.octets.now) };

    ghost is_lawful = { λ r. IsMarkedRecord r.mark r.octets.now };

    fn record_len(&self) -> usize {
        self.octets.len()
    }

    fn compose_record(&self, _alloc: Global, target: &mut Vec<u8>) -> Result<(), OutOfMemory> {
        push_record(self.octets, self.mark, self.age, target)
    }
}

/// The records of a section, one after another, and their marks.
#[derive(Clone, Copy)]
struct MarkedRecords<'a> {
    octets: &'a [u8],
    marks: &'a [Mark],
}

impl<'a> MarkedRecords<'a> {
    /// The first that many records, and those after them.
    fn split_at(self, count: usize) -> (MarkedRecords<'a>, MarkedRecords<'a>)
        requires { count ≤ length self.marks.now }
        ensures { (xs ys : List ResourceRecord) → length xs ≡ count → AreTheirs (xs ++ ys) self.entry.marks.now self.entry.octets.now
            → AreTheirs xs result.0.marks.now result.0.octets.now × AreTheirs ys result.1.marks.now result.1.octets.now }
    {
        let (marks, marks_behind) = self.marks.split_at(count);
        let size = self.octets.len() - start_before(marks, self.octets.len());
        let (octets, behind) = self.octets.split_at(size);
        (
            MarkedRecords { octets, marks },
            MarkedRecords {
                octets: behind,
                marks: marks_behind,
            },
        )
    }
}

/// The marked records of a message's sections.
#[derive(Clone, Copy)]
struct MarkedSections<'a> {
    answers: MarkedRecords<'a>,
    authority: MarkedRecords<'a>,
    additional: MarkedRecords<'a>,
}

/// Adds marked records to a section, their TTLs lowered by an age.
fn push_aged<S: RecordStage>(
    builder: &mut Builder<S>,
    alloc: Global,
    records: MarkedRecords<'_>,
    age: u32,
) -> Result<(), PushError>
    requires marked { AreMarkedRecords records.marks.now records.octets.now }
    requires short { KeepsLimit builder.old }
    ensures { let added = aged_records age records.entry.marks.now records.entry.octets.now in
        Becomes builder.new (with_records S.section builder.old added) result }
{
    let mut left = records.octets;
    'marks: for mark in records.marks {
        let (octets, behind) = left.split_at(mark.size as usize);
        let added = AgedRecord {
            octets,
            mark: *mark,
            age,
        };
        builder.push_composed(alloc, &added)?;
        left = behind;
    }
    Ok(())
}

/// The message with marked records in a section as well, their TTLs lowered by an age.
fn with_aged<S: RecordStage>(
    builder: Builder<S>,
    alloc: Global,
    records: MarkedRecords<'_>,
    age: u32,
) -> Result<Builder<S>, PushError>
    requires marked { AreMarkedRecords records.marks.now records.octets.now }
    requires short { KeepsLimit builder }
    ensures { Builds (with_records S.section builder (aged_records age records.entry.marks.now records.entry.octets.now)) result }
{
    let mut builder = builder;
    push_aged(&mut builder, alloc, records, age)?;
    Ok(builder)
}

/// A header and one question.
fn question_built(
    alloc: Global,
    header: Header,
    question: &QuestionRef<'_>,
) -> Result<QuestionBuilder, PushError>
    ensures { Builds (unlimited (record empty { header = header; questions = question.now ∷ [] })) result }
{
    let mut message = MessageBuilder::new(alloc)?;
    message.set_header(header);
    let mut builder = message.question();
    builder.push_composed(alloc, question)?;
    Ok(builder)
}

/// A message of a header, one question and the marked records of each section, their TTLs lowered by an age.
fn message_built(
    alloc: Global,
    header: Header,
    question: &QuestionRef<'_>,
    sections: MarkedSections<'_>,
    age: u32,
) -> Result<AdditionalBuilder, PushError>
    requires answers { AreMarkedRecords sections.answers.marks.now sections.answers.octets.now }
    requires authority { AreMarkedRecords sections.authority.marks.now sections.authority.octets.now }
    requires additional { AreMarkedRecords sections.additional.marks.now sections.additional.octets.now }
    ensures { Builds (unlimited (record {
      header = header;
      questions = question.now ∷ [];
      answers = aged_records age sections.entry.answers.marks.now sections.entry.answers.octets.now;
      authority = aged_records age sections.entry.authority.marks.now sections.entry.authority.octets.now;
      additional = aged_records age sections.entry.additional.marks.now sections.entry.additional.octets.now;
    })) result }
{
    let begun = question_built(alloc, header, question)?;
    let answered = with_aged(begun.answer(), alloc, sections.answers, age)?;
    let referred = with_aged(answered.authority(), alloc, sections.authority, age)?;
    with_aged(referred.additional(), alloc, sections.additional, age)
}

/// The marked records of a message that is kept.
fn sections_of<'a>(message: &'a Message, start: usize, marks: &'a [Mark]) -> MarkedSections<'a>
    requires { IsKept message.now start marks.now }
    ensures answers { AreTheirs (message_of message.now).answers result.answers.marks.now result.answers.octets.now }
    ensures authority { AreTheirs (message_of message.now).authority result.authority.marks.now result.authority.octets.now }
    ensures additional { AreTheirs (message_of message.now).additional result.additional.marks.now result.additional.octets.now }
{
    let counts = message.header_counts();
    let octets = &message.as_slice()[start..];
    let (answers, left) = MarkedRecords { octets, marks }.split_at(counts.ancount as usize);
    let (authority, additional) = left.split_at(counts.nscount as usize);
    MarkedSections {
        answers,
        authority,
        additional,
    }
}

/// A message that is kept without its OPT record, as a request of one question gets it at an age.
fn aged_built(
    alloc: Global,
    message: &Message,
    start: usize,
    marks: &[Mark],
    request: &Message,
    question: &QuestionRef<'_>,
    age: u32,
) -> Result<AdditionalBuilder, PushError>
    requires kept { IsKept message.now start marks.now }
    requires asked { (questions_of request.now).0 ≡ question.now ∷ [] }
    ensures { Builds (unlimited (aged (message_of message.now) request.now age)) result }
{
    let header = asked(message.header(), request.header());
    let sections = sections_of(message, start, marks);
    message_built(alloc, header, question, sections, age)
}

/// A message that is kept without its OPT record, built as a request of one question gets it at an age, if that fits.
pub(crate) fn built_message(
    alloc: Global,
    message: &Message,
    start: usize,
    marks: &[Mark],
    request: &Message,
    question: &QuestionRef<'_>,
    age: u32,
) -> Result<AdditionalBuilder, OutOfMemory>
    requires kept { IsKept message.now start marks.now }
    requires asked { (questions_of request.now).0 ≡ question.now ∷ [] }
    requires fits { length (wire (aged (message_of message.now) request.now age)) ≤ 65535 }
    ensures { IfOk result (λ b. b ≡ unlimited (aged (message_of message.now) request.now age)) }
{
    match aged_built(alloc, message, start, marks, request, question, age) {
        Ok(built) => Ok(built),
        Err(PushError::OutOfMemory) => Err(OutOfMemory),
        Err(PushError::ShortBuf) => unreachable!(),
    }
}

/// The reply of a message that is kept without its OPT record, as a request of one question gets it at an age.
pub(crate) fn built_reply(
    alloc: Global,
    message: &Message,
    start: usize,
    marks: &[Mark],
    request: &Message,
    question: &QuestionRef<'_>,
    age: u32,
) -> Result<ReplyMessage, OutOfMemory>
    requires kept { IsKept message.now start marks.now }
    requires asked { (questions_of request.now).0 ≡ question.now ∷ [] }
    requires fits { length (wire (aged (message_of message.now) request.now age)) ≤ 65535 }
    ensures message { IfOk result (λ r. reply_message r ≡ Ok (aged (message_of message.now) request.now age)) }
    ensures octets { IfOk result (λ r. r.octets ≡ bare_octets (aged (message_of message.now) request.now age)) }
{
    let built = built_message(alloc, message, start, marks, request, question, age)?;
    let _octets = built.as_slice();
    ReplyMessage::from_typed(alloc, built)
}
