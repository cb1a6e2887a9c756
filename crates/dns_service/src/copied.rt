//! Messages that are copied, their names uncompressed.

ghost use Rattle.std.specs.Prelude.{◌≡◌, ◌≤◌, length, IfOk};
ghost use Rattle.std.specs.Option.{option_copied};
ghost use Rattle.dns_base.specs.Builds.{Builds, unlimited};
ghost use Rattle.dns_base.specs.Header.{header_of};
ghost use Rattle.dns_base.specs.Read.{question_at};
ghost use Rattle.dns_base.specs.Replaced.{other_than};
ghost use Rattle.dns_base.specs.Sections.{additional_of, all_of, answers_of, authority_of, items_from, questions_of, standing_additional, standing_answers, standing_authority};
ghost use Rattle.dns_base.specs.Standing.{GivesParsed, record_at, standing_at};
ghost use Rattle.dns_service.specs.Copied.{GivesAll, GivesSection, copied, copied_records, gathered, others_of, whole_list};
ghost use Rattle.dns_service.specs.LastOpt.{and_opt};

use crate::last_opt::opt_built;
use dns_base::{
    AdditionalBuilder, CopiedRecord, Header, MessageRef, ParseError, PushError, Question, Rtype,
    assemble, number_at, question_in, record_in,
};
use dns_replies::OptRecord;
use std::alloc::Global;
use std::marker::Model;

/// A message that was read whole, without the OPT records of its additional section.
#[derive(Debug, Drop)]
pub struct CopiedMessage {
    header: Header,
    questions: Vec<Question>,
    answers: Vec<CopiedRecord>,
    authority: Vec<CopiedRecord>,
    additional: Vec<CopiedRecord>,
}

impl Model for CopiedMessage {
    ghost use Rattle.dns_base.specs.Msg.{Msg};

    ghost Value = { Msg };

    ghost view = { λ m. record {
      header = m.header;
      questions = m.questions.items;
      answers = m.answers.items;
      authority = m.authority.items;
      additional = m.additional.items;
    } };
}

impl CopiedMessage {
    /// Reads a message from its front, each section from where the one before it ends; refused as the first question,
    /// record or data that is unreadable.
    #[tactic(auto, unfolding(crate::specs::Copied::copied))]
    pub fn read(alloc: Global, message: &MessageRef<'_>) -> Result<CopiedMessage, ParseError>
        ensures { GivesParsed result (copied message.now) }
    {
        let (questions, at) = questions_in(alloc, message)?;
        let (answers, at) = answers_in(alloc, message, at)?;
        Self::read_on(alloc, message, questions, answers, at)
    }

    /// Reads the sections after the answers, which end at a place.
    fn read_on(
        alloc: Global,
        message: &MessageRef<'_>,
        questions: Vec<Question>,
        answers: Vec<CopiedRecord>,
        at: usize,
    ) -> Result<CopiedMessage, ParseError>
        requires within { at ≤ length message.now }
        requires here { (answers_of message.now).1 ≡ Ok at }
        ensures { GivesParsed result (gathered (header_of message.now) (Ok questions.items) (Ok answers.items)
            (copied_records (all_of (standing_authority message.now)))
            (others_of (copied_records (all_of (standing_additional message.now))))) }
    {
        let (authority, at) = authority_in(alloc, message, at)?;
        let additional = others_in(alloc, message, at)?;
        Ok(CopiedMessage {
            header: message.header(),
            questions,
            answers,
            authority,
            additional,
        })
    }

    /// The header that the built message will have.
    pub fn header(&self) -> Header
        ensures { result ≡ self.now.header }
    {
        self.header
    }

    /// Replaces the header that the built message will have.
    pub fn set_header(&mut self, header: Header)
        ensures { self.new ≡ record self.old { header = header } }
    {
        self.header = header;
    }

    /// The message with its names uncompressed, and an OPT record as its last if one is given.
    pub fn build(
        &self,
        alloc: Global,
        opt: Option<&OptRecord>,
    ) -> Result<AdditionalBuilder, PushError>
        ensures { Builds (unlimited (and_opt self.now (option_copied opt.entry))) result }
    {
        let message = assemble(
            alloc,
            self.header,
            self.questions.as_slice(),
            self.answers.as_slice(),
            self.authority.as_slice(),
            self.additional.as_slice(),
        )?;
        opt_built(message, alloc, opt)
    }
}

/// The questions of a message, and the place after them.
fn questions_in(
    alloc: Global,
    message: &MessageRef<'_>,
) -> Result<(Vec<Question>, usize), ParseError>
    ensures value { GivesSection result (whole_list (all_of (questions_of message.now))) (questions_of message.now).1 }
    ensures within { IfOk result (λ r. r.1 ≤ length message.now) }
{
    let octets = message.as_slice();
    questions_from(alloc, octets, 12, number_at(octets, 4))
}

/// Reads `count` questions from a place on: the questions, and the place after them.
#[tactic(auto, using(crate::proofs::CopyLaws::question_gives))]
fn questions_from(
    alloc: Global,
    message: &[u8],
    start: usize,
    count: u16,
) -> Result<(Vec<Question>, usize), ParseError>
    requires { start ≤ length message.now }
    ensures value { GivesSection result (whole_list (all_of (items_from (question_at message.now) count start)))
        (items_from (question_at message.now) count start).1 }
    ensures within { IfOk result (λ r. r.1 ≤ length message.now) }
{
    let mut questions = Vec::new(alloc);
    let mut at = start;
    let mut left = count;
    'each: while left > 0 {
        let (item, end) = question_in(message, at)?;
        let question = item.to_question(alloc)?;
        questions.push(question)?;
        at = end;
        left -= 1;
    }
    Ok((questions, at))
}

/// Copies `count` records from a place on: the records, and the place after them.
#[tactic(auto, using(crate::proofs::CopyLaws::record_gives, crate::proofs::CopyLaws::record_next, crate::proofs::CopyLaws::data_refused))]
fn records_from(
    alloc: Global,
    message: &[u8],
    start: usize,
    count: u16,
) -> Result<(Vec<CopiedRecord>, usize), ParseError>
    requires { start ≤ length message.now }
    ensures value { GivesSection result (copied_records (all_of (items_from (standing_at message.now) count start)))
        (items_from (record_at message.now) count start).1 }
    ensures within { IfOk result (λ r. r.1 ≤ length message.now) }
{
    let mut records = Vec::new(alloc);
    let mut at = start;
    let mut left = count;
    'each: while left > 0 {
        let (item, end) = record_in(message, at)?;
        let copy = CopiedRecord::read(alloc, &item)?;
        records.push(copy)?;
        at = end;
        left -= 1;
    }
    Ok((records, at))
}

/// The answer records of a message, which begin at a place, and the place after them.
fn answers_in(
    alloc: Global,
    message: &MessageRef<'_>,
    at: usize,
) -> Result<(Vec<CopiedRecord>, usize), ParseError>
    requires within { at ≤ length message.now }
    requires here { (questions_of message.now).1 ≡ Ok at }
    ensures value { GivesSection result (copied_records (all_of (standing_answers message.now))) (answers_of message.now).1 }
    ensures within { IfOk result (λ r. r.1 ≤ length message.now) }
{
    let octets = message.as_slice();
    records_from(alloc, octets, at, number_at(octets, 6))
}

/// The authority records of a message, which begin at a place, and the place after them.
fn authority_in(
    alloc: Global,
    message: &MessageRef<'_>,
    at: usize,
) -> Result<(Vec<CopiedRecord>, usize), ParseError>
    requires within { at ≤ length message.now }
    requires here { (answers_of message.now).1 ≡ Ok at }
    ensures value { GivesSection result (copied_records (all_of (standing_authority message.now))) (authority_of message.now).1 }
    ensures within { IfOk result (λ r. r.1 ≤ length message.now) }
{
    let octets = message.as_slice();
    records_from(alloc, octets, at, number_at(octets, 8))
}

/// The additional records of a message, which begin at a place, and the place after them.
fn additional_in(
    alloc: Global,
    message: &MessageRef<'_>,
    at: usize,
) -> Result<(Vec<CopiedRecord>, usize), ParseError>
    requires within { at ≤ length message.now }
    requires here { (authority_of message.now).1 ≡ Ok at }
    ensures { GivesSection result (copied_records (all_of (standing_additional message.now))) (additional_of message.now).1 }
{
    let octets = message.as_slice();
    records_from(alloc, octets, at, number_at(octets, 10))
}

/// The additional records of a message, which begin at a place, without those of type OPT.
fn others_in(
    alloc: Global,
    message: &MessageRef<'_>,
    at: usize,
) -> Result<Vec<CopiedRecord>, ParseError>
    requires within { at ≤ length message.now }
    requires here { (authority_of message.now).1 ≡ Ok at }
    ensures { GivesAll result (others_of (copied_records (all_of (standing_additional message.now)))) }
{
    let (mut records, _) = additional_in(alloc, message, at)?;
    drop_opts(&mut records);
    Ok(records)
}

/// Drops the records of type OPT.
fn drop_opts(records: &mut Vec<CopiedRecord>)
    ensures { records.new.items ≡ other_than 41 records.old.items }
{
    records.retain(|item| item.rtype() != Rtype::OPT);
}
