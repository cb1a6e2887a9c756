//! Messages under construction, and the steps that a row takes with them.

ghost use Rattle.std.specs.Prelude.{◌≡◌, ◌≤◌, IfOk, true, length};
ghost use Rattle.dns_base.specs.Options.{IsOptionList};
ghost use Rattle.dns_base.specs.Records.{IsLawful};

use crate::messages::{Takes, hand_on};
use dns_base::{
    AdditionalBuilder, AnswerBuilder, AuthorityBuilder, MessageBuilder, Question, QuestionBuilder,
    Record, StreamTarget, is_option_list, record_in,
};
use dns_name::{Class, NameRef, OutOfMemory, ParseError, Parser, Rtype, Ttl};
use rows_table::{Row, RowError, Steps};
use std::alloc::Global;
use std::mem::replace;

/// A message under construction, at one of its sections.
#[derive(Drop)]
pub enum Stage {
    /// No message, while one is moved on to a section.
    Gone,
    Message(MessageBuilder),
    Question(QuestionBuilder),
    Answer(AnswerBuilder),
    Authority(AuthorityBuilder),
    Additional(AdditionalBuilder),
}

impl Stage {
    /// The message's octets.
    pub fn as_slice(&self) -> &[u8] {
        match self {
            Stage::Gone => b"",
            Stage::Message(builder) => builder.as_slice(),
            Stage::Question(builder) => builder.as_slice(),
            Stage::Answer(builder) => builder.as_slice(),
            Stage::Authority(builder) => builder.as_slice(),
            Stage::Additional(builder) => builder.as_slice(),
        }
    }

    /// The finished message.
    pub fn finish(self) -> Option<StreamTarget> {
        match self {
            Stage::Gone => None,
            Stage::Message(builder) => Some(builder.finish()),
            Stage::Question(builder) => Some(builder.finish()),
            Stage::Answer(builder) => Some(builder.finish()),
            Stage::Authority(builder) => Some(builder.finish()),
            Stage::Additional(builder) => Some(builder.finish()),
        }
    }

    /// The name of the section.
    fn section(&self) -> &'static str {
        match self {
            Stage::Gone => "",
            Stage::Message(_) => "message",
            Stage::Question(_) => "question",
            Stage::Answer(_) => "answer",
            Stage::Authority(_) => "authority",
            Stage::Additional(_) => "additional",
        }
    }

    /// Lets the message take that many octets.
    fn limit(&mut self, limit: usize) {
        match self {
            Stage::Gone => {}
            Stage::Message(builder) => builder.set_push_limit(limit),
            Stage::Question(builder) => builder.set_push_limit(limit),
            Stage::Answer(builder) => builder.set_push_limit(limit),
            Stage::Authority(builder) => builder.set_push_limit(limit),
            Stage::Additional(builder) => builder.set_push_limit(limit),
        }
    }

    /// Lets the message take as many octets as any.
    fn unlimit(&mut self) {
        match self {
            Stage::Gone => {}
            Stage::Message(builder) => builder.clear_push_limit(),
            Stage::Question(builder) => builder.clear_push_limit(),
            Stage::Answer(builder) => builder.clear_push_limit(),
            Stage::Authority(builder) => builder.clear_push_limit(),
            Stage::Additional(builder) => builder.clear_push_limit(),
        }
    }

    /// Drops the section's items.
    fn rewind(&mut self, row: &mut Row<'_>) {
        match self {
            Stage::Gone | Stage::Message(_) => row.fail(RowError::NoSuchStep),
            Stage::Question(builder) => builder.rewind(),
            Stage::Answer(builder) => builder.rewind(),
            Stage::Authority(builder) => builder.rewind(),
            Stage::Additional(builder) => builder.rewind(),
        }
    }

    /// Goes on with a copy.
    fn clone_in_place(&mut self, row: &mut Row<'_>) {
        match self.try_clone(row.alloc()) {
            Ok(copy) => *self = copy,
            Err(_) => row.fail(RowError::OutOfMemory),
        }
    }

    /// A copy.
    fn try_clone(&self, alloc: Global) -> Result<Stage, OutOfMemory> {
        match self {
            Stage::Gone => Ok(Stage::Gone),
            Stage::Message(builder) => Ok(Stage::Message(builder.try_clone(alloc)?)),
            Stage::Question(builder) => Ok(Stage::Question(builder.try_clone(alloc)?)),
            Stage::Answer(builder) => Ok(Stage::Answer(builder.try_clone(alloc)?)),
            Stage::Authority(builder) => Ok(Stage::Authority(builder.try_clone(alloc)?)),
            Stage::Additional(builder) => Ok(Stage::Additional(builder.try_clone(alloc)?)),
        }
    }
}

/// The message at the section after its own; the last one has none.
fn moved(stage: Stage) -> Stage {
    match stage {
        Stage::Message(builder) => Stage::Question(builder.question()),
        Stage::Question(builder) => Stage::Answer(builder.answer()),
        Stage::Answer(builder) => Stage::Authority(builder.authority()),
        Stage::Authority(builder) => Stage::Additional(builder.additional()),
        _ => Stage::Gone,
    }
}

/// Moves the message on, from section to section, to the later one of this name.
fn move_on(stage: &mut Stage, section: &str, row: &mut Row<'_>) {
    for _ in 0..4 {
        *stage = moved(replace(stage, Stage::Gone));
        if stage.section() == section {
            return;
        }
    }
    row.fail(RowError::NoSuchStep)
}

/// The question that octets are.
fn question_of(alloc: Global, octets: &[u8]) -> Result<Question, ParseError> {
    let mut parser = Parser::from_ref(octets);
    match NameRef::parse(&mut parser) {
        Ok(name) => question_behind(alloc, &name, &mut parser),
        Err(error) => Err(error),
    }
}

/// The question of a name, whose type and class are after it.
fn question_behind(
    alloc: Global,
    name: &NameRef<'_>,
    parser: &mut Parser<'_>,
) -> Result<Question, ParseError> {
    let qtype = Rtype::from_int(parser.parse_u16_be()?);
    let qclass = Class::from_int(parser.parse_u16_be()?);
    match name.to_owned(alloc) {
        Ok(qname) => Ok(Question {
            qname,
            qtype,
            qclass,
        }),
        Err(error) => Err(error.into()),
    }
}

/// The record that octets are.
fn record_of(alloc: Global, octets: &[u8]) -> Result<Record, RowError>
    ensures { IfOk result (λ r. IsLawful r.rdata) }
{
    match record_in(octets, 0) {
        Ok((found, _)) => found.to_record(alloc).or(Err(RowError::OutOfForm)),
        Err(_) => Err(RowError::OutOfForm),
    }
}

/// A message that a record is added to, or in which it replaces others.
#[derive(Drop)]
struct Put<'a> {
    stage: &'a mut Stage,
    replaces: bool,
}

impl Takes<Record> for Put<'_> {
    ghost fits = { λ r. IsLawful r.rdata };

    fn take(&mut self, row: &mut Row<'_>, item: &Record) {
        if self.replaces {
            replace_record(self.stage, row, item)
        } else {
            push_record(self.stage, row, item)
        }
    }
}

/// Adds a record to the section, and says what that answers.
fn push_record(stage: &mut Stage, row: &mut Row<'_>, item: &Record)
    requires { IsLawful item.now.rdata }
{
    let alloc = row.alloc();
    match stage {
        Stage::Answer(builder) => row.outcome(builder.push(alloc, item)),
        Stage::Authority(builder) => row.outcome(builder.push(alloc, item)),
        Stage::Additional(builder) => row.outcome(builder.push(alloc, item)),
        _ => row.fail(RowError::NoSuchStep),
    }
}

/// Puts a record in place of the additional ones of its type, and says what that answers.
fn replace_record(stage: &mut Stage, row: &mut Row<'_>, item: &Record)
    requires { IsLawful item.now.rdata }
{
    match stage {
        Stage::Additional(builder) => {
            row.outcome(builder.replace_type(row.alloc(), item.rdata.rtype(), item))
        }
        _ => row.fail(RowError::NoSuchStep),
    }
}

/// Puts in the record of the next word.
fn put_next(stage: &mut Stage, row: &mut Row<'_>, replaces: bool) {
    let read = record_of(row.alloc(), row.octets());
    hand_on(row, &mut Put { stage, replaces }, read)
}

/// Whether octets may be the data of an OPT record.
fn are_options(octets: &[u8]) -> bool
    ensures { result ≡ true → IsOptionList octets.now × (length octets.now ≤ 65535) }
{
    octets.len() <= 65535 && is_option_list(octets)
}

/// Adds the OPT record of the next words, its size, its TTL and its options, or puts it in place of the OPT records. It says what
/// that answers.
fn with_opt(builder: &mut AdditionalBuilder, row: &mut Row<'_>, replaces: bool) {
    let (size, ttl) = (row.number(), Ttl::from_secs(row.number()));
    let options = row.octets();
    if !are_options(options) {
        row.fail(RowError::OutOfForm)
    } else if replaces {
        row.outcome(builder.replace_opt(row.alloc(), size, ttl, options))
    } else {
        row.outcome(builder.push_opt(row.alloc(), size, ttl, options))
    }
}

impl Steps for Stage {
    fn take_step(&mut self, step: &str, row: &mut Row<'_>) {
        match step {
            "push" => push_next(self, row),
            "replace" => put_next(self, row, true),
            "limit" => self.limit(row.number()),
            "unlimit" => self.unlimit(),
            _ => take_another(self, step, row),
        }
    }
}

/// Another step: of any message, of the additional records alone, or a move to a later section.
fn take_another(stage: &mut Stage, step: &str, row: &mut Row<'_>) {
    match step {
        "rewind" => stage.rewind(row),
        "clone" => stage.clone_in_place(row),
        _ => match stage {
            Stage::Additional(builder) => match step {
                "remove" => builder.remove_type(Rtype::from_int(row.number())),
                "push_opt" => with_opt(builder, row, false),
                "replace_opt" => with_opt(builder, row, true),
                _ => row.fail(RowError::NoSuchStep),
            },
            _ => move_on(stage, step, row),
        },
    }
}

/// Adds the question or record of the next word, and says what that answers.
fn push_next(stage: &mut Stage, row: &mut Row<'_>) {
    match stage {
        Stage::Question(builder) => match question_of(row.alloc(), row.octets()) {
            Ok(question) => row.outcome(builder.push(row.alloc(), &question)),
            Err(error) => row.fail(error.into()),
        },
        _ => put_next(stage, row, false),
    }
}
