//! The calls of dns_message.

ghost use Rattle.std.specs.Prelude.{IfOk};
ghost use Rattle.dns_message.specs.Records.{IsLawful};

use dns_message::{ComposeQuestion, MessageRef, QuestionIter, Record, RecordIter, plain_questions};
use dns_name::ParseError;
use rows_table::{Calls, Row, RowError};
use std::alloc::Global;

/// The calls of messages and their sections.
pub struct Messages;

impl Calls for Messages {
    fn answer(&self, call: &str, row: &mut Row<'_>) -> Result<(), RowError> {
        match call {
            "header_octets" => {
                let header = next_message(row).header();
                row.hexadecimal(&header.octets())
            }
            "plain_questions" => plain(row),
            "first_question" => first_question(row),
            "compose_question" => compose_question(row),
            "sections" => return sections(row),
            "answer" => return answer_types(row),
            _ => return Err(RowError::NoSuchCall),
        }
        Ok(())
    }
}

/// The message of the next word.
pub(crate) fn next_message<'a>(row: &mut Row<'a>) -> MessageRef<'a> {
    match MessageRef::from_slice(row.octets()) {
        Ok(message) => message,
        Err(_) => {
            row.fail(RowError::OutOfForm);
            MessageRef::of(b"\0\0\0\0\0\0\0\0\0\0\0\0")
        }
    }
}

/// The first four octets and the counts of a message's header. Then how many octets stand after its questions, if each name of them
/// is uncompressed.
fn plain(row: &mut Row<'_>) {
    let message = next_message(row);
    let octets = message.as_slice();
    row.hexadecimal(&message.header().octets());
    let counts = message.header_counts();
    row.tell("qdcount", &counts.qdcount);
    row.tell("ancount", &counts.ancount);
    row.tell("nscount", &counts.nscount);
    row.tell("arcount", &counts.arcount);
    match plain_questions(octets) {
        Some(end) => row.tell("behind", &(octets.len() - end)),
        None => row.say("none"),
    }
}

/// What a question appends to none.
pub(crate) fn composed<Q: ComposeQuestion>(row: &mut Row<'_>, question: &Q) {
    let mut target = Vec::new(row.alloc());
    row.keep(question.compose_question(row.alloc(), &mut target));
    row.hexadecimal(&target)
}

/// The first question, owned, and how many octets it says that it takes.
fn first_question(row: &mut Row<'_>) {
    match next_message(row).first_question() {
        Some(found) => match found.to_question(row.alloc()) {
            Ok(question) => {
                composed(row, &question);
                row.tell("compose_len", &question.compose_len())
            }
            Err(_) => row.fail(RowError::OutOfMemory),
        },
        None => row.say("none"),
    }
}

/// The first question, if it stands.
fn compose_question(row: &mut Row<'_>) {
    match next_message(row).first_question() {
        Some(found) => composed(row, &found),
        None => row.say("none"),
    }
}

/// The first of some records, owned; if there is none, octets are missing.
fn first_owned(alloc: Global, records: RecordIter<'_>) -> Result<Record, ParseError>
    ensures { IfOk result (λ r. IsLawful r.rdata) }
{
    let mut records = records;
    match records.next() {
        Some(Ok(found)) => found.to_record(alloc),
        Some(Err(error)) => Err(error),
        None => Err(ParseError::ShortInput),
    }
}

/// The first answer record of the next word's message, owned.
pub(crate) fn next_answer(row: &mut Row<'_>) -> Result<Record, RowError>
    ensures { IfOk result (λ r. IsLawful r.rdata) }
{
    match next_message(row).answer() {
        Ok(records) => match first_owned(row.alloc(), records) {
            Ok(found) => Ok(found),
            Err(error) => Err(error.into()),
        },
        Err(error) => Err(error.into()),
    }
}

/// What a value that was read is handed to.
pub(crate) trait Takes<V> {
    /// Which values it takes.
    ghost fits: { V → Type 0 };

    /// Takes it, and says what a row says of it.
    fn take(&mut self, row: &mut Row<'_>, item: &V)
        requires { fits item.now };
}

/// Hands a value on that was read; or says why there is none.
pub(crate) fn hand_on<V: Drop, T: Takes<V>>(
    row: &mut Row<'_>,
    to: &mut T,
    read: Result<V, RowError>,
)
    requires { IfOk read T.fits }
{
    match read {
        Ok(item) => to.take(row, &item),
        Err(fault) => row.give_up(fault),
    }
}

/// What a record appends to none.
pub(crate) fn record_octets(row: &mut Row<'_>, item: &Record)
    requires { IsLawful item.now.rdata }
{
    let mut target = Vec::new(row.alloc());
    row.keep(item.compose(row.alloc(), &mut target));
    row.hexadecimal(&target)
}

/// What a record's data appends to none.
pub(crate) fn data_octets(row: &mut Row<'_>, item: &Record) {
    let mut target = Vec::new(row.alloc());
    row.keep(item.rdata.compose(row.alloc(), &mut target));
    row.hexadecimal(&target)
}

/// Says the types of records after the name of their section.
fn types(row: &mut Row<'_>, section: &str, records: RecordIter<'_>) -> Result<(), RowError> {
    row.say(section);
    for found in records {
        row.show(&found?.rtype().to_int());
    }
    Ok(())
}

/// Says the types that are asked for.
fn asked(row: &mut Row<'_>, questions: QuestionIter<'_>) -> Result<(), RowError> {
    row.say("question");
    for found in questions {
        row.show(&found?.qtype().to_int());
    }
    Ok(())
}

/// The types of all four sections.
fn sections(row: &mut Row<'_>) -> Result<(), RowError> {
    let (questions, answer, authority, additional) = next_message(row).sections()?;
    asked(row, questions)?;
    types(row, "answer", answer)?;
    types(row, "authority", authority)?;
    types(row, "additional", additional)
}

/// The types of the answer records.
fn answer_types(row: &mut Row<'_>) -> Result<(), RowError> {
    match next_message(row).answer() {
        Ok(answer) => types(row, "answer", answer),
        Err(error) => Err(error.into()),
    }
}
