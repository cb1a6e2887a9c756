//! The calls of dns_base.

ghost use Rattle.std.specs.Prelude.{◌≡◌, [], ◌∷◌, IfOk, Ok};
ghost use Rattle.dns_base.specs.Records.{IsLawful, record_of};
ghost use Rattle.dns_base.specs.Standing.{GivesParsed};

use crate::data::record_in_words;
use crate::messages::{Takes, hand_on, next_message};
use crate::stages::Stage;
use dns_base::{
    AdditionalBuilder, AnswerBuilder, Message, MessageBuilder, MessageRef, PushError, Record,
    RecordData, RecordFields, RecordRef, data_has_names, typed_records_read_back,
};
use dns_name::{ParseError, Rcode, Ttl};
use rows_table::{Calls, Row, RowError};
use std::alloc::Global;

/// The calls of dns_base.
pub struct Builders;

impl Calls for Builders {
    fn answer(&self, call: &str, row: &mut Row<'_>) -> Result<(), RowError> {
        match call {
            "built" => built(row, false),
            "framed" => built(row, true),
            "start_answer" => started(row, false),
            "start_error" => started(row, true),
            "typed" => typed(row),
            "own_answer" => own_answer(row),
            _ => return Err(RowError::NoSuchCall),
        }
        Ok(())
    }
}

/// What the steps say of an empty message, and the message as it is then or as it is finished.
fn built(row: &mut Row<'_>, framed: bool) {
    match MessageBuilder::new(row.alloc()) {
        Ok(builder) if framed => finished(row, Stage::Message(builder)),
        Ok(builder) => shown(row, Stage::Message(builder)),
        Err(_) => row.fail(RowError::OutOfMemory),
    }
}

/// What the steps say, and the octets that the message has after them.
fn shown(row: &mut Row<'_>, stage: Stage) {
    let mut stage = stage;
    row.take_steps(", ", &mut stage);
    row.hexadecimal(stage.as_slice())
}

/// What the steps say, and the finished message as a stream and as a datagram has it.
fn finished(row: &mut Row<'_>, stage: Stage) {
    let mut stage = stage;
    row.take_steps(", ", &mut stage);
    match stage.finish() {
        Some(frame) => {
            row.hexadecimal(frame.as_stream_slice());
            row.hexadecimal(frame.as_dgram_slice())
        }
        None => row.fail(RowError::NoSuchStep),
    }
}

/// The response code of the next word.
fn rcode(row: &mut Row<'_>) -> Rcode {
    match Rcode::checked_from_int(row.number()) {
        Some(rcode) => rcode,
        None => {
            row.fail(RowError::OutOfForm);
            Rcode::NOERROR
        }
    }
}

/// The answer or the error answer to a query, of at most that many octets and with a response code. And what the steps say of it.
fn started(row: &mut Row<'_>, error: bool) {
    let limit = row.number();
    let rcode = rcode(row);
    match Message::from_octets(row.vector()) {
        Ok(query) => begun(row, limit, rcode, &query, error),
        Err(_) => row.fail(RowError::OutOfForm),
    }
}

/// The answer or the error answer to this query, of at most `limit` octets, and what the steps say of it.
fn begun(row: &mut Row<'_>, limit: usize, rcode: Rcode, query: &Message, error: bool) {
    match answer(row.alloc(), limit, rcode, query, error) {
        Ok(answer) => shown(row, Stage::Answer(answer)),
        Err(error) => row.debug(&error),
    }
}

/// The answer or the error answer to a query, of at most that many octets and with a response code.
fn answer(
    alloc: Global,
    limit: usize,
    rcode: Rcode,
    query: &Message,
    error: bool,
) -> Result<AnswerBuilder, PushError> {
    let mut builder = MessageBuilder::new(alloc)?;
    builder.set_push_limit(limit);
    if error {
        Ok(builder.start_error(alloc, query, rcode)?)
    } else {
        builder.start_answer(alloc, query, rcode)
    }
}

/// The answer to a query by an address of the name that it asks for, whose question and name are written where they stand.
fn own_answer(row: &mut Row<'_>) {
    let query = next_message(row);
    let address = RecordData::A(row.array());
    match address_of_asked(row.alloc(), &query, &address) {
        Ok(builder) => row.hexadecimal(builder.as_slice()),
        Err(error) => row.debug(&error),
    }
}

/// A message with the first question of a query, if there is one, and a record of its name.
fn address_of_asked(
    alloc: Global,
    query: &MessageRef<'_>,
    rdata: &RecordData,
) -> Result<AnswerBuilder, PushError>
    requires { IsLawful rdata.now }
{
    let mut asked = MessageBuilder::new(alloc)?.question();
    let Some(question) = query.first_question() else {
        return Ok(asked.answer());
    };
    asked.push_composed(alloc, &question)?;
    let mut answered = asked.answer();
    let fields = RecordFields {
        owner: question.qname(),
        class: question.qclass(),
        ttl: Ttl::from_secs(60),
        rdata,
    };
    answered.push_composed(alloc, &fields)?;
    Ok(answered)
}

/// A message whose additional section is one record.
fn with_record(alloc: Global, item: &Record) -> Result<AdditionalBuilder, PushError>
    requires { IsLawful item.now.rdata }
    ensures { IfOk result (λ b. b.message.additional ≡ record_of item.now ∷ []) }
{
    let mut builder = MessageBuilder::new(alloc)?.additional();
    match builder.push(alloc, item) {
        Ok(()) => Ok(builder),
        Err(error) => Err(error),
    }
}

/// The data's octets of a record that is pushed, and whether all fields come back when they are read, names up to ASCII
/// case.
fn typed(row: &mut Row<'_>) {
    let read = record_in_words(row);
    hand_on(row, &mut Pushed {}, read)
}

/// Says of a record that is pushed its data's octets, and whether all fields read back.
#[derive(Drop)]
struct Pushed {}

impl Takes<Record> for Pushed {
    ghost fits = { λ r. IsLawful r.rdata };

    fn take(&mut self, row: &mut Row<'_>, item: &Record) {
        match with_record(row.alloc(), item) {
            Ok(builder) => read_again(row, &builder, item),
            Err(_) => row.fail(RowError::OutOfMemory),
        }
    }
}

/// The data's octets in a message that holds one record, and whether all its fields read back.
fn read_again(row: &mut Row<'_>, builder: &AdditionalBuilder, item: &Record)
    requires pushed { builder.now.message.additional ≡ record_of item.now ∷ [] }
    requires lawful { IsLawful item.now.rdata }
{
    data_said(row, builder);
    back_said(row, item, first_read(row.alloc(), builder, item))
}

/// Says the octets of the first additional record's data.
fn data_said(row: &mut Row<'_>, builder: &AdditionalBuilder) {
    match first_of(builder) {
        Ok(found) => row.hexadecimal(found.rdata()),
        Err(error) => row.refuse(error),
    }
}

/// The first additional record of what is built.
fn first_of<'a>(builder: &'a AdditionalBuilder) -> Result<RecordRef<'a>, ParseError> {
    match builder.as_message().additional()?.next() {
        Some(found) => found,
        None => Err(ParseError::ShortInput),
    }
}

/// The first additional record of what is built, which was pushed to an empty section.
fn first_read(
    alloc: Global,
    builder: &AdditionalBuilder,
    item: &Record,
) -> Result<Record, ParseError>
    requires pushed { builder.now.message.additional ≡ record_of item.now ∷ [] }
    requires lawful { IsLawful item.now.rdata }
    ensures { GivesParsed result (Ok item.now) }
{
    data_has_names(&item.rdata);
    typed_records_read_back();
    let message = builder.as_message();
    let mut records = message.additional()?;
    match records.next() {
        Some(found) => found?.to_record(alloc),
        None => Err(ParseError::ShortInput),
    }
}

/// What comes back when it is read.
trait ComesBack: Drop {
    /// Whether all fields are those of what was read.
    fn comes_back(&self, read: &Self) -> bool;
}

impl ComesBack for Record {
    fn comes_back(&self, read: &Record) -> bool {
        *self == *read && self.ttl == read.ttl
    }
}

/// Whether all fields came back.
fn back_said<T: ComesBack>(row: &mut Row<'_>, item: &T, read: Result<T, ParseError>) {
    match read {
        Ok(read) => row.tell_whether("reads_back", item.comes_back(&read)),
        Err(error) => row.refuse(error),
    }
}
