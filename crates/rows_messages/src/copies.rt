//! Copies of names, questions, records and their data, and what these are equal to; and the first answer of a message.

ghost use Rattle.dns_message.specs.Records.{IsLawful};

use crate::messages::{
    Takes, composed, data_octets, hand_on, next_answer, next_message, record_octets,
};
use dns_message::{Question, Record, number_at};
use dns_name::Name;
use rows_table::{Calls, Row, RowError};

/// Copies, and calls of octets and of the first answer. They are asked last, since an answer is read before its call is
/// looked for.
pub struct Copies;

impl Calls for Copies {
    fn answer(&self, call: &str, row: &mut Row<'_>) -> Result<(), RowError> {
        match call {
            "number_at" => number_in(row),
            "name_copy" => name_copy(row),
            "question_copy" => question_copy(row),
            _ => of_answer(call, row),
        }
        Ok(())
    }
}

/// The number of two octets at a place of a message.
fn number_in(row: &mut Row<'_>) {
    let octets = row.octets();
    let place = row.number::<usize>();
    if place > octets.len() {
        row.fail(RowError::OutOfForm)
    } else {
        row.show(&number_at(octets, place))
    }
}

/// The octets of a name's copy, and whether it is equal to the other name.
fn name_copy(row: &mut Row<'_>) {
    match row.name().to_owned(row.alloc()) {
        Ok(name) => name_copied(row, &name),
        Err(_) => row.fail(RowError::OutOfMemory),
    }
}

/// The octets of a copy of this name, and whether it equals the next word's name.
fn name_copied(row: &mut Row<'_>, name: &Name) {
    match name.try_clone(row.alloc()) {
        Ok(copy) => {
            row.hexadecimal(copy.as_slice());
            let other = row.name();
            row.whether(copy.for_ref() == other)
        }
        Err(_) => row.fail(RowError::OutOfMemory),
    }
}

/// The first question of the next word's message, owned.
fn next_question(row: &mut Row<'_>) -> Result<Question, RowError> {
    match next_message(row).first_question() {
        Some(found) => found
            .to_question(row.alloc())
            .or(Err(RowError::OutOfMemory)),
        None => Err(RowError::OutOfForm),
    }
}

/// The octets of a copy of a message's first question, and whether it is equal to that of the other message.
fn question_copy(row: &mut Row<'_>) {
    match next_question(row) {
        Ok(question) => question_copied(row, &question),
        Err(fault) => row.fail(fault),
    }
}

/// The octets of a copy of this question, and whether it equals the next message's first question.
fn question_copied(row: &mut Row<'_>, question: &Question) {
    match question.try_clone(row.alloc()) {
        Ok(copy) => {
            composed(row, &copy);
            let other = next_question(row);
            compare(row, &copy, other)
        }
        Err(_) => row.fail(RowError::OutOfMemory),
    }
}

/// What a call says of a message's first answer.
fn of_answer(call: &str, row: &mut Row<'_>) {
    let read = next_answer(row);
    hand_on(row, &mut RecordCall { call }, read)
}

/// A call of a record: its octets or those of its data, names uncompressed; or those of a copy, and whether it is equal.
#[derive(Drop)]
struct RecordCall<'a> {
    call: &'a str,
}

impl Takes<Record> for RecordCall<'_> {
    ghost fits = { λ r. IsLawful r.rdata };

    fn take(&mut self, row: &mut Row<'_>, item: &Record) {
        match self.call {
            "first_answer" => record_octets(row, item),
            "answer_data" => data_octets(row, item),
            "record_copy" => record_copied(row, item),
            "data_copy" => data_copied(row, item),
            _ => row.fail(RowError::NoSuchCall),
        }
    }
}

/// What is said of a record's copy.
fn record_copied(row: &mut Row<'_>, item: &Record)
    requires { IsLawful item.now.rdata }
{
    let copy = item.try_clone(row.alloc()).or(Err(RowError::OutOfMemory));
    hand_on(row, &mut Compared {}, copy)
}

/// The octets of a record, and whether it is equal to the first answer of the next word's message.
#[derive(Drop)]
struct Compared {}

impl Takes<Record> for Compared {
    ghost fits = { λ r. IsLawful r.rdata };

    fn take(&mut self, row: &mut Row<'_>, item: &Record) {
        record_octets(row, item);
        let other = next_answer(row);
        compare(row, item, other)
    }
}

/// The octets of a record's data, and whether a copy of that data is equal to it.
fn data_copied(row: &mut Row<'_>, item: &Record) {
    data_octets(row, item);
    let copy = item.rdata.try_clone(row.alloc());
    compare(row, &item.rdata, copy.or(Err(RowError::OutOfMemory)))
}

/// Whether a value is equal to what was read.
fn compare<T: PartialEq + Drop>(row: &mut Row<'_>, value: &T, read: Result<T, RowError>) {
    match read {
        Ok(read) => row.whether(*value == read),
        Err(fault) => row.give_up(fault),
    }
}
