//! A response read into borrowed views. What can't be read counts as zero.

use crate::works::response::RESPONSE;
use dns_base::{MessageRef, QuestionIter, RecordIter, RecordRef, Rtype};
use dns_opt::{AllOptData, ComposeOptData, OptData, OptRef};

/// The sum of that many readings of the response, whose identifier is another each time.
pub(crate) fn readings(count: u64) -> u64 {
    let mut octets = RESPONSE;
    let mut sum = 0u64;
    for i in 0..count {
        octets[..2].copy_from_slice(&((i % 65536) as u16).to_be_bytes());
        sum = sum.wrapping_add(reading(&octets));
    }
    sum
}

/// The sum of the numbers of a message: header, questions, records of the three sections, and options.
fn reading(octets: &[u8]) -> u64 {
    match MessageRef::from_slice(octets) {
        Ok(message) => match message.sections() {
            Ok((questions, answer, authority, additional)) => {
                let header = message.header();
                (header.id as u64 + header.rcode.to_int() as u64)
                    .wrapping_add(asked(questions))
                    .wrapping_add(records(answer))
                    .wrapping_add(records(authority))
                    .wrapping_add(records(additional))
            }
            Err(_) => 0,
        },
        Err(_) => 0,
    }
}

/// The sum of the numbers of a message's questions.
fn asked(questions: QuestionIter<'_>) -> u64 {
    let mut sum = 0u64;
    for question in questions {
        if let Ok(question) = question {
            let of_one = question.qtype().to_int() as u64 + question.qclass().to_int() as u64;
            sum = sum.wrapping_add(of_one);
        }
    }
    sum
}

/// The sum of the numbers of a section's records, and of the options of an OPT record.
fn records(records: RecordIter<'_>) -> u64 {
    let mut sum = 0u64;
    for record in records {
        if let Ok(record) = record {
            sum = sum.wrapping_add(of_record(&record));
        }
    }
    sum
}

/// The sum of a record's type, class, TTL and length.
fn of_record(record: &RecordRef<'_>) -> u64 {
    let octets = record.rdata();
    let sum = (record.rtype().to_int() as u64 + record.class().to_int() as u64).wrapping_add(
        record.ttl().as_secs() as u64 + octets.len() as u64,
    );
    if record.rtype() == Rtype::OPT {
        sum.wrapping_add(options(octets))
    } else {
        sum
    }
}

/// The sum of the codes and lengths of a list's options, each read as its kind.
fn options(octets: &[u8]) -> u64 {
    let mut sum = 0u64;
    if let Ok(list) = OptRef::from_slice(octets) {
        for option in list.iter::<AllOptData>() {
            if let Ok(option) = option {
                sum = sum.wrapping_add(option.code().to_int() as u64 + option.compose_len() as u64);
            }
        }
    }
    sum
}
