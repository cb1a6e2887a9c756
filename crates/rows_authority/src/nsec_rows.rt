//! Rows of NSEC records as a zone has them.

use crate::questions::asked;
use crate::zones::next_records;
use dns_base::Message;
use dns_name::Name;
use dns_nsec_data::types_in;
use dns_signed_reply::secure_reply;
use dns_signed_zone::SignedZone;
use rows_table::{Row, RowError};

/// The types of the type bit maps that the next word is.
pub(crate) fn types_of_row(row: &mut Row<'_>) {
    let octets = row.octets();
    match types_in(row.alloc(), octets) {
        Ok(Some(types)) => types_said(row, types.as_slice()),
        Ok(None) => row.say("malformed"),
        Err(_) => row.fail(RowError::OutOfMemory),
    }
}

/// Types, `-` for none.
fn types_said(row: &mut Row<'_>, types: &[u16]) {
    if types.is_empty() {
        row.say("-");
    }
    for rtype in types {
        row.show(rtype);
    }
}

/// Makes the signed zone of an apex and records, or says why they are none.
pub(crate) fn secured(row: &mut Row<'_>) {
    match Name::from_octets(row.vector()) {
        Ok(apex) => made(row, apex),
        Err(_) => row.fail(RowError::OutOfForm),
    }
}

/// Makes the signed zone of an apex and the records of the next word.
fn made(row: &mut Row<'_>, apex: Name) {
    let records = next_records(row);
    match SignedZone::of(row.alloc(), apex, records) {
        Ok(zone) => asked(row, &zone),
        Err(error) => row.debug(&error),
    }
}

/// The replies of a signed zone: an apex, records, the number of queries, and for each the octets that there are room for, and
/// the query.
pub(crate) fn replied(row: &mut Row<'_>) {
    match Name::from_octets(row.vector()) {
        Ok(apex) => reply_made(row, apex),
        Err(_) => row.fail(RowError::OutOfForm),
    }
}

/// Makes the signed zone of an apex and the records of the next word, and asks it.
fn reply_made(row: &mut Row<'_>, apex: Name) {
    let records = next_records(row);
    match SignedZone::of(row.alloc(), apex, records) {
        Ok(zone) => reply_said(row, &zone),
        Err(error) => row.debug(&error),
    }
}

/// Says the replies to queries.
fn reply_said(row: &mut Row<'_>, zone: &SignedZone) {
    let queries: u16 = row.number();
    for _ in 0..queries {
        let room = row.number();
        match Message::from_octets(row.vector()) {
            Ok(query) => one_replied(row, zone, &query, room),
            Err(_) => row.fail(RowError::OutOfForm),
        }
    }
}

/// Says the reply to a query.
fn one_replied(row: &mut Row<'_>, zone: &SignedZone, query: &Message, room: u16) {
    let alloc = row.alloc();
    let Some(question) = query.first_question() else {
        row.say("no question");
        return;
    };
    let Ok(name) = question.qname().to_name(alloc) else {
        row.say("memory");
        return;
    };
    if !zone.is_in_zone(&name.for_ref()) {
        row.say("outside");
        return;
    }
    match secure_reply(zone, alloc, query, &question, room) {
        Ok(reply) => row.hexadecimal(reply.as_slice()),
        Err(error) => row.debug(&error),
    }
}
