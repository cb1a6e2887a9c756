//! Rows of zones that are signed with NSEC3.

use crate::zones::next_records;
use dns_base::Message;
use dns_hashed_reply::hashed_reply;
use dns_hashed_zone::HashedZone;
use dns_name::Name;
use rows_table::{Row, RowError};

/// The replies of a zone that is signed with NSEC3, or why it is refused: an apex, records, the number of queries, and for each the
/// octets that there are room for, and the query.
pub(crate) fn hashed(row: &mut Row<'_>) {
    match Name::from_octets(row.vector()) {
        Ok(apex) => made(row, apex),
        Err(_) => row.fail(RowError::OutOfForm),
    }
}

/// Makes the zone of an apex and the records of the next word, and asks it.
fn made(row: &mut Row<'_>, apex: Name) {
    let records = next_records(row);
    match HashedZone::of(row.alloc(), apex, records) {
        Ok(zone) => replies_said(row, &zone),
        Err(error) => row.debug(&error),
    }
}

/// Says the replies to queries.
fn replies_said(row: &mut Row<'_>, zone: &HashedZone) {
    let queries: u16 = row.number();
    for _ in 0..queries {
        let room = row.number();
        match Message::from_octets(row.vector()) {
            Ok(query) => reply_said(row, zone, &query, room),
            Err(_) => row.fail(RowError::OutOfForm),
        }
    }
}

/// Says the reply to a query.
fn reply_said(row: &mut Row<'_>, zone: &HashedZone, query: &Message, room: u16) {
    let alloc = row.alloc();
    let Some(question) = query.first_question() else {
        row.say("no question");
        return;
    };
    let Ok(name) = question.qname().to_name(alloc) else {
        row.say("memory");
        return;
    };
    if !zone.is_in_zone(&name.for_ref()) {
        row.say("outside");
        return;
    }
    match hashed_reply(zone, alloc, query, &question, room) {
        Ok(reply) => row.hexadecimal(reply.as_slice()),
        Err(error) => row.debug(&error),
    }
}
