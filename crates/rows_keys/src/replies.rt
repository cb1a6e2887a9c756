//! The calls of dns_limited_sock: the kind of a reply, what takes its place, and the cookie of a request.

use dns_base::MessageRef;
use dns_limited_sock::{ReplyKind, emptied, has_good_cookie};
use rows_table::{Calls, Row, RowError};

/// Calls of replies that are limited.
pub struct Replies;

impl Calls for Replies {
    fn answer(&self, call: &str, row: &mut Row<'_>) -> Result<(), RowError> {
        match call {
            "kind" => kind(row),
            "emptied" => without_records(row),
            "good_cookie" => good_cookie(row),
            _ => return Err(RowError::NoSuchCall),
        }
        Ok(())
    }
}

/// The kind of a reply, and the zone of a negative one.
fn kind(row: &mut Row<'_>) {
    let octets = row.octets();
    let alloc = row.alloc();
    let Ok(message) = MessageRef::from_slice(octets) else {
        return row.fail(RowError::OutOfForm);
    };
    match ReplyKind::of(alloc, &message) {
        Ok(ReplyKind::Answer) => row.say("answer"),
        Ok(ReplyKind::Referral) => row.say("referral"),
        Ok(ReplyKind::Negative(zone)) => {
            row.say("negative");
            row.hexadecimal(zone.as_slice());
        }
        Ok(ReplyKind::Error) => row.say("error"),
        Err(_) => row.fail(RowError::OutOfMemory),
    }
}

/// What takes the place of a reply.
fn without_records(row: &mut Row<'_>) {
    let octets = row.octets();
    match emptied(row.alloc(), octets) {
        Ok(Some(short)) => row.hexadecimal(short.as_slice()),
        Ok(None) => row.say("nothing"),
        Err(_) => row.fail(RowError::OutOfMemory),
    }
}

/// Whether a request has a good cookie: secret, address, second and the request.
fn good_cookie(row: &mut Row<'_>) {
    let secret = row.array::<16>();
    let address = row.address();
    let second = row.number();
    let octets = row.octets();
    match MessageRef::from_slice(octets) {
        Ok(message) => row.whether(has_good_cookie(&message, &secret, address, second)),
        Err(_) => row.fail(RowError::OutOfForm),
    }
}
