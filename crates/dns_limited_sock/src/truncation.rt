//! What is sent in place of a reply that is truncated.

ghost use Rattle.std.specs.Prelude.{◌≡◌, IfOk, option_map};
ghost use Rattle.dns_limited_sock.specs.Emptied.{IsEmptied, with_tc};

use dns_message::plain_questions;
use dns_name::OutOfMemory;
use std::alloc::Global;

/// The bit TC of the third octet of a header (RFC 1035, section 4.1.1).
const TC: u8 = 2;

/// A header with TC, without its counts of records, and the questions behind it.
fn with_tc(alloc: Global, octets: &[u8]) -> Result<Option<Vec<u8>>, OutOfMemory>
    ensures { IfOk result (λ o. option_map (λ v. v.items) o ≡ with_tc octets.now) }
{
    let [
        id,
        id_end,
        flags,
        codes,
        many,
        questions,
        _,
        _,
        _,
        _,
        _,
        _,
        rest @ ..,
    ] = octets
    else {
        return Ok(None);
    };
    let header = [
        *id,
        *id_end,
        *flags | TC,
        *codes,
        *many,
        *questions,
        0,
        0,
        0,
        0,
        0,
        0,
    ];
    let mut short = Vec::from_slice(alloc, &header)?;
    short.extend_from_slice(rest)?;
    Ok(Some(short))
}

/// A message with TC and without its records; nothing if its questions can't be read.
pub fn emptied(alloc: Global, message: &[u8]) -> Result<Option<Vec<u8>>, OutOfMemory>
    ensures { IfOk result (λ short. IsEmptied message.now (option_map (λ v. v.items) short)) }
{
    if message.len() < 12 {
        return Ok(None);
    }
    match plain_questions(message) {
        Some(end) => with_tc(alloc, &message[..end]),
        None => Ok(None),
    }
}
