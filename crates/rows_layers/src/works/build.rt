//! Messages built of the parts of a message that was read.

use crate::works::hash::cookie;
use crate::works::response::RESPONSE;
use dns_base::MessageRef;
use dns_cookie::siphash24;
use dns_name::ExtendedErrorCode;
use dns_opt::{BuildOpt, IdleTimeout};
use dns_service::CopiedMessage;
use std::alloc::Global;

/// The parts of a message, except for its OPT record.
fn parts(alloc: Global, octets: &[u8]) -> Option<CopiedMessage> {
    match MessageRef::from_slice(octets) {
        Ok(message) => CopiedMessage::read(alloc, &message).ok(),
        Err(_) => None,
    }
}

/// Builds the response that many times, and gives the sum of the lengths and of the hash of the last one.
pub(crate) fn built(alloc: Global, count: u64) -> Option<u64> {
    match parts(alloc, &RESPONSE) {
        Some(mut parts) => built_of(alloc, &mut parts, count),
        None => None,
    }
}

/// Builds the response of these parts `count` times, under identifiers that count up from 0, and sums what each gives.
fn built_of(alloc: Global, parts: &mut CopiedMessage, count: u64) -> Option<u64> {
    let mut sum = 0u64;
    for i in 0..count {
        let mut header = parts.header();
        header.id = (i % 65536) as u16;
        parts.set_header(header);
        match response_sum(alloc, parts, i == count - 1) {
            Some(of_one) => sum = sum.wrapping_add(of_one),
            None => return None,
        }
    }
    Some(sum)
}

/// The length of the response of these parts and its five options, and its hash if it is the last.
fn response_sum(alloc: Global, parts: &CopiedMessage, is_last: bool) -> Option<u64> {
    match parts.build(alloc, None) {
        Ok(mut builder) => {
            builder.set_push_limit(512);
            let done = builder.opt(alloc, |opt| {
                opt.set_udp_payload_size(1232);
                opt.set_dnssec_ok(true);
                opt.cookie(alloc, cookie(false))
                    .and(opt.nsid(alloc, b"ns1.site"))
                    .and(opt.extended_error(
                        alloc,
                        ExtendedErrorCode::from_int(3),
                        Some("Stale Answer"),
                    ))
                    .and(opt.tcp_keepalive(alloc, Some(IdleTimeout::from(100))))
                    .and(opt.padding(alloc, 51))
            });
            match done {
                Ok(()) => Some(octets_sum(builder.as_slice(), is_last)),
                Err(_) => None,
            }
        }
        Err(_) => None,
    }
}

fn octets_sum(octets: &[u8], is_last: bool) -> u64 {
    let len = octets.len() as u64;
    if is_last {
        len.wrapping_add(siphash24(&[0; 16], octets))
    } else {
        len
    }
}
