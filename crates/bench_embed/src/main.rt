//! Decides about one query and rewrites one reply many times over, so that `bench/embed` can time it beside the same from C.
#![tactic(auto)]

use dns_base::{Class, IpAddr, NameRef, Rcode, Rtype, Section, SocketAddr, Ttl};
use dns_embed::{Action, Arrival, KnownVerdict, ReplyRule, decide_message, put, rewrite_message};
use dns_layers::NotifyError;
use dns_reply_builder::{PlainRecord, ServiceReply};
use dns_service::{Settings, TransportSpecificContext, UdpTransportContext};
use std::alloc::Global;
use std::env::Args;
use std::io;

const USAGE: &str = "Usage: bench_embed read|built COUNT";

/// example.com A, RD and an OPT record of 1,232 octets.
const QUERY: [u8; 40] =
    *b"\x12\x34\x01\x00\x00\x01\x00\x00\x00\x00\x00\x01\x07example\x03com\x00\x00\x01\x00\x01\x00\x00\x29\x04\xd0\x00\x00\x00\x00\x00\x00";

/// The reply with one A record.
const ANSWER: [u8; 45] =
    *b"\x12\x34\x85\x00\x00\x01\x00\x01\x00\x00\x00\x00\x07example\x03com\x00\x00\x01\x00\x01\xc0\x0c\x00\x01\x00\x01\x00\x00\x00\x3c\x00\x04\xc0\x00\x02\x01";

/// How the reply of the service comes.
#[derive(Clone, Copy)]
enum Service {
    /// As octets, which are read.
    Read,
    /// Built record by record.
    Built,
}

/// The length of the reply to one query, and 0 if there is none. Nothing is known of what it is given, as in a call from C.
#[inline(never)]
fn once(
    alloc: Global,
    service: Service,
    settings: &Settings,
    verdict: KnownVerdict,
    size: Option<u16>,
    at: u64,
    query: &[u8],
    reply: &mut [u8],
) -> usize {
    let arrival = Arrival {
        addr: SocketAddr {
            ip: IpAddr::V4([127, 0, 0, (at % 256) as u8]),
            port: (at % 65536) as u16,
        },
        at,
        secs: 1700000000 + at % 100,
        transport: TransportSpecificContext::Udp(UdpTransportContext::new(size)),
    };
    match decide_message(alloc, settings, verdict, arrival, query) {
        Ok(action) => answered(alloc, service, &action, query, reply),
        Err(_) => 0,
    }
}

/// The length of the reply, if a service was asked.
fn answered(
    alloc: Global,
    service: Service,
    action: &Action,
    query: &[u8],
    reply: &mut [u8],
) -> usize {
    match action {
        Action::Ask(rule) => match service {
            Service::Read => rewritten(alloc, rule, &ANSWER, reply),
            Service::Built => built(alloc, rule, query, reply).unwrap_or(0),
        },
        _ => 0,
    }
}

/// The length of the reply that is built, and rewritten by a rule.
#[inline(never)]
fn built(alloc: Global, rule: &ReplyRule, query: &[u8], reply: &mut [u8]) -> Option<usize> {
    match ServiceReply::begin(alloc, query, Rcode::NOERROR, true) {
        Ok(Some(mut held)) => filled(alloc, rule, query, &mut held, reply),
        _ => None,
    }
}

/// The length of a reply to which a record is added, and which is rewritten by a rule.
fn filled(
    alloc: Global,
    rule: &ReplyRule,
    query: &[u8],
    held: &mut ServiceReply,
    reply: &mut [u8],
) -> Option<usize> {
    let record = PlainRecord {
        owner: NameRef::from_slice(query.get(12..25)?).ok()?,
        rtype: Rtype::A,
        class: Class::IN,
        ttl: Ttl::from_secs(60),
        rdata: &[192, 0, 2, 1],
    };
    held.add(alloc, Section::Answer, &record).ok()?;
    held.rewrite(alloc, rule).ok()?;
    let octets = held.rewritten()?.as_slice();
    if put(octets, reply) {
        Some(octets.len())
    } else {
        None
    }
}

/// The length of the reply that is rewritten by a rule.
#[inline(never)]
fn rewritten(alloc: Global, rule: &ReplyRule, answer: &[u8], reply: &mut [u8]) -> usize {
    match rewrite_message(alloc, rule, answer) {
        Ok(built) => {
            let octets = built.as_slice();
            if put(octets, reply) { octets.len() } else { 0 }
        }
        Err(_) => 0,
    }
}

/// That many times: the sum of the lengths.
fn many(alloc: Global, service: Service, count: u64) -> u64 {
    let mut settings = Settings::new(alloc);
    settings.strict = count != 77;
    settings.edns = count != 78;
    summed(alloc, service, &settings, count)
}

/// The sum of the lengths under these settings.
fn summed(alloc: Global, service: Service, settings: &Settings, count: u64) -> u64 {
    let mut reply = [0u8; 512];
    let mut sum = 0u64;
    for at in 0..count {
        let verdict = KnownVerdict {
            verdict: if count == 79 {
                Ok(())
            } else {
                Err(NotifyError::NotAuthForZone)
            },
        };
        let size = if count == 80 { None } else { Some(1232) };
        let len = once(
            alloc, service, settings, verdict, size, at, &QUERY, &mut reply,
        );
        sum = sum.wrapping_add(len as u64);
    }
    sum
}

/// How the reply comes, by its word.
fn service_of(word: &str) -> Option<Service> {
    match word {
        "read" => Some(Service::Read),
        "built" => Some(Service::Built),
        _ => None,
    }
}

/// What the words for the reply and for the count ask for.
fn counted(alloc: Global, service: &str, count: &str) -> Option<u64> {
    let service = service_of(service)?;
    let count = count.parse::<u64>().ok()?;
    Some(many(alloc, service, count))
}

fn asked(alloc: Global, words: Args) -> Option<u64> {
    match words.collect::<Vec<String>>(alloc) {
        Ok(words) => match words.as_slice() {
            [_, service, count] => counted(alloc, service.as_str(), count.as_str()),
            _ => None,
        },
        Err(_) => None,
    }
}

fn main(rt: HostRuntime) -> io::Result<()> {
    match asked(rt.alloc(), std::env::args(&rt)?) {
        Some(sum) => println!(rt; "{sum}"),
        None => Err(io::Error::other(USAGE)),
    }
}
