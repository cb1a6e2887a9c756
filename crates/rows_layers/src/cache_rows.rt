//! Rows of caches.

ghost use Rattle.std.specs.Prelude.{◌≡◌, IfOk, Ok, nat_lt, if◌then◌else◌};
ghost use Rattle.dns_service.specs.declared.service.Polled.TheVariants.{Pending, Ready};

use crate::request_rows::request_from;
use crate::router_rows::{Refusing, answer_said};
use crate::words::message;
use dns_base::Message;
use dns_cache::Cache;
use dns_name::IpAddr;
use dns_opt::MessageOpt;
use dns_route::{ReplyMessage, SingleService, Turned};
use dns_service::{OutOfMemory, Polled, Request, ServiceError};
use rows_table::{Row, RowError, Steps};
use std::alloc::Global;
use std::hash::RandomState;

/// Is pending some times, and then gives the same reply.
#[derive(Drop)]
struct Replying {
    waits: u64,
    reply: ReplyMessage,
}

impl SingleService for Replying {
    ghost answer = { λ s _ k. if nat_lt k s.waits then Pending else Ready (Ok s.reply) };

    fn turn(&self, alloc: Global, _request: &Request<()>, k: u64) -> Result<Turned, OutOfMemory> {
        if k < self.waits {
            return Ok(Polled::Pending);
        }
        Ok(Polled::Ready(Ok(same_reply(alloc, &self.reply)?)))
    }
}

/// A copy of a reply, with its OPT record if it has one.
fn same_reply(alloc: Global, reply: &ReplyMessage) -> Result<ReplyMessage, OutOfMemory>
    ensures { IfOk result (λ r. r ≡ reply.now) }
{
    let opt = match reply.opt() {
        Some(record) => Some(record.for_slice().to_owned(alloc)?),
        None => None,
    };
    let octets = Vec::from_slice(alloc, reply.message().as_slice())?;
    Ok(ReplyMessage::of(Message::of(octets), opt))
}

/// The reply of the next words: how often its service is pending, and a message.
fn next_reply(row: &mut Row<'_>) -> Result<Replying, RowError> {
    let waits = row.number();
    let reply = reply_of(row.alloc(), message(row)?)?;
    Ok(Replying { waits, reply })
}

/// The reply of a message, whose OPT record is kept whole.
fn reply_of(alloc: Global, message: Message) -> Result<ReplyMessage, OutOfMemory> {
    let opt = match message.opt() {
        Some(found) => Some(found.to_owned(alloc)?),
        None => None,
    };
    Ok(ReplyMessage::of(message, opt))
}

/// What a cache says at steps, which hashes from a seed, if there is one; the next word is its capacity.
pub(crate) fn cache(row: &mut Row<'_>, seed: Option<RandomState>) {
    let capacity: usize = row.number();
    let cache = match seed {
        Some(seed) => Cache::new_with_seed(row.alloc(), capacity, seed),
        None => Cache::new(row.alloc(), capacity),
    };
    match cache {
        Ok(cache) => row.take_steps(";", &mut Stepped { cache }),
        Err(_) => row.fail(RowError::OutOfMemory),
    }
}

/// A cache that steps are taken with.
#[derive(Drop)]
struct Stepped {
    cache: Cache,
}

impl Steps for Stepped {
    /// Says how many replies are kept, removes them, or takes another step.
    fn take_step(&mut self, step: &str, row: &mut Row<'_>) {
        match step {
            "length" => row.show(&self.cache.len()),
            "clear" => self.cache.clear(),
            _ => taken(row, &mut self.cache, step),
        }
    }
}

/// Takes a step with the request of the next words, after its second: the reply of its key is removed, or it is asked over a
/// service that gives a reply. Or, to tell what is kept, it is asked over one that refuses.
fn taken(row: &mut Row<'_>, cache: &mut Cache, step: &str) {
    let second = row.number();
    match request_from(row, IpAddr::V4([192, 0, 2, 1]), second) {
        Ok(request) => match step {
            "ask" => asked(row, cache, &request),
            "kept" => {
                let service = Refusing {
                    error: ServiceError::Refused,
                };
                asked_over(row, cache, &service, &request, 0)
            }
            "remove" => match cache.remove(row.alloc(), &request) {
                Ok(there) => row.whether(there),
                Err(_) => row.fail(RowError::OutOfMemory),
            },
            _ => row.fail(RowError::NoSuchStep),
        },
        Err(fault) => row.fail(fault),
    }
}

/// What a request is answered at a turn, whose service gives a reply.
fn asked(row: &mut Row<'_>, cache: &mut Cache, request: &Request<()>) {
    let k = row.number();
    match next_reply(row) {
        Ok(service) => asked_over(row, cache, &service, request, k),
        Err(fault) => row.fail(fault),
    }
}

/// What a request is answered at a turn.
fn asked_over<S: SingleService>(
    row: &mut Row<'_>,
    cache: &mut Cache,
    service: &S,
    request: &Request<()>,
    k: u64,
) {
    answer_said(row, cache.ask(row.alloc(), service, request, k))
}
