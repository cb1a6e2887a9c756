//! What the service of a request gives to its connection: transactions, idle timeouts, replies.

ghost use Rattle.std.specs.Prelude.{◌≡◌};
ghost use Rattle.nutscythe_c.specs.declared.status.Status.{Status as TheStatus};
ghost use Rattle.nutscythe_c.specs.Calls.{number};
ghost use Rattle.nutscythe_c.specs.Objects.{OfFirst};
ghost use Rattle.nutscythe_c.specs.Transactions.{GivenBy, GivenTo, GivesBy, GivesTo, enqueued_status, heard_of, state_number, state_of};

use crate::handle::Handle;
use crate::handle_value::HandleValue;
use crate::status::Status;
use dns_embed::{Connection, Heard};
use dns_service::{Enqueued, InvokerStatus, ServiceFeedback};
use std::alloc::Global;

/// How far a request is, by a number: 0 its replies are single ones, 1 it is in a transaction, 2 it ended with an error.
fn state_of(number: u32) -> Option<InvokerStatus>
    ensures { result ≡ state_of number }
{
    match number {
        0 => Some(InvokerStatus::Normal),
        1 => Some(InvokerStatus::InTransaction),
        2 => Some(InvokerStatus::Aborting),
        _ => None,
    }
}

/// The number of how far a request is.
fn state_number(state: InvokerStatus) -> u32
    ensures { result ≡ state_number state }
{
    match state {
        InvokerStatus::Normal => 0,
        InvokerStatus::InTransaction => 1,
        InvokerStatus::Aborting => 2,
    }
}

/// What is heard of a request, by a number, and for how many ms its connection may be idle.
fn heard_of(number: u32, idle_timeout: u64) -> Option<Heard>
    ensures { result ≡ heard_of number idle_timeout }
{
    match number {
        0 => Some(Heard::Nothing),
        1 => Some(Heard::Feedback(ServiceFeedback::BeginTransaction)),
        2 => Some(Heard::Feedback(ServiceFeedback::EndTransaction)),
        3 => Some(Heard::Feedback(ServiceFeedback::Reconfigure {
            idle_timeout: Some(idle_timeout),
        })),
        4 => Some(Heard::Failure),
        _ => None,
    }
}

/// Hears what the service of a request gave, at a moment in ms, and queues its reply, if there is one and it finds room. `request`
/// says how far the request is, before and after the call. 0 nothing is heard, 1 a transaction begins, 2 it ends. 3 the connection
/// may be idle for `idle_timeout` ms, 4 the request ends with an error.
#[unsafe(no_mangle)]
pub extern "C" fn nutscythe_raw_connection_give(
    alloc: Global,
    connection: &mut [Handle],
    at: u64,
    request: &mut [u32],
    heard: u32,
    idle_timeout: u64,
    reply: &[u8],
) -> u32
    ensures { (t : TheStatus) × (result ≡ number t) × OfFirst connection.old connection.new (λ h i. OfFirst request.old request.new
        (λ n m. GivesBy at (state_of n) (heard_of heard idle_timeout) reply.now h.kept i.kept n m t)
        (t ≡ TheStatus.NullPointer × i.kept ≡ h.kept)) (t ≡ TheStatus.NullPointer × request.new ≡ request.old) }
{
    let heard = heard_of(heard, idle_timeout);
    give_at(alloc, connection, at, request, heard, reply) as u32
}

/// Hears and queues it, by its status.
fn give_at(
    alloc: Global,
    connection: &mut [Handle],
    at: u64,
    request: &mut [u32],
    heard: Option<Heard>,
    reply: &[u8],
) -> Status
    ensures { OfFirst connection.old connection.new (λ h i. OfFirst request.old request.new
        (λ n m. GivesBy at (state_of n) heard reply.now h.kept i.kept n m result)
        (result ≡ Status.NullPointer × i.kept ≡ h.kept)) (result ≡ Status.NullPointer × request.new ≡ request.old) }
{
    let [connection, ..] = connection else {
        return Status::NullPointer;
    };
    let [request, ..] = request else {
        return Status::NullPointer;
    };
    give_by(alloc, connection, at, request, heard, reply)
}

/// Hears and queues it, by numbers that may be out of range.
fn give_by(
    alloc: Global,
    connection: &mut Handle,
    at: u64,
    request: &mut u32,
    heard: Option<Heard>,
    reply: &[u8],
) -> Status
    ensures { GivesBy at (state_of request.old) heard reply.now connection.old.kept connection.new.kept request.old request.new result }
{
    let Some(state) = state_of(*request) else {
        return Status::OutOfRange;
    };
    let Some(heard) = heard else {
        return Status::OutOfRange;
    };
    give_in(alloc, connection, at, state, request, heard, reply)
}

/// Hears and queues it, for what a handle holds.
fn give_in(
    alloc: Global,
    connection: &mut Handle,
    at: u64,
    state: InvokerStatus,
    request: &mut u32,
    heard: Heard,
    reply: &[u8],
) -> Status
    ensures { GivesTo at state heard reply.now connection.old.kept connection.new.kept request.old request.new result }
{
    let Some(mut kept) = connection.take(alloc) else {
        return Status::NoHandle;
    };
    let status = match &mut *kept {
        HandleValue::Connection(opened) => give(alloc, opened, at, state, request, heard, reply),
        _ => Status::NoHandle,
    };
    connection.put(kept);
    status
}

/// Hears and queues it, for a connection.
fn give(
    alloc: Global,
    opened: &mut Connection,
    at: u64,
    state: InvokerStatus,
    request: &mut u32,
    heard: Heard,
    reply: &[u8],
) -> Status
    ensures { GivenTo at state heard reply.now opened.old opened.new request.old request.new result }
{
    match state {
        InvokerStatus::Normal | InvokerStatus::InTransaction => {
            give_going(alloc, opened, at, state, request, heard, reply)
        }
        InvokerStatus::Aborting => Status::Nothing,
    }
}

/// Hears and queues it, of a request that didn't end with an error, unless the connection is to be closed.
fn give_going(
    alloc: Global,
    opened: &mut Connection,
    at: u64,
    state: InvokerStatus,
    request: &mut u32,
    heard: Heard,
    reply: &[u8],
) -> Status
    ensures { GivenBy opened.old.is_closing at state heard reply.now opened.old opened.new request.old request.new result }
{
    if opened.is_closing() {
        return Status::Nothing;
    }
    if reply.len() > 65535 {
        return Status::TooLong;
    }
    match opened.give(alloc, at, state, heard, reply) {
        Ok((state, enqueued)) => {
            *request = state_number(state);
            enqueued_status(enqueued)
        }
        Err(_) => Status::NoMemory,
    }
}

/// What became of a reply, if there is one.
fn enqueued_status(enqueued: Option<Enqueued>) -> Status
    ensures { result ≡ enqueued_status enqueued }
{
    match enqueued {
        None | Some(Enqueued::Queued) => Status::Done,
        Some(Enqueued::Held) => Status::Held,
        Some(Enqueued::Dropped) => Status::Dropped,
    }
}
