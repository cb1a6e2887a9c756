//! What the service of a request gives to its connection.

ghost use Rattle.std.specs.Prelude.{◌≡◌, ◌≤◌, length, IfOk};
ghost use Rattle.dns_framing.specs.Frames.{framed};
ghost use Rattle.dns_embed.specs.Transactions.{counted, dropped_as, enqueued_as, frame_in, hearing, queueing};

use dns_framing::{ConnectionInvoker, ServiceInvoker, is_in_transaction};
use dns_service::{Enqueued, InvokerStatus, Octets, OutOfMemory, ServiceFeedback};
use std::alloc::Global;

/// What is heard of a request, besides its reply.
#[derive(Clone, Copy)]
pub enum Heard {
    /// Nothing.
    Nothing,
    /// A feedback.
    Feedback(ServiceFeedback),
    /// The request ends with an error.
    Failure,
}

/// Hears it, for the request of an invoker.
pub(crate) fn hear(invoker: &mut ConnectionInvoker, heard: Heard)
    ensures { invoker.new ≡ hearing heard invoker.old }
{
    match heard {
        Heard::Nothing => {}
        Heard::Feedback(feedback) => invoker.process_feedback(feedback),
        Heard::Failure => invoker.set_status(InvokerStatus::Aborting),
    }
}

/// Queues the frame of a reply, if there is one and it finds room.
pub(crate) fn enqueue(invoker: &mut ConnectionInvoker, frame: Option<Octets>) -> Option<Enqueued>
    ensures enqueued { result ≡ enqueued_as frame invoker.old }
    ensures queue { invoker.new ≡ queueing frame invoker.old }
{
    let frame = frame?;
    if invoker.offer(frame).is_none() {
        return Some(Enqueued::Queued);
    }
    if is_in_transaction(invoker.status) {
        Some(Enqueued::Held)
    } else {
        Some(Enqueued::Dropped)
    }
}

/// What becomes of a reply that nobody waits for any more; no octets are no reply.
pub(crate) fn dropped(reply: &[u8]) -> Option<Enqueued>
    ensures { result ≡ dropped_as (frame_in reply.now) }
{
    if reply.is_empty() {
        None
    } else {
        Some(Enqueued::Dropped)
    }
}

/// How many requests are in a transaction, of which one was in one, or is now.
pub(crate) fn recount(transactions: u64, was: bool, now: bool) -> u64
    ensures { result ≡ counted transactions was now }
{
    match (was, now) {
        (true, false) => transactions.saturating_sub(1),
        (false, true) => transactions.saturating_add(1),
        _ => transactions,
    }
}

/// The frame of a reply; no octets are no reply.
pub(crate) fn frame_in(alloc: Global, reply: &[u8]) -> Result<Option<Octets>, OutOfMemory>
    requires { length reply.now ≤ 65535 }
    ensures { IfOk result (λ f. f ≡ frame_in reply.now) }
{
    if reply.is_empty() {
        return Ok(None);
    }
    let frame = frame(alloc, reply)?;
    Ok(Some(frame))
}

/// A message after its length in two octets (RFC 1035, section 4.2.2).
pub(crate) fn frame(alloc: Global, message: &[u8]) -> Result<Octets, OutOfMemory>
    requires { length message.now ≤ 65535 }
    ensures { IfOk result (λ o. o ≡ framed message.now) }
{
    let len = message.len();
    let mut octets = Vec::with_capacity(alloc, len + 2)?;
    octets.push((len / 256) as u8)?;
    octets.push((len % 256) as u8)?;
    octets.extend_from_slice(message)?;
    Ok(Octets::from_vec(octets))
}
