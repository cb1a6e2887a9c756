//! The replies of a transfer.

ghost use Rattle.std.specs.Prelude.{◌≡◌, IfOk, length, Some, None};
ghost use Rattle.dns_service.specs.declared.service.Polled.{Polled};
ghost use Rattle.std.specs.Arc.{arc_value};
ghost use Rattle.dns_base.specs.Builds.{Builds, unlimited};
ghost use Rattle.dns_base.specs.Msg.{Msg};
ghost use Rattle.dns_transfer.specs.Transfers.{behind_replies, feedback_at, polls_left, message_item, transfer_from, transfer_message, transfer_of};

use crate::bunches::Bunches;
use dns_base::{AdditionalBuilder, Message, PushError, Rcode, WireRecords};
use dns_service::{
    CallResult, OutOfMemory, Polled, ReplyStream, ServiceError, ServiceFeedback, ServiceResult,
};
use dns_zone::begin_reply;
use std::alloc::Global;
use std::sync::Arc;

/// A transfer: one reply for each bunch of records, and then the end of the transaction.
#[derive(Drop)]
pub struct Transfer {
    bunches: Arc<Bunches>,
    query: Arc<Message>,
    next: usize,
}

impl Transfer {
    /// From the first reply on.
    pub fn new(bunches: Arc<Bunches>, query: Arc<Message>) -> Transfer
        ensures { ⟦<Transfer as ReplyStream>⟧.answer result ≡ transfer_from (arc_value bunches) (arc_value query) 0 }
    {
        Transfer {
            bunches,
            query,
            next: 0,
        }
    }

    /// What is answered now.
    fn answer(&self, alloc: Global) -> Result<Polled<Option<ServiceResult>>, OutOfMemory>
        ensures { IfOk result (λ p. p ≡ transfer_of (arc_value self.now.bunches) (arc_value self.now.query) self.now.next) }
    {
        match self.bunches.get(self.next) {
            Some(bunch) => replied(alloc, &self.query, bunch, self.next),
            None => Ok(behind_replies(self.bunches.len(), self.next)),
        }
    }
}

impl ReplyStream for Transfer {
    ghost answer = { λ t. transfer_from (arc_value t.bunches) (arc_value t.query) t.next };

    ghost size = { λ t. polls_left (length (arc_value t.bunches)) t.next };

    fn poll_next(&mut self, alloc: Global) -> Result<Polled<Option<ServiceResult>>, OutOfMemory> {
        let answer = self.answer(alloc)?;
        if self.next <= self.bunches.len() {
            self.next += 1;
        }
        Ok(answer)
    }

    fn size_hint(&self) -> (usize, Option<usize>) {
        let left = (self.bunches.len() + 1).saturating_sub(self.next);
        (left, Some(left))
    }
}

/// What tells that the transaction begins.
fn feedback_at(place: usize) -> Option<ServiceFeedback>
    ensures { result ≡ feedback_at place }
{
    if place == 0 {
        return Some(ServiceFeedback::BeginTransaction);
    }
    None
}

/// What is answered after the last of that many replies.
fn behind_replies(replies: usize, place: usize) -> Polled<Option<ServiceResult>>
    ensures { result ≡ behind_replies replies place }
{
    if place == replies {
        let end = CallResult::feedback_only(ServiceFeedback::EndTransaction);
        return Polled::Ready(Some(Ok(end)));
    }
    Polled::Ready(None)
}

/// The reply that has a bunch of records, as an item.
fn replied(
    alloc: Global,
    query: &Message,
    bunch: &WireRecords,
    place: usize,
) -> Result<Polled<Option<ServiceResult>>, OutOfMemory>
    ensures { IfOk result (λ p. p ≡ Polled.Ready (Some (message_item (feedback_at place) (transfer_message query.now bunch.now)))) }
{
    let built = reply_of(alloc, query, bunch);
    let item = message_item(built, feedback_at(place))?;
    Ok(Polled::Ready(Some(item)))
}

/// The reply that has a bunch of records.
fn reply_of(
    alloc: Global,
    query: &Message,
    bunch: &WireRecords,
) -> Result<AdditionalBuilder, PushError>
    ensures { Builds (unlimited (transfer_message query.now bunch.now)) result }
{
    let mut reply = begin_reply(alloc, query, Rcode::NOERROR, true)?;
    reply.push_records(bunch)?;
    Ok(reply.additional())
}

/// The item that is a reply, or InternalError if the reply doesn't fit a message.
pub fn message_item(
    built: Result<AdditionalBuilder, PushError>,
    feedback: Option<ServiceFeedback>,
) -> Result<ServiceResult, OutOfMemory>
    ensures { (m : Msg) → Builds (unlimited m) built → IfOk result (λ i. i ≡ message_item feedback m) }
{
    match built {
        Ok(reply) => Ok(Ok(with_feedback(CallResult::new(reply), feedback))),
        Err(PushError::ShortBuf) => Ok(Err(ServiceError::InternalError)),
        Err(PushError::OutOfMemory) => Err(OutOfMemory),
    }
}

/// A reply with a feedback, if there is one.
fn with_feedback(reply: CallResult, feedback: Option<ServiceFeedback>) -> CallResult
    requires { reply.feedback ≡ None }
    ensures { result ≡ record reply { feedback = feedback } }
{
    match feedback {
        Some(feedback) => reply.with_feedback(feedback),
        None => reply,
    }
}
