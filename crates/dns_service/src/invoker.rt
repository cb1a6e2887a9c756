//! What answers go through on their way to a connection: what they tell is heard, and what they reply is queued.

ghost use Rattle.std.specs.Prelude.{◌≡◌, ℕ, suc, IfOk, OnErr, OnOk};
ghost use Rattle.dns_service.specs.Given.{IsEither, message_in};
ghost use Rattle.dns_service.specs.Invokers.{Invoking, dispatched_by, after_answer, after_feedback, after_item, reply_in, feedback_in};

use crate::service::{Polled, ReplyStream, ServiceFeedback, ServiceResult};
use dns_base::{AdditionalBuilder, Message};
use dns_name::{OptRcode, OutOfMemory};
use dns_replies::mk_error_response;
use std::alloc::Global;

/// How far a request is, for the connection that it came from.
#[derive(Clone, Copy, Debug, PartialEq, Eq)]
pub enum InvokerStatus {
    /// The request's replies are single ones.
    Normal,
    /// The request's replies are those of a transaction, of which none is dropped.
    InTransaction,
    /// The answer ended with an error.
    Aborting,
}

/// What became of a reply.
#[derive(Clone, Copy, Debug, PartialEq, Eq)]
pub enum Enqueued {
    /// The reply waits in the queue to be written.
    Queued,
    /// The reply waits for room in the queue.
    Held,
    /// The reply is dropped.
    Dropped,
}

/// What a poll led to.
#[derive(Clone, Copy, Debug, PartialEq, Eq)]
pub enum Dispatched {
    /// There was no answer.
    Pending,
    /// An item was processed.
    Item,
    /// There is no item any more.
    Ended,
    /// An error item was processed.
    Aborted,
}

/// Processes the answers to one request.
pub trait ServiceInvoker {
    /// What the calls do.
    ghost invoking: { Invoking Self };

    /// How far the request is.
    fn status(&self) -> InvokerStatus
        ensures { result ≡ invoking.status self.now };

    /// Says how far the request is.
    fn set_status(&mut self, status: InvokerStatus)
        ensures does { self.new ≡ invoking.with_status self.old status }
        ensures status { invoking.status self.new ≡ status };

    /// Lets the connection be idle for that many ms, if a number is given.
    fn reconfigure(&mut self, idle_timeout: Option<u64>)
        ensures does { self.new ≡ invoking.reconfigured self.old idle_timeout }
        ensures status { invoking.status self.new ≡ invoking.status self.old };

    /// Queues a reply.
    fn enqueue_response(&mut self, response: AdditionalBuilder) -> Enqueued
        ensures does { self.new ≡ (invoking.enqueued self.old response.message).0 }
        ensures fate { result ≡ (invoking.enqueued self.old response.message).1 }
        ensures status { invoking.status self.new ≡ invoking.status self.old };

    /// Hears a feedback.
    fn process_feedback(&mut self, feedback: ServiceFeedback)
        ensures { self.new ≡ after_feedback invoking feedback self.old }
    {
        match feedback {
            ServiceFeedback::Reconfigure { idle_timeout } => self.reconfigure(idle_timeout),
            ServiceFeedback::BeginTransaction => self.set_status(InvokerStatus::InTransaction),
            ServiceFeedback::EndTransaction => self.set_status(InvokerStatus::Normal),
        }
    }

    /// Hears the feedback of an item, and gives the reply that it has. An error item aborts the request, and its reply is an
    /// error reply to the message. There is none exactly if the item is a feedback alone. If there is no memory the
    /// request is as far as it was, and the item is lost.
    fn process_response_stream_item(
        &mut self,
        alloc: Global,
        item: ServiceResult,
        message: &Message,
    ) -> Result<Option<AdditionalBuilder>, OutOfMemory>
        ensures does { OnOk result (self.new ≡ after_item invoking item self.old) }
        ensures reply { IfOk result (λ reply. message_in reply ≡ reply_in message.now item) }
        ensures alone { IfOk result (λ reply. IsEither reply (feedback_in item)) }
        ensures refused { OnErr result (self.new ≡ self.old) }
    {
        match item {
            Ok(given) => {
                let (response, feedback) = given.into_inner();
                match feedback {
                    None => Ok(response),
                    Some(feedback) => {
                        self.process_feedback(feedback);
                        Ok(response)
                    }
                }
            }
            Err(error) => {
                let rcode = OptRcode::from(error.rcode());
                let reply = mk_error_response(alloc, message, rcode)?;
                self.set_status(InvokerStatus::Aborting);
                Ok(Some(reply))
            }
        }
    }

    /// Polls the replies to a message once. An item is processed, and its reply is queued. If there is no memory nothing was
    /// heard or queued, and the stream isn't to be polled again.
    fn dispatch<T: ReplyStream>(
        &mut self,
        alloc: Global,
        stream: &mut T,
        message: &Message,
    ) -> Result<Dispatched, OutOfMemory>
        ensures does { OnOk result (self.new ≡ after_answer invoking message.now (T.answer stream.old 0) self.old) }
        ensures answer { IfOk result (λ dispatched. dispatched ≡ dispatched_by (T.answer stream.old 0)) }
        ensures later { OnOk result ((k : ℕ) → T.answer stream.new k ≡ T.answer stream.old (suc k)) }
        ensures refused { OnErr result (self.new ≡ self.old) }
    {
        let Ok(polled) = stream.poll_next(alloc) else {
            return Err(OutOfMemory);
        };
        let dispatched = dispatched_by(&polled);
        if let Polled::Ready(Some(item)) = polled {
            match self.process_response_stream_item(alloc, item, message) {
                Ok(reply) => {
                    if let Some(reply) = reply {
                        self.enqueue_response(reply);
                    }
                }
                Err(_) => return Err(OutOfMemory),
            }
        }
        Ok(dispatched)
    }
}

/// What a poll led to.
fn dispatched_by(polled: &Polled<Option<ServiceResult>>) -> Dispatched
    ensures { result ≡ dispatched_by polled.now }
{
    match polled {
        Polled::Pending => Dispatched::Pending,
        Polled::Ready(None) => Dispatched::Ended,
        Polled::Ready(Some(Ok(_))) => Dispatched::Item,
        Polled::Ready(Some(Err(_))) => Dispatched::Aborted,
    }
}
