//! Services, reply futures and reply streams by poll.

ghost use Rattle.std.specs.Prelude.{◌≡◌, ℕ, IfOk, IfErr, OnErr, OnOk, Option, Some, None, option_map, suc};
ghost use Rattle.std.specs.Option.{option_copied};
ghost use Rattle.std.specs.Arc.{arc_value};
ghost use Rattle.std.specs.Borrow.{sem};
ghost use Rattle.dns_base.specs.Built.{Built};
ghost use Rattle.dns_service.specs.declared.message.Request.{Request};
ghost use Rattle.dns_service.specs.Answer.{Answer, Item, IfPending, IfReady};
ghost use Rattle.dns_service.specs.Transport.{hinted};
ghost use Rattle.dns_service.specs.Given.{IsEither, message_in};
ghost use Rattle.dns_service.specs.Lending.{LendsReply};
ghost use Rattle.dns_service.specs.Errors.{rcode_of, service_error_text};

use crate::kept_feedback::KeptFeedback;
use crate::message::Request;
use dns_base::AdditionalBuilder;
use dns_name::{OutOfMemory, Rcode};
use std::alloc::Global;
use std::fmt;
use std::marker::Model;
use std::sync::Arc;

/// What a poll answers: it is pending, or ready with a value.
#[derive(Debug, Drop)]
pub enum Polled<T> {
    /// Nothing yet: poll again.
    Pending,
    /// This.
    Ready(T),
}

/// Why a service gives no reply.
#[derive(Clone, Copy, Debug, PartialEq, Eq)]
pub enum ServiceError {
    /// The request can't be read.
    FormatError,
    /// The service failed.
    InternalError,
    /// The service doesn't know requests of this kind.
    NotImplemented,
    /// The service doesn't serve this client or this name.
    Refused,
}

impl ServiceError {
    /// The response code of an error reply (RFC 1035, section 4.1.1).
    pub fn rcode(self) -> Rcode
        ensures { result ≡ rcode_of self }
    {
        match self {
            ServiceError::FormatError => Rcode::FORMERR,
            ServiceError::InternalError => Rcode::SERVFAIL,
            ServiceError::NotImplemented => Rcode::NOTIMP,
            ServiceError::Refused => Rcode::REFUSED,
        }
    }
}

impl fmt::Display for ServiceError {
    ghost output = { λ e. Some (service_error_text e) };

    fn fmt<W: fmt::Write>(&self, f: &mut fmt::Formatter<W>) -> fmt::Result {
        match self {
            ServiceError::FormatError => f.write_str("Format error"),
            ServiceError::InternalError => f.write_str("Internal error"),
            ServiceError::NotImplemented => f.write_str("Not implemented"),
            ServiceError::Refused => f.write_str("Refused"),
        }
    }
}

/// What a service tells the connection of its request.
#[derive(Clone, Copy, Debug, PartialEq, Eq)]
pub enum ServiceFeedback {
    /// The idle timeout in ms, if there is one, holds from now on.
    Reconfigure { idle_timeout: Option<u64> },
    /// From now on no reply to the request is dropped.
    BeginTransaction,
    /// From now on a reply to the request is dropped if the queue is full.
    EndTransaction,
}

/// A reply, a feedback or both. Of a reply the message counts alone: what its builder has for a push limit is forgotten, so who
/// pushes after it clears the limit first (`clear_push_limit`).
#[derive(Drop)]
pub struct CallResult {
    response: Option<AdditionalBuilder>,
    feedback: KeptFeedback,
}

impl Model for CallResult {
    ghost use Rattle.dns_service.specs.Given.{Given, IsEither, message_in};
    ghost use Rattle.dns_service.specs.KeptFeedback.{feedback_of};

    ghost Value = { Given };

    ghost view = { λ c. record { response = message_in c.response; feedback = feedback_of c.feedback } };

    ghost invariant = { λ c. IsEither c.response (feedback_of c.feedback) };
}

impl CallResult {
    /// A reply without feedback.
    pub fn new(response: AdditionalBuilder) -> Self
        ensures { result ≡ record { response = Some response.message; feedback = None } }
    {
        CallResult {
            response: Some(response),
            feedback: KeptFeedback::Nothing,
        }
    }

    /// Feedback to the server without a reply.
    pub fn feedback_only(feedback: ServiceFeedback) -> Self
        ensures { result ≡ record { response = None; feedback = Some feedback } }
    {
        CallResult {
            response: None,
            feedback: KeptFeedback::some(feedback),
        }
    }

    /// Replaces the feedback; the response stays.
    pub fn with_feedback(self, feedback: ServiceFeedback) -> Self
        ensures { result ≡ record self { feedback = Some feedback } }
    {
        CallResult {
            response: self.response,
            feedback: KeptFeedback::some(feedback),
        }
    }

    /// The reply, if there is one.
    pub fn response(&self) -> Option<&AdditionalBuilder>
        ensures { message_in (option_copied result) ≡ self.now.response }
    {
        self.response.as_ref()
    }

    /// The reply, for writing. Its push limit may be any.
    pub fn response_mut(&mut self) -> Option<&mut AdditionalBuilder>
        ensures* writes_back { sem 𝓛 (LendsReply self.entry result) }
        ensures value { option_map (λ r. r.now.message) result ≡ self.old.response }
    {
        self.response.as_mut()
    }

    /// What the server is told besides the reply, if anything.
    pub fn feedback(&self) -> Option<ServiceFeedback>
        ensures { result ≡ self.now.feedback }
    {
        self.feedback.feedback()
    }

    /// The reply, whose push limit may be any, and the feedback.
    pub fn into_inner(self) -> (Option<AdditionalBuilder>, Option<ServiceFeedback>)
        ensures response { message_in result.0 ≡ self.response }
        ensures feedback { result.1 ≡ self.feedback }
        ensures either { IsEither result.0 result.1 }
    {
        let CallResult { response, feedback } = self;
        (response, feedback.feedback())
    }
}

impl From<AdditionalBuilder> for CallResult {
    ghost from_gives = { λ b c. c ≡ record { response = Some b.message; feedback = None } };

    fn from(response: AdditionalBuilder) -> Self {
        CallResult::new(response)
    }
}

impl From<ServiceFeedback> for CallResult {
    ghost from_gives = { λ f c. c ≡ record { response = None; feedback = Some f } };

    fn from(feedback: ServiceFeedback) -> Self {
        CallResult::feedback_only(feedback)
    }
}

/// What a service gives at one poll.
pub type ServiceResult = Result<CallResult, ServiceError>;

/// Replies that are polled one by one.
pub trait ReplyStream: Drop {
    /// The answer to poll k from now on.
    ghost answer: { Self → ℕ → Answer };

    /// What `size_hint` answers.
    ghost size: { Self → ℕ × Option ℕ };

    /// Takes the next answer. After memory ran out the state isn't to be polled again.
    fn poll_next(&mut self, alloc: Global) -> Result<Polled<Option<ServiceResult>>, OutOfMemory>
        ensures now { IfOk result (λ p. p ≡ answer self.old 0) }
        ensures later { OnOk result ((k : ℕ) → answer self.new k ≡ answer self.old (suc k)) };

    /// How many items are left, at least and at most, as far as it is known.
    fn size_hint(&self) -> (usize, Option<usize>)
        ensures { result ≡ size self.now };
}

/// A stream of replies that may still have to come.
pub trait ReplyFuture: Drop {
    type Stream: ReplyStream;

    /// The answer to poll k from now on, of the future and then of its stream.
    ghost answer: { Self → ℕ → Answer };

    /// A poll that is pending takes an answer, and one that is ready takes none. What is answered after that is left open.
    fn poll(&mut self, alloc: Global) -> Result<Polled<Self::Stream>, OutOfMemory>
        ensures pending { IfOk result (IfPending
            (answer self.old 0 ≡ Polled.Pending × ((k : ℕ) → answer self.new k ≡ answer self.old (suc k)))) }
        ensures ready { IfOk result (IfReady (λ s. (k : ℕ) → Self.Stream.answer s k ≡ answer self.old k)) };

    /// The stream, if it is there without a poll, and else the future. No answer is taken.
    fn into_stream(self) -> Result<Self::Stream, Self>
    where
        Self: Sized,
        ensures stream { IfOk result (λ s. (k : ℕ) → Self.Stream.answer s k ≡ answer self k) }
        ensures future { IfErr result (λ f. f ≡ self) }
    {
        Err(self)
    }
}

/// Answers requests: each call gives a future, that gives a stream of replies, and both are polled.
pub trait Service<Meta>: Drop {
    type Stream: ReplyStream;

    type Future: ReplyFuture<Stream = Self::Stream>;

    /// The answer to poll k of a request.
    ghost answer: { Self → Request Meta → ℕ → Answer };

    /// The hint that a request has after the call.
    ghost hint: { Self → Request Meta → Option ℕ };

    /// Whether the service may be called: one that is made of a closure needs a closure that may be.
    ghost can_call: { Self → Type 0 } = { λ _. Unit {0} };

    /// Changes nothing of the request but its hint and its reserved octets, and nothing at all if it is refused.
    fn call(&self, alloc: Global, request: &mut Request<Meta>) -> Result<Self::Future, OutOfMemory>
        requires { can_call self.now }
        ensures answers { IfOk result (λ f. (k : ℕ) → Self.Future.answer f k ≡ answer self.now request.old k) }
        ensures kept { OnOk result (request.new ≡ record request.old
            { transport = hinted (hint self.now request.old) request.old.transport; reserved = request.new.reserved }) }
        ensures refused { OnErr result (request.new ≡ request.old) };
}

impl<T, Meta> Service<Meta> for Arc<T>
where
    T: Service<Meta>,
{
    type Stream = T::Stream;

    type Future = T::Future;

    ghost answer = { λ a. T.answer (arc_value a) };

    ghost hint = { λ a. T.hint (arc_value a) };

    ghost can_call = { λ a. T.can_call (arc_value a) };

    fn call(&self, alloc: Global, request: &mut Request<Meta>) -> Result<T::Future, OutOfMemory> {
        let inner: &T = self;
        inner.call(alloc, request)
    }
}
