//! The layers before upstreams.

ghost use Rattle.std.specs.Prelude.{◌≡◌, IfOk};
ghost use Rattle.dns_service.specs.Answer.{mapped};
ghost use Rattle.dns_layers.specs.Calls.{LeavesHint};
ghost use Rattle.dns_layers.specs.Rewritten.{rewritten};
ghost use Rattle.dns_middleware.specs.Wrapped.{hint_left};
ghost use Rattle.dns_middleware.specs.WrappedStreams.{wrap_by};
ghost use Rattle.dns_fronts.specs.Layered.{asked_message, given, given_turn, item_in, layered, sendable};
ghost use Rattle.dns_fronts.specs.Passed.{IsDecided, passed_to};
ghost use Rattle.dns_fronts.specs.Required.{denying, settings_for};

use crate::networks::{Network, is_in_any};
use crate::sendable::sendable;
use dns_base::{Addrs, Message};
use dns_decide::{Decision, decide};
use dns_layers::{AskStream, NoSecondaries, rewrite_answer};
use dns_middleware::WrapPost;
use dns_name::IpAddr;
use dns_proxy::{Front, Taken};
use dns_route::{SendError, Turned, relay_answer, turn_item};
use dns_service::{
    CallResult, OutOfMemory, Polled, ReplyStream, Request, ServiceError, ServiceResult, Settings,
};
use std::alloc::Global;

/// The layers of some settings, and the networks whose clients need a good cookie over UDP. A NOTIFY is answered NOTAUTH, since a
/// proxy is a secondary of no zone. A request that is passed on goes without its OPT record, or with one of our own that keeps the
/// DO bit and client subnets. One that can't be read is answered by SERVFAIL.
#[derive(Drop)]
pub struct LayeredFront {
    pub(crate) settings: Settings,
    pub(crate) required: Vec<Network>,
}

impl LayeredFront {
    /// The layers of these settings, and these networks.
    pub fn new(settings: Settings, required: Vec<Network>) -> LayeredFront
        ensures { result ≡ record { settings = settings; required = required } }
    {
        LayeredFront { settings, required }
    }

    /// How the layers take a request, by the settings for its client.
    pub(crate) fn decided(
        &self,
        alloc: Global,
        request: &mut Request<()>,
    ) -> Result<Decided, OutOfMemory>
        ensures taken { let s = settings_for self.now request.old in
            IfOk result (IsDecided s request.old) }
        ensures kept { let s = settings_for self.now request.old in
            LeavesHint (hint_left s request.old) request.old request.new result }
    {
        if is_in_any(self.required.as_slice(), request.client_addr().ip) {
            return decided_denied(alloc, &self.settings, request);
        }
        decided_by(alloc, &self.settings, request)
    }
}

/// How the layers take a request, before a message is made that is sent on for it.
#[derive(Drop)]
pub(crate) enum Decided {
    /// It is answered with this at once.
    Own(ServiceResult),
    /// It is passed on, and what is given for it is rewritten by this rule.
    Passed(WrapPost),
}

impl Front for LayeredFront {
    type Rule = WrapPost;

    ghost over = { λ f i r k. layered (settings_for f r) i r k };

    ghost hint = { λ f r. hint_left (settings_for f r) r };

    ghost asks = { λ f r. asked_message (settings_for f r) r };

    ghost given = { given };

    ghost after_take = { λ f _. f };

    ghost after_give = { λ f _ _ _. f };

    fn take(
        &mut self,
        alloc: Global,
        request: &mut Request<()>,
    ) -> Result<Taken<WrapPost>, OutOfMemory> {
        let decided = self.decided(alloc, request)?;
        match decided {
            Decided::Own(item) => Ok(Taken::Own(item)),
            Decided::Passed(post) => pass(alloc, request, post),
        }
    }

    fn give(
        &mut self,
        alloc: Global,
        request: &Request<()>,
        answer: Result<Message, SendError>,
    ) -> Result<ServiceResult, OutOfMemory> {
        let turned = relay_answer(alloc, request.message(), Polled::Ready(answer))?;
        given_turn(alloc, turned)
    }
}

/// The item that a turn gives, after which there is none.
pub(crate) fn given_turn(alloc: Global, turned: Turned) -> Result<ServiceResult, OutOfMemory>
    ensures { IfOk result (λ i. i ≡ given_turn turned) }
{
    match turned {
        Polled::Ready(turned) => turn_item(alloc, turned),
        Polled::Pending => Ok(Err(ServiceError::InternalError)),
    }
}

/// Settings by which an address is denied service without a good cookie.
fn denying(alloc: Global, settings: &Settings, address: IpAddr) -> Result<Settings, OutOfMemory>
    ensures { IfOk result (λ s. s ≡ denying settings.now address) }
{
    let mut denied = Vec::new(alloc);
    denied.push(address)?;
    Ok(Settings {
        strict: settings.strict,
        edns: settings.edns,
        cookies: settings.cookies,
        denied: Addrs::from_vec(denied),
        dgram: settings.dgram,
        stream: settings.stream,
    })
}

/// How the layers of some settings take a request whose client is denied service without a good cookie.
fn decided_denied(
    alloc: Global,
    settings: &Settings,
    request: &mut Request<()>,
) -> Result<Decided, OutOfMemory>
    ensures taken { let s = denying settings.now request.old.client_addr.ip in IfOk result (IsDecided s request.old) }
    ensures kept { let s = denying settings.now request.old.client_addr.ip in
        LeavesHint (hint_left s request.old) request.old request.new result }
{
    let settings = denying(alloc, settings, request.client_addr().ip)?;
    decided_by(alloc, &settings, request)
}

/// How the layers of some settings take a request.
fn decided_by(
    alloc: Global,
    settings: &Settings,
    request: &mut Request<()>,
) -> Result<Decided, OutOfMemory>
    ensures taken { IfOk result (IsDecided settings.now request.old) }
    ensures kept { LeavesHint (hint_left settings.now request.old) request.old request.new result }
{
    match decide(alloc, settings, &NoSecondaries {}, request) {
        Ok(Decision::Own(reply)) => Ok(Decided::Own(Ok(CallResult::new(reply)))),
        Ok(Decision::Asking(stream, post)) => refused_notice(alloc, stream, post),
        Ok(Decision::Passed(post)) => Ok(Decided::Passed(post)),
        Err(error) => Err(error),
    }
}

/// The reply to a NOTIFY, rewritten.
fn refused_notice(
    alloc: Global,
    stream: AskStream<NoSecondaries>,
    post: WrapPost,
) -> Result<Decided, OutOfMemory>
    ensures { let first = ⟦<AskStream<NoSecondaries> as ReplyStream>⟧.answer stream 0 in
        IfOk result (λ d. d ≡ Decided.Own (item_in (mapped (rewritten (wrap_by post)) first))) }
{
    let mut stream = stream;
    let mut answer = stream.poll_next(alloc)?;
    rewrite_answer(&post, alloc, &mut answer)?;
    Ok(Decided::Own(item_in(answer)))
}

/// The item in an answer, which is there.
pub(crate) fn item_in(answer: Polled<Option<ServiceResult>>) -> ServiceResult
    ensures { result ≡ item_in answer }
{
    match answer {
        Polled::Ready(Some(item)) => item,
        Polled::Ready(None) => Err(ServiceError::InternalError),
        Polled::Pending => Err(ServiceError::InternalError),
    }
}

/// A request that is passed on, by what is asked for it.
pub(crate) fn pass(
    alloc: Global,
    request: &Request<()>,
    post: WrapPost,
) -> Result<Taken<WrapPost>, OutOfMemory>
    ensures { IfOk result (λ t. t ≡ passed_to post (sendable request.now.octets)) }
{
    match sendable(alloc, request)? {
        Some(message) => Ok(Taken::Passed(post, message)),
        None => Ok(Taken::Own(Err(ServiceError::InternalError))),
    }
}
