//! How the service in its layers takes a request: refused, answered by the cookie layer, told to the target, or passed on.

ghost use Rattle.std.specs.Prelude.{◌≡◌, IfOk, OnErr, OnOk, option_map};
ghost use Rattle.dns_service.specs.declared.message.Request.{Request};
ghost use Rattle.dns_service.specs.Asked.{asked_of};
ghost use Rattle.dns_service.specs.Given.{message_in};
ghost use Rattle.dns_service.specs.Transport.{hint_of, limit};
ghost use Rattle.dns_layers.specs.Calls.{AnswersAs, LeavesHint};
ghost use Rattle.dns_layers.specs.Cookies.{cookie_own};
ghost use Rattle.dns_layers.specs.Edns.{passed_by, transport_by};
ghost use Rattle.dns_layers.specs.Notify.{asking, notice_of, notify_by};
ghost use Rattle.dns_layers.specs.Refusals.{size_by};
ghost use Rattle.dns_layers.specs.Rewritten.{own_reply};
ghost use Rattle.dns_layers.specs.Verdicts.{verdict_on};
ghost use Rattle.dns_middleware.specs.Wrapped.{passed};
ghost use Rattle.dns_middleware.specs.WrappedCalls.{each_rewritten, replies_unrefused, rule_passed};
ghost use Rattle.dns_middleware.specs.WrappedStreams.{refused_reply, wrap_by, wrap_rule};

use crate::wrap_post::WrapPost;
use crate::wrapped::{ComingReplies, Wrapped};
use crate::wrapped_future::WrappedFuture;
use dns_base::AdditionalBuilder;
use dns_layers::{
    Notice, Notifiable, Refusal, Rewrite, alone, ask_owned, call_passed, cookie_own, hint_passed,
    notice_of, pass_on, size_by,
};
use dns_service::{Asked, OutOfMemory, ReplyFuture, Request, Service, Settings};
use std::alloc::Global;

/// How a request is passed on: by the client's size, and by this rule for its replies.
#[derive(Clone, Copy)]
pub struct PassPlan {
    /// The client's size, if EDNS is on and the request has an OPT record.
    pub size: Option<u16>,
    /// The rule for the replies.
    pub post: WrapPost,
}

/// The reply to a request that is refused. This was read of the request.
pub(crate) fn refused<S: Service<Meta>, N: Notifiable, Meta>(
    alloc: Global,
    settings: &Settings,
    asked: &Asked,
    request: &Request<Meta>,
    refused: Refusal,
) -> Result<ComingReplies<S, N, Meta>, OutOfMemory>
    requires { asked.now ≡ asked_of request.now.octets }
    ensures { let r = request.now in
        let rule = wrap_rule settings.now.edns r.transport (limit (hint_of r.transport)) (asked_of r.octets) in
        AnswersAs ⟦<ComingReplies<S, N, Meta> as ReplyFuture>⟧.answer (own_reply (refused_reply rule r.octets refused)) result }
{
    let transport = request.transport_ctx();
    let post = WrapPost::new(settings.edns, asked, transport, transport.hint());
    let reply = post.refuse(alloc, request.message(), refused)?;
    Ok(WrappedFuture::Own(Some(alone(reply))))
}

/// The replies to a request that isn't refused. This was read of the request.
#[tactic(auto, using(dns_layers::proofs::EdnsLaws::passed_hinted, dns_layers::proofs::EdnsLaws::kept_hint))]
pub(crate) fn not_refused<S: Service<Meta>, N: Notifiable, Meta>(
    alloc: Global,
    wrapped: &Wrapped<S, N>,
    asked: &Asked,
    request: &mut Request<Meta>,
) -> Result<ComingReplies<S, N, Meta>, OutOfMemory>
    requires can_call { S.can_call wrapped.now.service }
    requires asked { asked.now ≡ asked_of request.old.octets }
    ensures answers { let w = wrapped.now in AnswersAs ⟦<ComingReplies<S, N, Meta> as ReplyFuture>⟧.answer
        (replies_unrefused w.settings (S.answer w.service) (verdict_on (N.verdict w.target)) request.old)
        result }
    ensures kept { LeavesHint (hint_of (passed wrapped.now.settings request.old).transport) request.old request.new result }
    ensures refused { OnErr result (request.new ≡ request.old) }
{
    let settings = &wrapped.settings;
    let plan = pass_plan(settings, asked, request);
    match own_rewritten(alloc, settings, &plan.post, request, asked) {
        Ok(found) => cookie_reply_or_next(alloc, wrapped, found, plan, asked, request),
        Err(error) => Err(error),
    }
}

/// The reply of the cookie layer's own, if it has this one, and else the replies past that layer. This was read of
/// the request.
#[tactic(auto, using(dns_layers::proofs::EdnsLaws::passed_hinted, dns_layers::proofs::EdnsLaws::kept_hint))]
#[inline(always)]
fn cookie_reply_or_next<S: Service<Meta>, N: Notifiable, Meta>(
    alloc: Global,
    wrapped: &Wrapped<S, N>,
    found: Option<AdditionalBuilder>,
    plan: PassPlan,
    asked: &Asked,
    request: &mut Request<Meta>,
) -> Result<ComingReplies<S, N, Meta>, OutOfMemory>
    requires can_call { S.can_call wrapped.now.service }
    requires asked { asked.now ≡ asked_of request.old.octets }
    requires size { plan.size ≡ size_by wrapped.now.settings asked.now }
    requires post { plan.post ≡ rule_passed wrapped.now.settings request.old.transport asked.now }
    requires found { let s = wrapped.now.settings in
        message_in found ≡ option_map (wrap_by plan.post) (cookie_own s.cookies s.denied request.old) }
    ensures answers { let w = wrapped.now in AnswersAs ⟦<ComingReplies<S, N, Meta> as ReplyFuture>⟧.answer
        (replies_unrefused w.settings (S.answer w.service) (verdict_on (N.verdict w.target)) request.old)
        result }
    ensures kept { LeavesHint (hint_of (passed wrapped.now.settings request.old).transport) request.old request.new result }
    ensures refused { OnErr result (request.new ≡ request.old) }
{
    match found {
        Some(reply) => own::<S, N, Meta>(reply, plan.size, request),
        None => match notice_of(alloc, request, asked) {
            Ok(notice) => notify_or_service(alloc, wrapped, notice, plan, request),
            Err(_) => Err(OutOfMemory),
        },
    }
}

/// How a request is passed on, of which this was read.
#[inline(always)]
pub fn pass_plan<Meta>(settings: &Settings, asked: &Asked, request: &Request<Meta>) -> PassPlan
    ensures size { result.size ≡ size_by settings.now asked.now }
    ensures post { result.post ≡ rule_passed settings.now request.now.transport asked.now }
{
    let size = size_by(settings, asked);
    let transport = request.transport_ctx();
    let hint = hint_passed(size, transport);
    let post = WrapPost::new(settings.edns, asked, transport, hint);
    PassPlan { size, post }
}

/// A reply of the cookie layer's own, to a request that is left as it would be passed on.
fn own<S: Service<Meta>, N: Notifiable, Meta>(
    reply: AdditionalBuilder,
    size: Option<u16>,
    request: &mut Request<Meta>,
) -> Result<ComingReplies<S, N, Meta>, OutOfMemory>
    ensures answers { AnswersAs ⟦<ComingReplies<S, N, Meta> as ReplyFuture>⟧.answer (own_reply reply.message) result }
    ensures passed { OnOk result (request.new ≡ passed_by size request.old) }
    ensures refused { OnErr result (request.new ≡ request.old) }
{
    pass_on(size, request);
    Ok(WrappedFuture::Own(Some(alone(reply))))
}

/// The reply of the cookie layer's own, if it has one, rewritten. This was read of the request.
#[inline(always)]
pub fn own_rewritten<Meta>(
    alloc: Global,
    settings: &Settings,
    post: &WrapPost,
    request: &Request<Meta>,
    asked: &Asked,
) -> Result<Option<AdditionalBuilder>, OutOfMemory>
    requires { asked.now ≡ asked_of request.now.octets }
    ensures { let s = settings.now in
        IfOk result (λ own. message_in own ≡ option_map (wrap_by post.now) (cookie_own s.cookies s.denied request.now)) }
{
    let own = cookie_own(
        alloc,
        settings.cookies,
        settings.denied.as_slice(),
        request,
        asked,
    )?;
    let Some(reply) = own else {
        return Ok(None);
    };
    let mut reply = reply;
    post.rewrite(alloc, &mut reply)?;
    Ok(Some(reply))
}

/// The replies of the target if there is a notice, and else of the given service, rewritten.
#[tactic(auto, using(dns_layers::proofs::EdnsLaws::passed_hinted, dns_layers::proofs::EdnsLaws::kept_hint))]
fn notify_or_service<S: Service<Meta>, N: Notifiable, Meta>(
    alloc: Global,
    wrapped: &Wrapped<S, N>,
    notice: Option<Notice>,
    plan: PassPlan,
    request: &mut Request<Meta>,
) -> Result<ComingReplies<S, N, Meta>, OutOfMemory>
    requires { S.can_call wrapped.now.service }
    ensures answers { let w = wrapped.now in AnswersAs ⟦<ComingReplies<S, N, Meta> as ReplyFuture>⟧.answer
        (each_rewritten plan.post (λ k. notify_by (verdict_on (N.verdict w.target))
        (λ q. S.answer w.service (passed_by plan.size q)) request.old k notice))
        result }
    ensures kept { LeavesHint (hint_of (transport_by plan.size request.old.transport)) request.old request.new result }
    ensures refused { OnErr result (request.new ≡ request.old) }
{
    match notice {
        Some(notice) => ask_target::<S, N, Meta>(alloc, &wrapped.target, notice, plan, request),
        None => passed_on::<S, N, Meta>(alloc, &wrapped.service, plan, request),
    }
}

/// The reply by the target's verdict, rewritten, to a request that is left as it would be passed on.
fn ask_target<S: Service<Meta>, N: Notifiable, Meta>(
    alloc: Global,
    target: &N,
    notice: Notice,
    plan: PassPlan,
    request: &mut Request<Meta>,
) -> Result<ComingReplies<S, N, Meta>, OutOfMemory>
    ensures answers { AnswersAs ⟦<ComingReplies<S, N, Meta> as ReplyFuture>⟧.answer
        (each_rewritten plan.post (asking request.old.octets (verdict_on (N.verdict target.now) notice)))
        result }
    ensures passed { OnOk result (request.new ≡ passed_by plan.size request.old) }
    ensures refused { OnErr result (request.new ≡ request.old) }
{
    let stream = ask_owned(alloc, target, request.message(), notice)?;
    pass_on(plan.size, request);
    Ok(WrappedFuture::Asking(Some(stream), plan.post))
}

/// The replies of the given service to the request as it is passed on, rewritten.
fn passed_on<S: Service<Meta>, N: Notifiable, Meta>(
    alloc: Global,
    service: &S,
    plan: PassPlan,
    request: &mut Request<Meta>,
) -> Result<ComingReplies<S, N, Meta>, OutOfMemory>
    requires { S.can_call service.now }
    ensures answers { AnswersAs ⟦<ComingReplies<S, N, Meta> as ReplyFuture>⟧.answer
        (each_rewritten plan.post (S.answer service.now (passed_by plan.size request.old)))
        result }
    ensures kept { LeavesHint (hint_of (transport_by plan.size request.old.transport)) request.old request.new result }
    ensures refused { OnErr result (request.new ≡ request.old) }
{
    let future = call_passed(alloc, service, plan.size, request)?;
    Ok(WrappedFuture::Passing(future, plan.post))
}
