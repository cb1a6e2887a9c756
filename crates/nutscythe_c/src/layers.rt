//! The layers alone: what is to be done about a message, and how a reply is rewritten.

ghost use Rattle.std.specs.Prelude.{◌≡◌, ◌≢◌, Some};
ghost use Rattle.dns_embed.specs.Embedded.{request_of};
ghost use Rattle.nutscythe_c.specs.declared.status.Status.{Status as TheStatus};
ghost use Rattle.nutscythe_c.specs.Calls.{Acts, Decides, DecidesAt, DecidesBy, PutsReply, Refuses, RefusesBy, Rewrites, number, output};
ghost use Rattle.nutscythe_c.specs.Objects.{OfFirst, OfOne};
ghost use Rattle.nutscythe_c.specs.Origins.{arrival_of, error_of, verdict_of};
ghost use Rattle.nutscythe_c.specs.Rules.{rule_in};

use crate::handle::Handle;
use crate::handle_value::HandleValue;
use crate::origin::{Origin, arrival_of, error_of, verdict_of};
use crate::rule::Rule;
use crate::status::Status;
use dns_base::AdditionalBuilder;
use dns_embed::{
    Action, Arrival, KnownVerdict, ReplyRule, decide_message, put, refuse_message, rewrite_message,
};
use dns_service::{ReplyError, ServiceError, Settings};
use std::alloc::Global;

/// What is to be done about a message, by settings. If a service is to be asked, `rule` is the rule by which its reply is
/// rewritten.
#[unsafe(no_mangle)]
pub extern "C" fn nutscythe_raw_decide(
    alloc: Global,
    settings: &mut [Handle],
    origin: &[Origin],
    verdict: u32,
    message: &[u8],
    reply: &mut [u8],
    reply_len: &mut [usize],
    rule: &mut [Rule],
) -> u32
    ensures missing { result ≡ 22 → (reply.new ≡ reply.old) × (reply_len.new ≡ reply_len.old) × (rule.new ≡ rule.old) }
    ensures decided { (t : TheStatus) × (result ≡ number t)
        × OfFirst settings.old settings.new (λ h i. (i.kept ≡ h.kept)
        × OfOne origin.now (λ o. DecidesAt h.kept (arrival_of o) (verdict_of verdict) message.now
        reply.old reply.new reply_len.old reply_len.new rule.old rule.new t) (t ≡ TheStatus.NullPointer)) (t ≡ TheStatus.NullPointer) }
{
    decide_at(
        alloc, settings, origin, verdict, message, reply, reply_len, rule,
    ) as u32
}

/// What is to be done about a message, by its status.
fn decide_at(
    alloc: Global,
    settings: &mut [Handle],
    origin: &[Origin],
    verdict: u32,
    message: &[u8],
    reply: &mut [u8],
    reply_len: &mut [usize],
    rule: &mut [Rule],
) -> Status
    ensures missing { result ≡ Status.NullPointer → (reply.new ≡ reply.old) × (reply_len.new ≡ reply_len.old) × (rule.new ≡ rule.old) }
    ensures decided { OfFirst settings.old settings.new (λ h i. (i.kept ≡ h.kept)
        × OfOne origin.now (λ o. DecidesAt h.kept (arrival_of o) (verdict_of verdict) message.now
        reply.old reply.new reply_len.old reply_len.new rule.old rule.new result) (result ≡ Status.NullPointer))
        (result ≡ Status.NullPointer) }
{
    let [settings, ..] = settings else {
        return Status::NullPointer;
    };
    let [origin, ..] = origin else {
        return Status::NullPointer;
    };
    decide_with(
        alloc, settings, origin, verdict, message, reply, reply_len, rule,
    )
}

/// What is to be done about a message, by a handle and an origin that are given.
fn decide_with(
    alloc: Global,
    settings: &mut Handle,
    origin: &Origin,
    verdict: u32,
    message: &[u8],
    reply: &mut [u8],
    reply_len: &mut [usize],
    rule: &mut [Rule],
) -> Status
    ensures missing { result ≡ Status.NullPointer → (reply.new ≡ reply.old) × (reply_len.new ≡ reply_len.old) × (rule.new ≡ rule.old) }
    ensures settings { settings.new.kept ≡ settings.old.kept }
    ensures decided { DecidesAt settings.old.kept (arrival_of origin.now) (verdict_of verdict) message.now
        reply.old reply.new reply_len.old reply_len.new rule.old rule.new result }
{
    let [reply_len, ..] = reply_len else {
        return Status::NullPointer;
    };
    let [rule, ..] = rule else {
        return Status::NullPointer;
    };
    decide(
        alloc, settings, origin, verdict, message, reply, reply_len, rule,
    )
}

/// What is to be done about a message, by a handle.
fn decide(
    alloc: Global,
    settings: &mut Handle,
    origin: &Origin,
    verdict: u32,
    message: &[u8],
    reply: &mut [u8],
    reply_len: &mut usize,
    rule: &mut Rule,
) -> Status
    ensures given { result ≢ Status.NullPointer }
    ensures settings { settings.new.kept ≡ settings.old.kept }
    ensures decided { DecidesBy settings.old.kept (arrival_of origin.now) (verdict_of verdict) message.now
        (output reply.old reply_len.old rule.old) (output reply.new reply_len.new rule.new) result }
{
    let Some(kept) = settings.take(alloc) else {
        return Status::NoHandle;
    };
    let status = match &*kept {
        HandleValue::Settings(settings) => decide_from(
            alloc, settings, origin, verdict, message, reply, reply_len, rule,
        ),
        _ => Status::NoHandle,
    };
    settings.put(kept);
    status
}

/// What is to be done about a message, by settings.
fn decide_from(
    alloc: Global,
    settings: &Settings,
    origin: &Origin,
    verdict: u32,
    message: &[u8],
    reply: &mut [u8],
    reply_len: &mut usize,
    rule: &mut Rule,
) -> Status
    ensures given { result ≢ Status.NullPointer }
    ensures decided { DecidesBy (Some (HandleValue.Settings settings.now)) (arrival_of origin.now) (verdict_of verdict) message.now
        (output reply.old reply_len.old rule.old) (output reply.new reply_len.new rule.new) result }
{
    let Some(arrival) = arrival_of(origin) else {
        return Status::OutOfRange;
    };
    let Some(verdict) = verdict_of(verdict) else {
        return Status::OutOfRange;
    };
    decide_by(
        alloc, settings, arrival, verdict, message, reply, reply_len, rule,
    )
}

/// What is to be done about a message, by numbers that are in range.
fn decide_by(
    alloc: Global,
    settings: &Settings,
    arrival: Arrival,
    verdict: KnownVerdict,
    message: &[u8],
    reply: &mut [u8],
    reply_len: &mut usize,
    rule: &mut Rule,
) -> Status
    ensures given { result ≢ Status.NullPointer }
    ensures decided { Decides settings.now verdict.verdict (request_of arrival message.now)
        (output reply.old reply_len.old rule.old) (output reply.new reply_len.new rule.new) result }
{
    match decide_message(alloc, settings, verdict, arrival, message) {
        Ok(action) => act(action, reply, reply_len, rule),
        Err(_) => Status::NoMemory,
    }
}

/// Does what is to be done.
pub(crate) fn act(
    action: Action,
    reply: &mut [u8],
    reply_len: &mut usize,
    rule: &mut Rule,
) -> Status
    ensures given { result ≢ Status.NullPointer }
    ensures acts { Acts action (output reply.old reply_len.old rule.old) (output reply.new reply_len.new rule.new) result }
{
    match action {
        Action::Nothing => Status::Nothing,
        Action::Reply(built) => put_reply(&built, reply, reply_len),
        Action::Ask(asked) => {
            *rule = Rule::of(&asked);
            Status::Ask
        }
    }
}

/// Writes a reply into a buffer, if it fits, and how long it is.
pub(crate) fn put_reply(
    built: &AdditionalBuilder,
    reply: &mut [u8],
    reply_len: &mut usize,
) -> Status
    ensures put { PutsReply built.now.message reply.old reply.new reply_len.new result }
    ensures given { result ≢ Status.NullPointer }
{
    let octets = built.as_slice();
    *reply_len = octets.len();
    if put(octets, reply) {
        Status::Reply
    } else {
        Status::NoRoom
    }
}

/// Rewrites a reply by the rule of its request.
#[unsafe(no_mangle)]
pub extern "C" fn nutscythe_raw_rewrite(
    alloc: Global,
    rule: &[Rule],
    answer: &[u8],
    reply: &mut [u8],
    reply_len: &mut [usize],
) -> u32
    ensures missing { result ≡ 22 → (reply.new ≡ reply.old) × (reply_len.new ≡ reply_len.old) }
    ensures rewritten { (t : TheStatus) × (result ≡ number t) × OfOne rule.now (λ r. OfFirst reply_len.old reply_len.new
        (λ n l. Rewrites (rule_in r) answer.now reply.old reply.new n l t)
        (t ≡ TheStatus.NullPointer)) (t ≡ TheStatus.NullPointer) }
{
    rewrite_at(alloc, rule, answer, reply, reply_len) as u32
}

/// Rewrites a reply, by its status.
fn rewrite_at(
    alloc: Global,
    rule: &[Rule],
    answer: &[u8],
    reply: &mut [u8],
    reply_len: &mut [usize],
) -> Status
    ensures missing { result ≡ Status.NullPointer → (reply.new ≡ reply.old) × (reply_len.new ≡ reply_len.old) }
    ensures rewritten { OfOne rule.now (λ r. OfFirst reply_len.old reply_len.new
        (λ n l. Rewrites (rule_in r) answer.now reply.old reply.new n l result)
        (result ≡ Status.NullPointer)) (result ≡ Status.NullPointer) }
{
    let [rule, ..] = rule else {
        return Status::NullPointer;
    };
    let [reply_len, ..] = reply_len else {
        return Status::NullPointer;
    };
    rewrite_by(alloc, &rule.rule(), answer, reply, reply_len)
}

/// Rewrites a reply by a rule.
fn rewrite_by(
    alloc: Global,
    rule: &ReplyRule,
    answer: &[u8],
    reply: &mut [u8],
    reply_len: &mut usize,
) -> Status
    ensures { Rewrites rule.now answer.now reply.old reply.new reply_len.old reply_len.new result }
{
    match rewrite_message(alloc, rule, answer) {
        Ok(built) => put_reply(&built, reply, reply_len),
        Err(ReplyError::OutOfMemory) => Status::NoMemory,
        Err(ReplyError::Service(ServiceError::InternalError)) => Status::TooLong,
        Err(ReplyError::Service(_)) => Status::Unreadable,
    }
}

/// Writes what is sent for a request whose service fails, by the response code of its error: 1, 2, 4 or 5.
#[unsafe(no_mangle)]
pub extern "C" fn nutscythe_raw_refuse(
    alloc: Global,
    rule: &[Rule],
    message: &[u8],
    rcode: u32,
    reply: &mut [u8],
    reply_len: &mut [usize],
) -> u32
    ensures missing { result ≡ 22 → (reply.new ≡ reply.old) × (reply_len.new ≡ reply_len.old) }
    ensures refused { (t : TheStatus) × (result ≡ number t) × OfOne rule.now (λ r. OfFirst reply_len.old reply_len.new
        (λ n l. RefusesBy (rule_in r) message.now (error_of rcode) reply.old reply.new n l t)
        (t ≡ TheStatus.NullPointer)) (t ≡ TheStatus.NullPointer) }
{
    refuse_at(alloc, rule, message, rcode, reply, reply_len) as u32
}

/// Writes what is sent if the service fails, by its status.
fn refuse_at(
    alloc: Global,
    rule: &[Rule],
    message: &[u8],
    rcode: u32,
    reply: &mut [u8],
    reply_len: &mut [usize],
) -> Status
    ensures missing { result ≡ Status.NullPointer → (reply.new ≡ reply.old) × (reply_len.new ≡ reply_len.old) }
    ensures refused { OfOne rule.now (λ r. OfFirst reply_len.old reply_len.new
        (λ n l. RefusesBy (rule_in r) message.now (error_of rcode) reply.old reply.new n l result)
        (result ≡ Status.NullPointer)) (result ≡ Status.NullPointer) }
{
    let [rule, ..] = rule else {
        return Status::NullPointer;
    };
    let [reply_len, ..] = reply_len else {
        return Status::NullPointer;
    };
    match error_of(rcode) {
        Some(error) => refuse_by(alloc, &rule.rule(), message, error, reply, reply_len),
        None => Status::OutOfRange,
    }
}

/// Writes what is sent if the service fails with an error.
fn refuse_by(
    alloc: Global,
    rule: &ReplyRule,
    message: &[u8],
    error: ServiceError,
    reply: &mut [u8],
    reply_len: &mut usize,
) -> Status
    ensures { Refuses rule.now message.now error reply.old reply.new reply_len.old reply_len.new result }
{
    match refuse_message(alloc, rule, message, error) {
        Ok(Some(built)) => put_reply(&built, reply, reply_len),
        Ok(None) => Status::Unreadable,
        Err(_) => Status::NoMemory,
    }
}
