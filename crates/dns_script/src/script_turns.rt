//! The rules of a script as a single service.

ghost use Rattle.std.specs.Prelude.{◌≡◌, IfOk, slice_get};
ghost use Rattle.dns_base.specs.Wire.{wire};
ghost use Rattle.dns_route.specs.Relays.{read_reply};
ghost use Rattle.dns_route.specs.ReplyMessage.{reply_read};
ghost use Rattle.dns_script.specs.CachedRules.{rule_turns, turn_by, turn_of_item};
ghost use Rattle.dns_script.specs.Played.{played_from};
ghost use Rattle.dns_script.specs.Rules.{answers_for, name_asked};

use crate::rule::{Rules, ScriptAnswer};
use crate::script_answers::make_answer;
use crate::script_service::answers_for;
use dns_base::{AdditionalBuilder, Message};
use dns_name::OutOfMemory;
use dns_route::{ComposeReply, ReplyMessage, SingleService, Turned};
use dns_service::{CallResult, Polled, ReplyError, Request, ServiceError, ServiceResult};
use std::alloc::Global;

/// Answers each turn of a request by the answer of that number of the first rule that fits. A feedback, which a turn can't
/// give, is the error InternalError, also beside a reply; so is a turn after the last answer.
#[derive(Drop)]
pub struct ScriptTurns {
    pub(crate) rules: Rules,
}

impl ScriptTurns {
    /// The single service of these rules.
    pub fn new(rules: Rules) -> Self
        ensures { ⟦<ScriptTurns as SingleService>⟧.answer result ≡ rule_turns rules }
    {
        ScriptTurns { rules }
    }

    /// The answer of a number of the first rule that fits a message.
    #[tactic(auto, using(crate::proofs::Answered::answered_at, crate::proofs::Answered::none_left))]
    fn played(
        &self,
        alloc: Global,
        message: &Message,
        k: u64,
    ) -> Result<Polled<Option<ServiceResult>>, OutOfMemory>
        ensures { IfOk result (λ p. p ≡ played_from message.now (answers_for self.now.rules (name_asked message.now)) k) }
    {
        let answers = answers_for(alloc, self.rules.as_slice(), message)?;
        match answer_at(answers.as_slice(), k) {
            Some(answer) => make_answer(alloc, message, &answer, Vec::new(alloc)),
            None => Ok(Polled::Ready(None)),
        }
    }
}

impl SingleService for ScriptTurns {
    ghost answer = { λ s. rule_turns s.rules };

    fn turn(&self, alloc: Global, request: &Request<()>, k: u64) -> Result<Turned, OutOfMemory> {
        let given = self.played(alloc, request.message(), k)?;
        turn_by(alloc, given)
    }
}

/// The answer of a number, if there are that many.
fn answer_at(answers: &[ScriptAnswer], k: u64) -> Option<ScriptAnswer>
    ensures { result ≡ slice_get answers.now k }
{
    answers.get(k as usize).copied()
}

/// The turn that a poll's answer is.
fn turn_by(alloc: Global, given: Polled<Option<ServiceResult>>) -> Result<Turned, OutOfMemory>
    ensures { IfOk result (λ t. t ≡ turn_by given) }
{
    match given {
        Polled::Pending => Ok(Polled::Pending),
        Polled::Ready(None) => Ok(Polled::Ready(Err(ServiceError::InternalError))),
        Polled::Ready(Some(Err(error))) => Ok(Polled::Ready(Err(error))),
        Polled::Ready(Some(Ok(given))) => Ok(Polled::Ready(turn_of_item(alloc, given)?)),
    }
}

/// The reply that a result is, or the error that stands for it.
fn turn_of_item(
    alloc: Global,
    given: CallResult,
) -> Result<Result<ReplyMessage, ServiceError>, OutOfMemory>
    ensures { IfOk result (λ t. t ≡ turn_of_item given.response given.feedback) }
{
    let (response, feedback) = given.into_inner();
    match (response, feedback) {
        (Some(built), None) => begun(alloc, &built),
        _ => Ok(Err(ServiceError::InternalError)),
    }
}

/// The reply that a message begins.
fn begun(
    alloc: Global,
    built: &AdditionalBuilder,
) -> Result<Result<ReplyMessage, ServiceError>, OutOfMemory>
    ensures { IfOk result (λ t. t ≡ read_reply (reply_read (wire built.now.message))) }
{
    match ReplyMessage::from_message(alloc, &built.as_message()) {
        Ok(reply) => Ok(Ok(reply)),
        Err(ReplyError::Service(error)) => Ok(Err(error)),
        Err(ReplyError::OutOfMemory) => Err(OutOfMemory),
    }
}
