//! The service that plays the rules of a script.

ghost use Rattle.std.specs.Prelude.{◌≡◌, IfOk, Some, length, option_map, ◌-◌};
ghost use Rattle.dns_name.specs.Canonical.{same_name};
ghost use Rattle.dns_service.specs.Transport.{hint_of};
ghost use Rattle.dns_script.specs.Rules.{answers_for, fits_asked, name_asked};
ghost use Rattle.dns_script.specs.Played.{played};
ghost use Rattle.dns_script.specs.Streams.{left_of, answers_left};

use crate::rule::{Rule, Rules, ScriptAnswer, ScriptAnswers};
use crate::script_answers::make_answer;
use dns_base::{Message, QuestionRef};
use dns_name::{Name, OutOfMemory};
use dns_service::{
    Polled, ReplyFuture, ReplyStream, Request, Service, ServiceError, ServiceResult,
};
use std::alloc::Global;
use std::mem::replace;
use std::sync::Arc;

/// Answers each request by the first rule of a script: its answers, one poll each, and then the end.
#[derive(Drop)]
pub struct ScriptService {
    rules: Rules,
}

impl ScriptService {
    /// The service of these rules.
    pub fn new(rules: Rules) -> Self
        ensures { ⟦<ScriptService as Service<()>>⟧.answer result ≡ played rules }
    {
        ScriptService { rules }
    }
}

impl Service<()> for ScriptService {
    type Stream = ScriptStream;

    type Future = ScriptFuture;

    ghost answer = { λ s. played s.rules };

    ghost hint = { λ _ r. hint_of r.transport };

    #[inline(always)]
    fn call(&self, alloc: Global, request: &mut Request<()>) -> Result<ScriptFuture, OutOfMemory> {
        let answers = answers_for(alloc, self.rules.as_slice(), request.message())?;
        let message = Arc::try_clone(request.message())?;
        Ok(ScriptFuture {
            stream: Some(ScriptStream {
                message,
                answers,
                next: 0,
                memory: request.take_reply_memory(alloc),
            }),
        })
    }
}

/// The answers of the first rule that fits a message, and a refusal if there is none. If the first rule of all is for all
/// names, the question isn't read.
#[tactic(auto, using(crate::proofs::FirstRules::first_for_all))]
pub(crate) fn answers_for(
    alloc: Global,
    rules: &[Rule],
    message: &Message,
) -> Result<ScriptAnswers, OutOfMemory>
    ensures { IfOk result (λ a. a ≡ answers_for rules.now (name_asked message.now)) }
{
    match rules.first() {
        Some(rule) if rule.name.is_none() => rule.answers.try_clone(),
        _ => answers_asked(alloc, rules, message),
    }
}

/// The answers of the first rule that fits the question of a message, and a refusal if there is none.
#[inline(never)]
fn answers_asked(
    alloc: Global,
    rules: &[Rule],
    message: &Message,
) -> Result<ScriptAnswers, OutOfMemory>
    ensures { IfOk result (λ a. a ≡ answers_for rules.now (name_asked message.now)) }
{
    let question = message.first_question();
    for rule in rules {
        if fits(rule, &question) {
            return rule.answers.try_clone();
        }
    }
    ScriptAnswers::from_slice(alloc, &[ScriptAnswer::Error(ServiceError::Refused)])
}

/// Whether a rule fits a message with this first question, or without a readable one.
fn fits(rule: &Rule, question: &Option<QuestionRef<'_>>) -> bool
    ensures { result ≡ fits_asked rule.now.name (option_map (λ q. q.qname) question.now) }
{
    match &rule.name {
        None => true,
        Some(name) => match question {
            Some(question) => asks_for(question, name),
            None => false,
        },
    }
}

/// Whether a question's name is this one, up to ASCII case.
fn asks_for(question: &QuestionRef<'_>, name: &Name) -> bool
    ensures { result ≡ same_name question.now.qname name.now }
{
    question.qname().name_eq(&name.for_ref())
}

/// A future that is ready at once.
#[derive(Drop)]
pub struct ScriptFuture {
    stream: Option<ScriptStream>,
}

impl ReplyFuture for ScriptFuture {
    type Stream = ScriptStream;

    ghost answer = { λ f. answers_left f.stream };

    fn poll(&mut self, _alloc: Global) -> Result<Polled<ScriptStream>, OutOfMemory> {
        match self.stream.take() {
            Some(stream) => Ok(Polled::Ready(stream)),
            None => Ok(Polled::Pending),
        }
    }

    #[inline(always)]
    fn into_stream(self) -> Result<ScriptStream, ScriptFuture> {
        match self.stream {
            Some(stream) => Ok(stream),
            None => Err(ScriptFuture { stream: None }),
        }
    }
}

/// The answers that are left.
#[derive(Drop)]
pub struct ScriptStream {
    message: Arc<Message>,
    answers: ScriptAnswers,
    next: usize,
    memory: Vec<u8>,
}

impl ReplyStream for ScriptStream {
    ghost answer = { left_of };

    ghost size = { λ s. (0, Some (length s.answers - s.next)) };

    #[inline(always)]
    fn poll_next(&mut self, alloc: Global) -> Result<Polled<Option<ServiceResult>>, OutOfMemory> {
        let Some(answer) = self.answers.as_slice().get(self.next) else {
            return Ok(Polled::Ready(None));
        };
        self.next += 1;
        let memory = replace(&mut self.memory, Vec::new(alloc));
        make_answer(alloc, &self.message, answer, memory)
    }

    fn size_hint(&self) -> (usize, Option<usize>) {
        let left = self.answers.as_slice().len().saturating_sub(self.next);
        (0, Some(left))
    }
}
