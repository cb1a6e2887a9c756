//! The service lines of a script.

ghost use Rattle.std.specs.Prelude.{◌≡◌, IfOk};

use crate::rule_list::RuleList;
use dns_name::{Name, OutOfMemory, Rcode, Ttl};
use dns_service::{ServiceError, ServiceFeedback};
use std::alloc::Global;
use std::marker::Model;
use std::sync::Arc;

/// A reply that a rule of a script gives.
#[derive(Clone, Copy)]
pub enum ScriptReply {
    /// A reply with the request's questions and this response code.
    Rcode(Rcode),
    /// A reply that is a header alone, whose bits are zero except for this response code.
    Blank(Rcode),
    /// A reply with the request's questions and an answer of that many zeros.
    Fill(u16),
    /// A reply with the request's questions and an OPT record with a padding of that many zeros.
    Opt(u16),
    /// A reply with the request's questions and an answer of this time to live and no data.
    Live(Ttl),
}

/// The answer of one poll.
#[derive(Clone, Copy)]
pub enum ScriptAnswer {
    /// Nothing yet.
    Pend,
    /// An error.
    Error(ServiceError),
    /// A feedback.
    Feedback(ServiceFeedback),
    /// A reply.
    Reply(ScriptReply),
    /// A feedback, and a reply.
    Both(ServiceFeedback, ScriptReply),
}

/// Poll answers, in order, which all requests that play them share.
#[derive(Drop)]
pub struct ScriptAnswers {
    answers: Arc<Vec<ScriptAnswer>>,
}

impl Model for ScriptAnswers {
    ghost use Rattle.std.specs.Prelude.{List};
    ghost use Rattle.std.specs.Arc.{arc_value};
    ghost use Rattle.dns_script.specs.declared.rule.ScriptAnswer.{ScriptAnswer};

    ghost Value = { List ScriptAnswer };

    ghost view = { λ a. (arc_value a.answers).items };
}

impl ScriptAnswers {
    /// The answers of a vector, which is not copied.
    pub fn from_vec(alloc: Global, answers: Vec<ScriptAnswer>) -> Result<ScriptAnswers, OutOfMemory>
        ensures { IfOk result (λ a. a ≡ answers.items) }
    {
        let answers = Arc::new(alloc, answers)?;
        Ok(ScriptAnswers { answers })
    }

    /// A copy of a slice.
    pub fn from_slice(alloc: Global, answers: &[ScriptAnswer]) -> Result<ScriptAnswers, OutOfMemory>
        ensures { IfOk result (λ a. a ≡ answers.now) }
    {
        ScriptAnswers::from_vec(alloc, Vec::from_slice(alloc, answers)?)
    }

    /// Another handle on these answers, which are shared and not copied.
    pub fn try_clone(&self) -> Result<ScriptAnswers, OutOfMemory>
        ensures { IfOk result (λ a. a ≡ self.now) }
    {
        let answers = Arc::try_clone(&self.answers)?;
        Ok(ScriptAnswers { answers })
    }

    /// The answers, one for each poll.
    pub fn as_slice(&self) -> &[ScriptAnswer]
        ensures { result.now ≡ self.now }
    {
        self.answers.as_slice()
    }
}

/// A service line: for which requests it is, and what is answered at each poll.
#[derive(Drop)]
pub struct Rule {
    /// The name that it is for, if it isn't for all.
    pub name: Option<Name>,
    pub answers: ScriptAnswers,
}

/// The service lines of a script, in order.
pub type Rules = RuleList<Rule>;
