//! Message whose questions are being built.

ghost use Rattle.std.specs.Prelude.{◌≡◌};
ghost use Rattle.dns_base.specs.Built.{Pushes, less_questions, with_question};

use crate::builder::QuestionBuilder;
use crate::error::PushError;
use dns_message::{ComposeQuestion, Question};
use std::alloc::Global;

impl QuestionBuilder {
    /// Adds a question. A refused call leaves the message; `ShortBuf` says that it would pass its limit.
    pub fn push(&mut self, alloc: Global, question: &Question) -> Result<(), PushError>
        ensures { Pushes self.old self.new (with_question self.old question.now) result }
    {
        self.draft.push_question(alloc, question)
    }

    /// Adds what can be written as a question, as one that stands in a message.
    pub fn push_composed<Q: ComposeQuestion>(
        &mut self,
        alloc: Global,
        question: &Q,
    ) -> Result<(), PushError>
        ensures { Pushes self.old self.new (with_question self.old (Q.asked question.now)) result }
    {
        self.draft.push_question(alloc, question)
    }

    /// Drops all questions; the header stays.
    pub fn rewind(&mut self)
        ensures { self.new ≡ less_questions self.old }
    {
        self.draft.rewind_questions();
    }
}
