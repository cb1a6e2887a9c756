//! Questions of a message copied into a draft.

ghost use Rattle.std.specs.Prelude.{◌≡◌, ◌≤◌, length};
ghost use Rattle.dns_base.specs.Built.{NoRecords};
ghost use Rattle.dns_base.specs.Plain.{QuestionsStand};
ghost use Rattle.dns_base.specs.Replies.{Copies, with_copied};
ghost use Rattle.dns_base.specs.Sections.{questions_of};
ghost use Rattle.dns_base.specs.Wire.{wire};

use crate::draft::{Draft, Starts, put_count};
use crate::error::PushError;
use dns_message::{Message, number_at, plain_questions};
use std::alloc::Global;

impl Draft {
    /// Adds the questions of a message up to its first unreadable one, as far as each has room. After a header alone
    /// they are added in one if they stand as they are written and all have room.
    #[inline(always)]
    pub(crate) fn copy_questions(
        &mut self,
        alloc: Global,
        message: &Message,
    ) -> Result<(), PushError>
        requires { NoRecords self.old.message }
        ensures value { Copies (with_copied self.old (questions_of message.now).0) self.new result }
        ensures records { NoRecords self.new.message }
    {
        match plain_questions(message.as_slice()) {
            Some(end) if self.octets.len() == 14 && end <= self.limit as usize => {
                self.copy_standing(message.as_slice(), end)
            }
            _ => self.copy_each(alloc, message),
        }
    }

    /// Adds the questions of a message up to its first unreadable one, each as far as it has room.
    #[cold]
    fn copy_each(&mut self, alloc: Global, message: &Message) -> Result<(), PushError>
        requires { NoRecords self.old.message }
        ensures value { Copies (with_copied self.old (questions_of message.now).0) self.new result }
        ensures records { NoRecords self.new.message }
    {
        let mut questions = message.question();
        'questions: while let Some(Ok(question)) = questions.next() {
            self.push_question(alloc, &question)?;
        }
        Ok(())
    }

    /// Adds questions that stand up to a place of a message as they are written, after a header alone.
    #[inline(always)]
    fn copy_standing(&mut self, message: &[u8], end: usize) -> Result<(), PushError>
        requires records { NoRecords self.old.message }
        requires header_alone { length (wire self.old.message) ≡ 12 }
        requires stand { QuestionsStand message.now end }
        requires within { end ≤ length message.now }
        requires room { end ≤ self.old.limit }
        ensures value { Copies (with_copied self.old (questions_of message.now).0) self.new result }
        ensures records { NoRecords self.new.message }
    {
        self.octets.extend_from_slice(&message[12..end])?;
        put_count(&mut self.octets, 4, number_at(message, 4));
        self.starts = Starts::all(end);
        Ok(())
    }
}
