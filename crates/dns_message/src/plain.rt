//! Questions whose names are uncompressed.

ghost use Rattle.std.specs.Prelude.{◌≤◌, ℕ, length, IfSome, MatchOption};
ghost use Rattle.dns_message.specs.Plain.{QuestionStands, QuestionsStand};

use crate::header::number_at;
use dns_name::NameRef;

/// The place after a question whose name is uncompressed.
fn plain_question(octets: &[u8], at: usize) -> Option<usize>
    requires { at ≤ length octets.now }
    ensures stands { MatchOption result ((end : ℕ) → QuestionStands octets.now at end → ⊥) (λ end. QuestionStands octets.now at end) }
    ensures within { IfSome result (λ end. end ≤ length octets.now) }
{
    match NameRef::at(octets, at) {
        Ok((_, end)) if octets.len() - end >= 4 => Some(end + 4),
        _ => None,
    }
}

/// The place after the questions of a message, if each is readable and its name is uncompressed.
pub fn plain_questions(octets: &[u8]) -> Option<usize>
    requires { 12 ≤ length octets.now }
    ensures stand { MatchOption result ((end : ℕ) → QuestionsStand octets.now end → ⊥) (λ end. QuestionsStand octets.now end) }
    ensures within { IfSome result (λ end. end ≤ length octets.now) }
{
    let mut at = 12;
    let mut left = number_at(octets, 4);
    'items: while left > 0 {
        at = plain_question(octets, at)?;
        left -= 1;
    }
    Some(at)
}
