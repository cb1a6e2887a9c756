//! Laws of messages.

ghost use Rattle.std.specs.Prelude.{◌≡◌, ℕ, List, Ok, length};
ghost use Rattle.dns_message.specs.Msg.{IsMessage, Msg};
ghost use Rattle.dns_message.specs.Sections.{answers_of, authority_of, additional_of, message_of, standing_answers, standing_authority, standing_additional, SameRecords};
ghost use Rattle.dns_message.specs.Wire.{wire};

/// A message that is written reads back as itself, and no octet of it is left.
pub fn messages_read_back()
    ensures same { (m : Msg) → IsMessage m → message_of (wire m) ≡ m }
    ensures whole { (m : Msg) → IsMessage m → (additional_of (wire m)).1 ≡ Ok (length (wire m)) }
{}

/// The records that iterators give are those of the message's sections.
pub fn records_stand()
    ensures answers { (o : List ℕ) → SameRecords (standing_answers o) (answers_of o) }
    ensures authority { (o : List ℕ) → SameRecords (standing_authority o) (authority_of o) }
    ensures additional { (o : List ℕ) → SameRecords (standing_additional o) (additional_of o) }
{}
