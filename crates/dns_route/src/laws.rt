//! Laws of replies.

ghost use Rattle.std.specs.Prelude.{◌≡◌, ◌<◌, ℕ, List, Some, Ok};
ghost use Rattle.dns_base.specs.Msg.{IsMessage, Msg};
ghost use Rattle.dns_base.specs.Replaced.{other_than};
ghost use Rattle.dns_base.specs.Wire.{wire};
ghost use Rattle.dns_opt.specs.Extended.{extended, extended_octets};
ghost use Rattle.dns_service.specs.Copied.{copied};
ghost use Rattle.dns_service.specs.ErrorReply.{error_reply};
ghost use Rattle.dns_service.specs.WithOption.{optioned};
ghost use Rattle.dns_route.specs.OwnReplies.{error_state, explained, kept_whole};
ghost use Rattle.dns_route.specs.ReplyMessage.{reply_message};
ghost use Rattle.dns_route.specs.Typed.{AreTyped, IsTypedMessage};

use dns_base::{messages_read_back, typed_records_read_back};

/// What is built of a router's own replies is the error reply to the query, and that with an extended error in its OPT
/// record.
pub fn own_replies_are_error_replies()
    ensures plain { (query : List ℕ) (code : ℕ) → code < 16 → IsMessage (error_reply query code)
        → reply_message (error_state query code) ≡ Ok (error_reply query code) }
    ensures explained { (query text : List ℕ) → IsMessage (error_reply query 2)
        → reply_message (explained query text) ≡ Ok (optioned (error_reply query 2) 15 (extended_octets (extended 0 (Some text)))) }
{
    messages_read_back();
    typed_records_read_back();
}

/// The copy of a message that was written of typed records is that message, without the OPT records of its additional
/// section.
pub fn typed_messages_are_copied()
    ensures { (m : Msg) → IsMessage m → AreTyped m.answers → AreTyped m.authority → AreTyped m.additional
        → copied (wire m) ≡ Ok (record m { additional = other_than 41 m.additional }) }
{
    messages_read_back();
    typed_records_read_back();
}

/// Take a reply that is a message of one's own, whose records have typed data and whose additional section has no OPT record. What
/// is built of it is that message.
pub fn typed_replies_are_built()
    ensures { (m : Msg) → IsMessage m → IsTypedMessage m → reply_message (kept_whole m) ≡ Ok m }
{
    messages_read_back();
    typed_records_read_back();
}
