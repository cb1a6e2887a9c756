//! Laws of zones.

ghost use Rattle.std.specs.Prelude.{◌≡◌, ◌↔◌, ℕ, List, false, Ok};
ghost use Rattle.std.specs.List.{AllByRecursion};
ghost use Rattle.dns_base.specs.Msg.{IsMessage};
ghost use Rattle.dns_message.specs.declared.question.Question.{Question};
ghost use Rattle.dns_route.specs.OwnReplies.{kept_whole};
ghost use Rattle.dns_route.specs.ReplyMessage.{reply_message};
ghost use Rattle.dns_zone.specs.Cuts.{is_cut_off};
ghost use Rattle.dns_zone.specs.Owned.{HasTypedData, ZoneState};
ghost use Rattle.dns_zone.specs.ZoneReply.{exists, zone_reply};
ghost use Rattle.dns_zone.specs.ZoneTurns.{zone_message};

use dns_route::typed_replies_are_built;

/// A name is said not to exist exactly if it is at or below no cut, and no record is at or below it (RFC 8020, section 2).
pub fn missing_names_are_denied()
    ensures { (z : ZoneState) (q : Question)
        → ((zone_reply z q).rcode ≡ 3) ↔ ((is_cut_off z q.qname ≡ false) × (exists z q.qname ≡ false)) }
{}

/// What is built of a zone's reply is the message of that reply, section for section.
pub fn zone_replies_are_built()
    ensures { (z : ZoneState) (o : List ℕ) (q : Question) → AllByRecursion HasTypedData z.records
        → IsMessage (zone_message o (zone_reply z q))
        → reply_message (kept_whole (zone_message o (zone_reply z q))) ≡ Ok (zone_message o (zone_reply z q)) }
{
    typed_replies_are_built();
}
