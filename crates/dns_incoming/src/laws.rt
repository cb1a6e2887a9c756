//! Laws of transfers that come in.

ghost use Rattle.dns_incoming.specs.IncomingLaws.{CutsAreTheSame, MessagesAreTaken, SentZonesComeBack, ZonesComeBack};

use dns_base::{messages_read_back, typed_records_read_back};

/// However records are cut into messages, the same comes of them.
#[tactic(auto, using(crate::proofs::CutLaws::cuts_are_the_same))]
pub fn cuts_are_the_same()
    ensures { CutsAreTheSame }
{}

/// The records that are sent of a zone come back: its SOA record, and then all others in order.
#[tactic(auto, using(crate::proofs::ZoneLaws::zones_come_back))]
pub fn zones_come_back()
    ensures { ZonesComeBack }
{}

/// Of a message that is written of typed records, exactly its answer records are taken.
pub fn messages_are_taken()
    ensures { MessagesAreTaken }
{
    messages_read_back();
    typed_records_read_back();
}

/// Of the octets that a transfer sends the records of the zone come: its SOA record, and then all others in order.
pub fn sent_zones_come_back()
    ensures { SentZonesComeBack }
{
    messages_read_back();
    typed_records_read_back();
}
