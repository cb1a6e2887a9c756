//! What holds of every lookup (RFC 5452, section 9.1: an answer is one of the upstream's address and port, under the identifier
//! and of the question that were asked).

ghost use Rattle.dns_lookup.specs.LookupLaws.{FirstMatchAnswers, ForgeriesLeadToNothing, StrangersChangeNothing};

/// A datagram from another address or port than the upstream's changes nothing, whatever is in it.
pub fn strangers_change_nothing()
    ensures { StrangersChangeNothing }
{}

/// Octets that don't match lead to nothing: those under another identifier, of another question or opcode, and what is no response.
pub fn forgeries_lead_to_nothing()
    ensures { ForgeriesLeadToNothing }
{}

/// The first datagram of the upstream that matches is the answer, or is asked again over a connection if it is truncated.
pub fn first_match_answers()
    ensures { FirstMatchAnswers }
{}
