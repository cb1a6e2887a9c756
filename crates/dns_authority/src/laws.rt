//! Laws of authorities.

ghost use Rattle.std.specs.Prelude.{◌≡◌, ◌↔◌, ℕ, List, IsTrue};
ghost use Rattle.dns_name.specs.Canonical.{same_name};
ghost use Rattle.dns_name.specs.Labels.{folded};
ghost use Rattle.dns_authority.specs.Authorities.{LongestAnswers, TransfersAreAnswered};
ghost use Rattle.dns_authority.specs.SentZones.{TheZoneIsSent, TransfersAreTheRecords};

use dns_zone_tree::ZoneTree;

/// The zone that answers has the longest apex that ends the name.
pub fn the_longest_apex_answers()
    ensures { LongestAnswers }
{}

/// A query for a transfer at the apex of the zone that it asks is answered by the transfer if it is allowed. Else it is answered
/// REFUSED.
pub fn transfers_are_answered<Meta>()
    ensures { TransfersAreAnswered Meta }
{}

/// The answer records of a transfer that is allowed, joined, are those of the zone, which was added since none of its records
/// is long.
pub fn transfers_are_the_records<Meta>()
    ensures { TransfersAreTheRecords Meta }
{}

/// The answer records of a transfer of a zone that is allowed, joined, are those of the zone, whatever zone was made.
pub fn zones_are_sent<Meta>(zone: &ZoneTree)
    ensures { TheZoneIsSent Meta zone.now }
{
    zone.records();
}

/// Names are the same exactly if their labels are, in lower case.
#[tactic(auto, using(crate::proofs::ZoneForLaws::same_names))]
pub(crate) fn same_names_are_folded()
    ensures { (a b : List (List ℕ)) → IsTrue (same_name a b) ↔ (folded a ≡ folded b) }
{}
