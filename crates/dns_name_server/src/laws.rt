//! Laws of the replies of a name server.

ghost use Rattle.dns_name_server.specs.WildReplies.{DirectRepliesAreTheZones, DirectRepliesAreWild, ExistingNamesAreTheirOwn, WildcardsAlone, WildcardsAreStars};

/// If no wildcard exists the reply is that without wildcards.
#[tactic(auto, using(crate::proofs::WildLaws::wildcards_alone))]
pub fn wildcards_alone()
    ensures { WildcardsAlone }
{}

/// No wildcard exists if no label of an owner is `*`.
#[tactic(auto, using(crate::proofs::WildLaws::wildcards_are_stars))]
pub fn wildcards_are_stars()
    ensures { WildcardsAreStars }
{}

/// The reply for a name that exists and is no alias is that without wildcards.
#[tactic(auto, using(crate::proofs::WildLaws::existing_names_are_their_own))]
pub fn existing_names_are_their_own()
    ensures { ExistingNamesAreTheirOwn }
{}

/// Let no alias and no DNAME be in the way, and the type not be DS. Then the reply of a name server is that of a zone with
/// wildcards. If no wildcard exists it is that of a zone.
pub fn direct_replies_are_the_zones()
    ensures wild { DirectRepliesAreWild }
    ensures zone { DirectRepliesAreTheZones }
{}
