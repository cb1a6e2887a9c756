//! Laws of replies from zones that are signed with NSEC3.

ghost use Rattle.dns_hashed_reply.specs.HashedLaws.{ChosenAreGiven3, HashedRepliesAreAccepted, NothingWithoutDo3, SigningAddsAll3, SigningAddsOnly3};

/// Signing adds RRSIG, NSEC3 and DS records behind each section, and changes nothing, unless a hash collides.
pub fn signing_adds_only3()
    ensures { SigningAddsOnly3 }
{}

/// With DO each RRset has its RRSIGs, and each NSEC3 that is chosen is there with its own.
pub fn signing_adds_all3()
    ensures { SigningAddsAll3 }
{}

/// Without DO nothing is added.
pub fn nothing_without_do3()
    ensures { NothingWithoutDo3 }
{}

/// Each NSEC3 that is chosen is what an NSEC3 record of the reply says.
pub fn chosen_are_given3()
    ensures { ChosenAreGiven3 }
{}

/// A validator accepts what a reply says of each name that it is asked for, with the NSEC3s that are chosen.
pub fn hashed_replies_are_accepted()
    ensures { HashedRepliesAreAccepted }
{}
