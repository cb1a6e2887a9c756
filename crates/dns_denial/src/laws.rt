//! Laws of denials.

ghost use Rattle.dns_denial.specs.Accepted.{EachAbsenceIsProved};
ghost use Rattle.dns_denial.specs.Accepted3.{EachAbsenceIsProved3};
ghost use Rattle.dns_denial.specs.Checks.{WholeChainsBreakNowhere};
ghost use Rattle.dns_denial.specs.Denials.{DsIsProvedAbsent, ExpansionsAreProved, InsecureDelegationsAreProved, NameErrorsAreProved, NoDataIsProved, WildcardNoDataIsProved};
ghost use Rattle.dns_denial.specs.ExampleChain.{ExampleChainIsWhole};
ghost use Rattle.dns_denial.specs.Signed.{SigningAdds};
ghost use Rattle.dns_denial.specs.Nsec3.{ExpansionsAreProved3, InsecureDelegationsAreProved3, NameErrorsAreProved3, NoDataIsProved3, OptedOutDelegationsAreProved3, WildcardNoDataIsProved3};

/// The last NSEC that isn't after a name that doesn't exist, and the last one that isn't after the wildcard, prove both absent.
#[tactic(auto, using(crate::proofs::DenialLaws::name_errors))]
pub fn name_errors_are_proved()
    ensures { NameErrorsAreProved }
{}

/// The last NSEC that isn't after a name that exists proves that it has no records of a type, also at an empty non-terminal.
#[tactic(auto, using(crate::proofs::DenialLaws::no_data))]
pub fn no_data_is_proved()
    ensures { NoDataIsProved }
{}

/// Those two of a name error also prove that a wildcard stands for a name and has no records of a type.
#[tactic(auto, using(crate::proofs::DenialLaws::wildcard_no_data))]
pub fn wildcard_no_data_is_proved()
    ensures { WildcardNoDataIsProved }
{}

/// The last NSEC that isn't after a name proves that no name closer than a wildcard stands for it.
#[tactic(auto, using(crate::proofs::DenialLaws::expansions))]
pub fn expansions_are_proved()
    ensures { ExpansionsAreProved }
{}

/// The last NSEC that isn't after a delegation point is its own, and proves that it has no DS.
#[tactic(auto, using(crate::proofs::DenialLaws::insecure_delegations))]
pub fn insecure_delegations_are_proved()
    ensures { InsecureDelegationsAreProved }
{}

/// The last NSEC that isn't after a delegation point proves that it has no DS, if the parent is asked for it.
#[tactic(auto, using(crate::proofs::DenialLaws::ds_absent))]
pub fn ds_is_proved_absent()
    ensures { DsIsProvedAbsent }
{}

/// Whatever a reply says of a name is accepted with two NSECs: no such name, no data, an expanded wildcard, a referral without
/// DS, DS asked of the parent.
pub fn each_absence_is_proved()
    ensures { EachAbsenceIsProved }
{}

/// The check of a chain finds no fault in one that is whole.
pub fn whole_chains_break_nowhere()
    ensures { WholeChainsBreakNowhere }
{}

/// The NSEC3s of the closest encloser, of the next closer name and of the wildcard prove a name error.
pub fn name_errors_are_proved3()
    ensures { NameErrorsAreProved3 }
{}

/// The NSEC3 of a name proves that it has no records of a type.
pub fn no_data_is_proved3()
    ensures { NoDataIsProved3 }
{}

/// Those three of a name error also prove that a wildcard stands for a name and has no records of a type.
pub fn wildcard_no_data_is_proved3()
    ensures { WildcardNoDataIsProved3 }
{}

/// The NSEC3 of the next closer name proves that no name closer than a wildcard stands for a name.
pub fn expansions_are_proved3()
    ensures { ExpansionsAreProved3 }
{}

/// The NSEC3 of a delegation point proves that it has no DS.
pub fn insecure_delegations_are_proved3()
    ensures { InsecureDelegationsAreProved3 }
{}

/// Those of the closest provable encloser and of the next closer name prove that a delegation point without an NSEC3 may have no
/// DS.
pub fn opted_out_delegations_are_proved3()
    ensures { OptedOutDelegationsAreProved3 }
{}

/// Whatever a reply says of a name is accepted with the NSEC3s of the names in section 7.2 of RFC 5155. The chain has to prove it
/// at all.
pub fn each_absence_is_proved3()
    ensures { EachAbsenceIsProved3 }
{}

/// The NSEC3s of two names of RFC 5155, appendix A, are a whole chain of a zone of these names. So the laws by NSEC3 say something
/// of a zone below the root.
pub fn example_chain_is_whole3()
    ensures { ExampleChainIsWhole }
{}

/// Signing adds to a reply and never changes it.
pub fn signing_adds()
    ensures { SigningAdds }
{}
