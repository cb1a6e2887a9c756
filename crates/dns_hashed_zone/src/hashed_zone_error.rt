//! Why records are no zone that is signed with NSEC3.

ghost use Rattle.std.specs.Prelude.{◌≡◌};

use dns_name::OutOfMemory;
use dns_nsec3_data::Nsec3Error;
use dns_zone_tree::TreeError;
use std::alloc::AllocError;

/// Where a chain of NSEC3s isn't whole.
#[derive(Clone, Copy, Debug)]
pub enum HashedChainError {
    /// The place of the first record of which a name has no NSEC3 that should have one, or one that lists other types: its owner, or
    /// a name above it. Or its owner is below a DNAME record (RFC 6672, section 2.4).
    Unlisted(usize),
    /// The place of the first NSEC3 that is no name's, in the order of hashes.
    Unfounded(usize),
    /// The place of the first NSEC3 that doesn't point to the next, in the order of hashes.
    Unlinked(usize),
    /// The place, among the NSEC3 records and their RRSIGs, of an RRSIG whose owner has no NSEC3 record.
    Unowned(usize),
    OutOfMemory,
}

impl From<OutOfMemory> for HashedChainError {
    ghost use Rattle.dns_hashed_zone.specs.declared.hashed_zone_error.HashedChainError.TheVariants.{OutOfMemory as NoMemory};

    ghost from_gives = { λ _ e. e ≡ NoMemory };

    fn from(_error: OutOfMemory) -> Self {
        HashedChainError::OutOfMemory
    }
}

impl From<AllocError> for HashedChainError {
    ghost use Rattle.dns_hashed_zone.specs.declared.hashed_zone_error.HashedChainError.TheVariants.{OutOfMemory as NoMemory};

    ghost from_gives = { λ _ e. e ≡ NoMemory };

    fn from(_error: AllocError) -> Self {
        HashedChainError::OutOfMemory
    }
}

/// Why records are no zone with a whole chain of NSEC3s: one of these causes. Places in `Tree` and in `Unlisted` are those
/// among the other records than NSEC3 records and their RRSIGs.
#[derive(Clone, Copy, Debug)]
pub enum HashedZoneError {
    /// The NSEC3 and NSEC3PARAM records among them are no chain.
    Nsec3(Nsec3Error),
    /// The others are no zone.
    Tree(TreeError),
    /// The chain isn't whole.
    Chain(HashedChainError),
}
