//! Why the text of a zone file isn't served.

ghost use Rattle.std.specs.Prelude.{◌≡◌};

use dns_hashed_zone::HashedZoneError;
use dns_name::OutOfMemory;
use dns_signed_zone::SignedZoneError;
use dns_zone_file::EntryReason;
use dns_zone_tree::TreeError;
use std::alloc::AllocError;

/// Why the text of a zone file isn't served.
#[derive(Clone, Copy, Debug)]
pub enum ZoneTextError {
    /// A line, counted from 1, and why it is refused.
    Line { line: u64, reason: EntryReason },
    /// Its records are no zone.
    NotZone(TreeError),
    /// It has NSEC records, and they are no chain that is whole.
    NotSigned(SignedZoneError),
    /// It has NSEC3 or NSEC3PARAM records, and they are no chain that is whole.
    NotHashed(HashedZoneError),
    OutOfMemory,
}

impl From<OutOfMemory> for ZoneTextError {
    ghost use Rattle.dns_generation.specs.declared.zone_text_error.ZoneTextError.TheVariants.{OutOfMemory as NoMemory};

    ghost from_gives = { λ _ e. e ≡ NoMemory };

    fn from(_error: OutOfMemory) -> ZoneTextError {
        ZoneTextError::OutOfMemory
    }
}

impl From<AllocError> for ZoneTextError {
    ghost use Rattle.dns_generation.specs.declared.zone_text_error.ZoneTextError.TheVariants.{OutOfMemory as NoMemory};

    ghost from_gives = { λ _ e. e ≡ NoMemory };

    fn from(_error: AllocError) -> ZoneTextError {
        ZoneTextError::OutOfMemory
    }
}
