//! Where a chain isn't whole.

ghost use Rattle.std.specs.Prelude.{◌≡◌};

use dns_name::OutOfMemory;

/// Where a chain of NSEC records isn't whole for a zone (RFC 4035, section 2.3). Places are counted from 0.
#[derive(Clone, Copy, Debug)]
pub enum ChainError {
    /// The place in the zone of the first record that no NSEC lists: its owner has none, or its type isn't there.
    Unlisted(usize),
    /// The place in the chain of the first NSEC whose owner must have none, or that lists a type which the owner doesn't have.
    Unfounded(usize),
    /// The place in the chain of the first NSEC that points elsewhere. Its next name isn't the owner of the NSEC after it, or after
    /// the last one the apex.
    Unlinked(usize),
    OutOfMemory,
}

impl From<OutOfMemory> for ChainError {
    ghost use Rattle.dns_denial.specs.declared.chain_error.ChainError.TheVariants.{OutOfMemory as NoMemory};

    ghost from_gives = { λ _ e. e ≡ NoMemory };

    fn from(_error: OutOfMemory) -> Self {
        ChainError::OutOfMemory
    }
}
