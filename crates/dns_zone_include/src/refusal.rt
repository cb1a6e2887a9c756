//! Why a zone file and the texts that it includes give no records.

ghost use Rattle.std.specs.Prelude.{◌≡◌};
ghost use Rattle.dns_zone_include.specs.Refusals.{IsRefusal, is_include};

use dns_entries::EntryReason;
use dns_name::{Octets, OutOfMemory};
use std::alloc::{AllocError, AllocFailed, Global};

/// Why a line of a text is refused.
#[derive(Drop)]
pub enum IncludeReason {
    /// It is refused in a zone file alone, too, or what stands after `$INCLUDE` is.
    Entry(EntryReason),
    /// There is no text of this name to be included.
    NoText(Octets),
    /// The text that is to be included is being read.
    Loop,
    /// Texts are included in one another more than 16 levels deep.
    Depth,
}

/// Why texts give no records.
#[derive(Drop)]
pub enum IncludeError {
    /// The name of a text, a line of it, counted from 1, and why it is refused.
    Refused {
        name: Octets,
        line: u64,
        reason: IncludeReason,
    },
    OutOfMemory,
}

impl From<AllocError> for IncludeError {
    ghost use Rattle.dns_zone_include.specs.declared.refusal.IncludeError.TheVariants.{OutOfMemory as NoMemory};

    ghost from_gives = { λ _ e. e ≡ NoMemory };

    fn from(_error: AllocError) -> Self {
        IncludeError::OutOfMemory
    }
}

impl<T: Drop> From<AllocFailed<T>> for IncludeError {
    ghost use Rattle.dns_zone_include.specs.declared.refusal.IncludeError.TheVariants.{OutOfMemory as NoMemory};

    ghost from_gives = { λ _ e. e ≡ NoMemory };

    fn from(_error: AllocFailed<T>) -> Self {
        IncludeError::OutOfMemory
    }
}

impl From<OutOfMemory> for IncludeError {
    ghost use Rattle.dns_zone_include.specs.declared.refusal.IncludeError.TheVariants.{OutOfMemory as NoMemory};

    ghost from_gives = { λ _ e. e ≡ NoMemory };

    fn from(_error: OutOfMemory) -> Self {
        IncludeError::OutOfMemory
    }
}

/// A refusal of a line of the text of this name.
pub(crate) fn refusal(alloc: Global, name: &[u8], line: u64, reason: IncludeReason) -> IncludeError
    ensures { IsRefusal name.now line reason result }
{
    match Octets::from_slice(alloc, name) {
        Ok(name) => IncludeError::Refused { name, line, reason },
        Err(_) => IncludeError::OutOfMemory,
    }
}

/// Whether an entry is refused since it is `$INCLUDE`.
pub(crate) fn is_include(reason: EntryReason) -> bool
    ensures { result ≡ is_include reason }
{
    matches!(reason, EntryReason::Include)
}
