//! Why NSEC records are no chain.

ghost use Rattle.std.specs.Prelude.{◌≡◌};

use dns_name::OutOfMemory;

/// Why the NSEC records of a list can't be taken as a chain.
#[derive(Clone, Copy, Debug)]
pub enum NsecError {
    /// The place in the list of the first NSEC record whose data isn't a name and type bit maps. Places are counted from 0.
    Malformed(usize),
    /// Two of them have one owner.
    Twice,
    OutOfMemory,
}

impl From<OutOfMemory> for NsecError {
    ghost use Rattle.dns_nsec_data.specs.declared.nsec_error.NsecError.TheVariants.{OutOfMemory as NoMemory};

    ghost from_gives = { λ _ e. e ≡ NoMemory };

    fn from(_error: OutOfMemory) -> Self {
        NsecError::OutOfMemory
    }
}
