//! Why NSEC3 records are no chain.

ghost use Rattle.std.specs.Prelude.{◌≡◌};

use dns_denial::HashingError;
use dns_name::OutOfMemory;
use std::alloc::AllocError;

/// Why the NSEC3 records of a list can't be taken as a chain: the first of these causes.
#[derive(Clone, Copy, Debug)]
pub enum Nsec3Error {
    /// How many NSEC3PARAM records without flags there are at the apex, if it isn't one (RFC 5155, section 4.1.2).
    Params(usize),
    /// That record has another algorithm than SHA-1, or data out of form.
    Param,
    /// Its number of iterations or its salt is refused.
    Hashing(HashingError),
    /// The place in the list of the first NSEC3 record that is none for these parameters. Its owner is no hash below the apex; or its
    /// algorithm, salt or number of iterations is another. Or it has an unknown flag, a hash of a wrong length, or bit maps out of form.
    Malformed(usize),
    /// Two of them have one hash.
    Twice,
    OutOfMemory,
}

impl From<OutOfMemory> for Nsec3Error {
    ghost use Rattle.dns_nsec3_data.specs.declared.nsec3_error.Nsec3Error.TheVariants.{OutOfMemory as NoMemory};

    ghost from_gives = { λ _ e. e ≡ NoMemory };

    fn from(_error: OutOfMemory) -> Self {
        Nsec3Error::OutOfMemory
    }
}

impl From<AllocError> for Nsec3Error {
    ghost use Rattle.dns_nsec3_data.specs.declared.nsec3_error.Nsec3Error.TheVariants.{OutOfMemory as NoMemory};

    ghost from_gives = { λ _ e. e ≡ NoMemory };

    fn from(_error: AllocError) -> Self {
        Nsec3Error::OutOfMemory
    }
}
