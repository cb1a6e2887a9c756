//! The NSECs of a reply.

use dns_denial::Nsec;

/// The NSECs that prove what a reply says of a name.
#[derive(Drop)]
pub struct Proofs<'a> {
    /// That of the name, of the gap in which it lies, or of the delegation point above it.
    pub first: Option<&'a Nsec>,
    /// That of the wildcard of a name that doesn't exist, or of the gap in which the wildcard lies.
    pub second: Option<&'a Nsec>,
}
