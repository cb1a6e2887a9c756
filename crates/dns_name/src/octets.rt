//! Octets that contracts see as a list.

ghost use Rattle.std.specs.Prelude.{◌≡◌, IfOk};

use crate::error::OutOfMemory;
use std::alloc::Global;
use std::marker::Model;

/// Octets in memory of their own, which contracts see as a list of numbers.
#[derive(Debug, Drop)]
pub struct Octets {
    octets: Vec<u8>,
}

impl Model for Octets {
    ghost use Rattle.std.specs.Prelude.{List, ℕ};

    ghost Value = { List ℕ };

    ghost view = { λ o. o.octets.items };
}

impl Octets {
    /// The octets of a vector, which is not copied.
    pub fn from_vec(octets: Vec<u8>) -> Octets
        ensures { result ≡ octets.items }
    {
        Octets { octets }
    }

    /// A copy of a slice.
    pub fn from_slice(alloc: Global, octets: &[u8]) -> Result<Octets, OutOfMemory>
        ensures { IfOk result (λ o. o ≡ octets.now) }
    {
        Ok(Octets::from_vec(Vec::from_slice(alloc, octets)?))
    }

    /// The octets as a slice.
    pub fn as_slice(&self) -> &[u8]
        ensures { result.now ≡ self.now }
    {
        self.octets.as_slice()
    }

    /// Gives the vector back, which is not copied.
    pub fn into_vec(self) -> Vec<u8>
        ensures { result.items ≡ self }
    {
        let Octets { octets } = self;
        octets
    }
}
