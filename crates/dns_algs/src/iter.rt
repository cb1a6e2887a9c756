//! The algorithms of a list, one after another.

ghost use Rattle.std.specs.Prelude.{◌≡◌};
ghost use Rattle.std.specs.Iterator.{YieldsFirst, item_count};

use dns_name::SecurityAlgorithm;
use std::marker::Model;

/// The algorithms that are left, in order.
#[derive(Clone, Debug, Drop)]
pub struct SecurityAlgorithmIter<'a> {
    left: &'a [u8],
}

impl<'a> Model for SecurityAlgorithmIter<'a> {
    ghost use Rattle.std.specs.Prelude.{List, ℕ};

    ghost Value = { List ℕ };

    ghost view = { λ i. i.left.now };
}

impl<'a> SecurityAlgorithmIter<'a> {
    pub(crate) fn of(octets: &'a [u8]) -> SecurityAlgorithmIter<'a>
        ensures { result ≡ octets.now }
    {
        SecurityAlgorithmIter { left: octets }
    }
}

impl<'a> Iterator for SecurityAlgorithmIter<'a> {
    type Item = SecurityAlgorithm;

    ghost next_gives = { YieldsFirst (λ s. s) };

    ghost remaining = { item_count (λ s. s) };

    fn next(&mut self) -> Option<SecurityAlgorithm> {
        let (first, others) = self.left.split_first()?;
        self.left = others;
        Some(SecurityAlgorithm::from_int(*first))
    }
}
