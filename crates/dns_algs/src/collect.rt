//! The algorithms that an iterator gives.

ghost use Rattle.std.specs.Iterator.{IsFinite};
ghost use Rattle.dns_algs.specs.Algorithms.{CollectedNumbers};

use dns_name::{BuildDataError, SecurityAlgorithm};
use std::alloc::Global;

/// The numbers of the algorithms that an iterator gives.
pub(crate) fn collected<I: Iterator<Item = SecurityAlgorithm>>(
    alloc: Global,
    iterator: I,
) -> Result<Vec<u8>, BuildDataError>
    requires can { I.can_next iterator }
    requires ends { IsFinite (I.remaining iterator) }
    ensures { CollectedNumbers I.next_gives iterator result }
{
    let mut octets = Vec::new(alloc);
    for algorithm in iterator {
        if octets.len() == 65535 {
            return Err(BuildDataError::LongOptData);
        }
        octets.push(algorithm.to_int())?;
    }
    Ok(octets)
}
