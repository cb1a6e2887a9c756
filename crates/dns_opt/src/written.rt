//! Option data that is written where it is appended, and stands in no memory before.

ghost use Rattle.std.specs.Prelude.{◌≡◌, ◌≤◌, ◌<◌, length, replicate, MatchResult};

use dns_algs::Variant;
use dns_name::{ComposeOptData, LongOptData, OptData, OptionCode, OutOfMemory, SecurityAlgorithm};
use std::alloc::Global;
use std::marker::PhantomData;

/// Padding of that many zeros (RFC 7830).
#[derive(Drop)]
pub(crate) struct Zeros {
    pub(crate) len: u16,
}

impl OptData for Zeros {
    ghost code_of = { λ _. 12 };

    fn code(&self) -> OptionCode {
        OptionCode::PADDING
    }
}

impl ComposeOptData for Zeros {
    ghost octets = { λ z. replicate z.len 0 };

    fn compose_len(&self) -> u16 {
        self.len
    }

    fn compose_option(&self, _alloc: Global, target: &mut Vec<u8>) -> Result<(), OutOfMemory> {
        target.resize(target.len() + self.len as usize, 0)?;
        Ok(())
    }
}

/// Algorithms that are understood, an octet each (RFC 6975).
#[derive(Drop)]
pub(crate) struct Numbers<'a, K> {
    algorithms: &'a [SecurityAlgorithm],
    of: PhantomData<K>,
    ghost short: { length algorithms.now ≤ 65535 },
}

impl<'a, K: Variant> Numbers<'a, K> {
    /// The numbers of algorithms, of which there are at most 65,535.
    pub(crate) fn of(algorithms: &'a [SecurityAlgorithm]) -> Result<Numbers<'a, K>, LongOptData>
        ensures { MatchResult result (λ n. n.algorithms.now ≡ algorithms.now) (λ _. 65535 < length algorithms.now) }
    {
        LongOptData::check_len(algorithms.len())?;
        Ok(Numbers {
            algorithms,
            of: PhantomData,
        })
    }
}

impl<K: Variant> OptData for Numbers<'_, K> {
    ghost code_of = { λ _. K.number };

    fn code(&self) -> OptionCode {
        K::code()
    }
}

impl<K: Variant> ComposeOptData for Numbers<'_, K> {
    ghost octets = { λ n. n.algorithms.now };

    fn compose_len(&self) -> u16 {
        self.algorithms.len() as u16
    }

    fn compose_option(&self, _alloc: Global, target: &mut Vec<u8>) -> Result<(), OutOfMemory> {
        let start = target.len();
        'each: for i in 0..self.algorithms.len() {
            if target.push(self.algorithms[i].to_int()).is_err() {
                target.truncate(start);
                return Err(OutOfMemory);
            }
        }
        Ok(())
    }
}
