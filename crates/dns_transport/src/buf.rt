//! What buffers come from.

ghost use Rattle.std.specs.Prelude.{◌≡◌, ℕ, List, ◌≤◌, length, replicate, IfOk};

use dns_name::OutOfMemory;
use std::alloc::Global;
use std::convert::AsSlice;
use std::sync::Arc;

/// What a server takes its buffers from.
pub trait BufSource {
    /// The type of a buffer.
    type Output: AsSlice<u8>;

    /// The octets of a new buffer of the usual size.
    ghost usual: { Self → List ℕ };

    /// The octets of a new buffer with room for that many.
    ghost sized: { Self → ℕ → List ℕ };

    /// A new buffer of the usual size.
    fn create_buf(&self, alloc: Global) -> Result<Self::Output, OutOfMemory>
        ensures { IfOk result (λ buf. Self.Output.items buf ≡ usual self.now) };

    /// A new buffer with room for that many octets.
    fn create_sized(&self, alloc: Global, size: usize) -> Result<Self::Output, OutOfMemory>
        ensures { IfOk result (λ buf. Self.Output.items buf ≡ sized self.now size) };

    /// A buffer of a wanted size has room for it.
    ghost roomy: { (source : Self) (size : ℕ) → size ≤ length (sized source size) };
}

/// Gives vectors of octets 0, the usual ones with 1,024.
#[derive(Clone, Copy, Debug, Default, PartialEq, Eq)]
pub struct VecBufSource;

impl BufSource for VecBufSource {
    ghost use Rattle.std.proofs.Common.{rules};
    ghost use Rattle.std.proofs.lemmas.Grind.{common_steps};

    type Output = Vec<u8>;

    ghost usual = { λ _. replicate 1024 0 };

    ghost sized = { λ _ size. replicate size 0 };

    ghost roomy = { Prim.search (rules, common_steps) };

    fn create_buf(&self, alloc: Global) -> Result<Vec<u8>, OutOfMemory> {
        Ok(vec![in alloc; 0u8; 1024]?)
    }

    fn create_sized(&self, alloc: Global, size: usize) -> Result<Vec<u8>, OutOfMemory> {
        Ok(vec![in alloc; 0u8; size]?)
    }
}

impl<T: BufSource> BufSource for Arc<T> {
    ghost use Rattle.std.specs.Arc.{arc_value};

    type Output = T::Output;

    ghost usual = { λ source. T.usual (arc_value source) };

    ghost sized = { λ source size. T.sized (arc_value source) size };

    ghost roomy = { λ source size. T.roomy (arc_value source) size };

    fn create_buf(&self, alloc: Global) -> Result<T::Output, OutOfMemory> {
        let source: &T = self;
        source.create_buf(alloc)
    }

    fn create_sized(&self, alloc: Global, size: usize) -> Result<T::Output, OutOfMemory> {
        let source: &T = self;
        source.create_sized(alloc, size)
    }
}
