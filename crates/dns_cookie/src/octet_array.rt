//! Octets in a struct of their own.

ghost use Rattle.std.specs.Prelude.{◌≡◌, length};
ghost use Rattle.std.specs.Borrow.{sem};

/// A number of octets, so that a contract can say what a loan of them leaves.
#[derive(Clone, Copy, Debug, PartialEq, Eq, PartialOrd, Ord, Hash)]
pub(crate) struct OctetArray<const N: usize> {
    pub(crate) octets: [u8; N],
}

impl<const N: usize> OctetArray<N> {
    ghost use Rattle.dns_cookie.specs.Lending.{LendsCells};

    /// The octets as a slice that can be written.
    pub(crate) fn as_slice_mut(&mut self) -> &mut [u8]
        ensures* writes_back { sem 𝓛 (LendsCells N.row self.entry result) }
        ensures value { result.now ≡ self.old.octets }
        ensures len { length result.now ≡ N }
    {
        self.octets.as_mut_slice()
    }
}
