//! Options of any code, owned or borrowed.

ghost use Rattle.std.specs.Prelude.{◌≡◌, ◌≤◌, ◌<◌, ◌++◌, ℕ, List, length, Some, Ok, IfOk, OnOk, MatchResult};
ghost use Rattle.dns_lists.specs.RoundTrip.{unknown_again};
ghost use Rattle.dns_lists.specs.Texts.{plain_text};
ghost use Rattle.dns_lists.specs.Unknowns.{unknown, unknown_taken};

use crate::texts::write_plain;
use dns_name::{
    ComposeOptData, HoldsOctets, LongOptData, OctetStore, OptData, OptionCode, OutOfMemory,
    ParseError, ParseOptData, Parser, ReadBack,
};
use std::alloc::Global;
use std::fmt;
use std::marker::Model;

/// Data under any code, owned.
pub type UnknownOptData = HeldUnknown<Vec<u8>>;

/// Data under any code, borrowed.
pub type UnknownOptDataRef<'a> = HeldUnknown<&'a [u8]>;

/// Data under any code in S.
#[derive(Drop)]
#[derive_where(Debug, PartialEq, Eq, Hash)]
#[derive_where(Clone; S: Copy)]
pub struct HeldUnknown<S: HoldsOctets> {
    code: OptionCode,
    octets: OctetStore<S>,
}

impl<S: HoldsOctets> Model for HeldUnknown<S> {
    ghost use Rattle.std.specs.Prelude.{length, ◌≤◌};
    ghost use Rattle.dns_lists.specs.Unknowns.{Unknown, unknown};

    ghost Value = { Unknown };

    ghost view = { λ k. unknown k.code k.octets };

    ghost inverse = { λ u. record { code = u.code; octets = u.octets } };

    ghost invariant = { λ k. length k.octets ≤ 65535 };
}

impl<S: HoldsOctets> HeldUnknown<S> {
    fn of(code: OptionCode, octets: S) -> HeldUnknown<S>
        requires { length (S.octets octets) ≤ 65535 }
        ensures { result ≡ unknown code (S.octets octets) }
    {
        HeldUnknown {
            code,
            octets: OctetStore::of(octets),
        }
    }

    /// The data of a code.
    pub fn new(code: OptionCode, octets: S) -> Result<HeldUnknown<S>, LongOptData>
        ensures { MatchResult result (λ k. (length (S.octets octets) ≤ 65535) × (k ≡ unknown code (S.octets octets)))
            (λ _. 65535 < length (S.octets octets)) }
    {
        LongOptData::check_len(octets.as_octets().len())?;
        Ok(HeldUnknown::of(code, octets))
    }

    /// The code that the option stands under.
    pub fn code(&self) -> OptionCode
        ensures { result ≡ self.now.code }
    {
        self.code
    }
}

impl<'a> HeldUnknown<&'a [u8]> {
    /// The octets of the data that are borrowed.
    pub fn data(&self) -> &'a [u8]
        ensures { result.now ≡ self.now.octets }
    {
        self.octets.lent()
    }

    /// The octets of the data as a slice, at most 65,535.
    pub fn as_slice(&self) -> &'a [u8]
        ensures value { result.now ≡ self.now.octets }
        ensures short { length self.now.octets ≤ 65535 }
    {
        self.octets.lent()
    }

    /// Copies the octets into an owned option of this code.
    pub fn to_owned(&self, alloc: Global) -> Result<UnknownOptData, OutOfMemory>
        ensures { IfOk result (λ k. k ≡ self.now) }
    {
        let octets = Vec::from_slice(alloc, self.octets.lent())?;
        Ok(HeldUnknown::of(self.code, octets))
    }
}

impl HeldUnknown<Vec<u8>> {
    ghost use Rattle.std.specs.Borrow.{sem};
    ghost use Rattle.dns_lists.specs.Lending.{LendsData};

    /// The vector of the data's octets.
    pub fn data(&self) -> &Vec<u8>
        ensures { result.now.items ≡ self.now.octets }
    {
        self.octets.as_vec()
    }

    /// The octets of the data as a slice, at most 65,535.
    pub fn as_slice(&self) -> &[u8]
        ensures value { result.now ≡ self.now.octets }
        ensures short { length self.now.octets ≤ 65535 }
    {
        self.octets.as_slice()
    }

    /// The octets of the data, to be overwritten; code and length stay.
    pub fn as_slice_mut(&mut self) -> &mut [u8]
        ensures* writes_back { sem 𝓛 (LendsData self.entry result) }
        ensures value { result.now ≡ self.old.octets }
    {
        self.octets.as_mut_slice()
    }

    /// Borrows the option; its octets aren't copied.
    pub fn for_slice(&self) -> UnknownOptDataRef<'_>
        ensures { result ≡ self.now }
    {
        HeldUnknown::of(self.code, self.octets.as_slice())
    }
}

impl<S: HoldsOctets> OptData for HeldUnknown<S> {
    ghost code_of = { λ k. k.code };

    fn code(&self) -> OptionCode {
        self.code
    }
}

impl<'a> ParseOptData<'a> for HeldUnknown<&'a [u8]> {
    ghost takes = { unknown_taken };

    fn parse_option(
        code: OptionCode,
        parser: &mut Parser<'a>,
    ) -> Result<Option<UnknownOptDataRef<'a>>, ParseError> {
        let found = UnknownOptDataRef::new(code, parser.peek_all())?;
        parser.advance_to_end();
        Ok(Some(found))
    }
}

impl<'a> ReadBack<'a> for HeldUnknown<&'a [u8]> {
    ghost is_readable = { λ k. length k.octets ≤ 65535 };

    ghost comes_back = { unknown_again };
}

impl<S: HoldsOctets> ComposeOptData for HeldUnknown<S> {
    ghost octets = { λ k. k.octets };

    /// The number of octets, of which every value has at most 65,535.
    fn compose_len(&self) -> u16
        ensures value { result ≡ length self.now.octets }
        ensures readable { length self.now.octets ≤ 65535 }
    {
        self.octets.as_slice().len() as u16
    }

    fn compose_option(&self, alloc: Global, target: &mut Vec<u8>) -> Result<(), OutOfMemory> {
        target.extend_from_slice(self.octets.as_slice())?;
        Ok(())
    }
}

impl<S: HoldsOctets> fmt::Display for HeldUnknown<S> {
    ghost output = { λ k. Some (plain_text k.octets) };

    fn fmt<W: fmt::Write>(&self, f: &mut fmt::Formatter<W>) -> fmt::Result {
        write_plain(self.octets.as_slice(), f)
    }
}
