//! Any octets, owned or borrowed: NSID and PADDING.

ghost use Rattle.std.specs.Prelude.{◌≡◌, ◌≤◌, ◌<◌, ◌++◌, [], ℕ, List, length, Some, Ok, IfOk, OnOk, MatchResult};
ghost use Rattle.dns_name.specs.OptData.{ParsesData, for_code, list_data};
ghost use Rattle.dns_name.specs.Place.{rest};
ghost use Rattle.dns_name.proofs.OptionRoundTrip.{list_again};
ghost use Rattle.dns_lists.specs.Texts.{octets_text};

use crate::texts::write_octets;
use dns_name::{
    ComposeOptData, HoldsOctets, LongOptData, OctetStore, OptData, OptionCode, OutOfMemory,
    ParseError, ParseOptData, Parser, ReadBack,
};
use std::alloc::Global;
use std::fmt;
use std::marker::{Model, PhantomData};

/// Which option of plain octets it is.
pub trait OctetsKind: Copy + fmt::Debug + Drop {
    /// The number of the option.
    ghost number: { ℕ };

    /// The code of the option.
    fn code() -> OptionCode
        ensures { result ≡ number };
}

/// The identifier of a name server (RFC 5001).
#[derive(Clone, Copy, Debug, PartialEq, Eq)]
pub struct NsidKind;

/// Padding of a message (RFC 7830).
#[derive(Clone, Copy, Debug, PartialEq, Eq)]
pub struct PaddingKind;

impl OctetsKind for NsidKind {
    ghost number = { 3 };

    fn code() -> OptionCode {
        OptionCode::NSID
    }
}

impl OctetsKind for PaddingKind {
    ghost number = { 12 };

    fn code() -> OptionCode {
        Padding::CODE
    }
}

/// Any octets under the code of a kind, in memory of their own.
pub type Plain<K> = OctetsOption<Vec<u8>, K>;

/// Any octets under the code of a kind, borrowed.
pub type PlainRef<'a, K> = OctetsOption<&'a [u8], K>;

/// The identifier of a name server, in memory of its own (RFC 5001).
pub type Nsid = Plain<NsidKind>;

/// Padding of a message, in memory of its own (RFC 7830).
pub type Padding = Plain<PaddingKind>;

/// The identifier of a name server, borrowed (RFC 5001).
pub type NsidRef<'a> = PlainRef<'a, NsidKind>;

/// Padding of a message, borrowed (RFC 7830).
pub type PaddingRef<'a> = PlainRef<'a, PaddingKind>;

/// Any octets under the code of a kind, at most 65,535, in S.
#[derive(Drop)]
#[derive_where(Debug, PartialEq, Eq, PartialOrd, Ord, Hash)]
#[derive_where(Clone; S: Copy)]
pub struct OctetsOption<S: HoldsOctets, K> {
    octets: OctetStore<S>,
    #[derive_where(skip)]
    of: PhantomData<K>,
}

impl<S: HoldsOctets, K> Model for OctetsOption<S, K> {
    ghost use Rattle.std.specs.Prelude.{List, ℕ, length, ◌≤◌};

    ghost Value = { List ℕ };

    ghost view = { λ k. k.octets };

    ghost inverse = { λ l. record { octets = l; of = record {} } };

    ghost invariant = { λ k. length k.octets ≤ 65535 };
}

impl<S: HoldsOctets, K: OctetsKind> OctetsOption<S, K> {
    pub(crate) fn of(octets: S) -> OctetsOption<S, K>
        requires { length (S.octets octets) ≤ 65535 }
        ensures { result ≡ S.octets octets }
    {
        OctetsOption {
            octets: OctetStore::of(octets),
            of: PhantomData,
        }
    }

    /// Gives the octets back, which are not copied.
    pub fn into_octets(self) -> S
        ensures { S.octets result ≡ self }
    {
        let OctetsOption { octets, .. } = self;
        octets.into_inner()
    }
}

impl<'a, K: OctetsKind> OctetsOption<&'a [u8], K> {
    /// Borrows octets as the option. Refused above 65,535 octets.
    pub fn from_slice(octets: &'a [u8]) -> Result<PlainRef<'a, K>, LongOptData>
        ensures { MatchResult result (λ k. (length octets.now ≤ 65535) × (k ≡ octets.now)) (λ _. 65535 < length octets.now) }
    {
        LongOptData::check_len(octets.len())?;
        Ok(OctetsOption::of(octets))
    }

    /// All that is left in a parser.
    pub fn parse(parser: &mut Parser<'a>) -> Result<PlainRef<'a, K>, ParseError>
        ensures { ParsesData (list_data (rest parser.old)) parser.old parser.new result }
    {
        let found = PlainRef::from_slice(parser.peek_all())?;
        parser.advance_to_end();
        Ok(found)
    }

    /// The octets that are borrowed.
    pub fn as_octets(&self) -> &'a [u8]
        ensures value { result.now ≡ self.now }
        ensures short { length self.now ≤ 65535 }
    {
        self.octets.lent()
    }

    /// The octets as a slice, at most 65,535.
    pub fn as_slice(&self) -> &'a [u8]
        ensures value { result.now ≡ self.now }
        ensures short { length self.now ≤ 65535 }
    {
        self.octets.lent()
    }

    /// Copies the octets into an owned option.
    pub fn to_owned(&self, alloc: Global) -> Result<Plain<K>, OutOfMemory>
        ensures { IfOk result (λ k. k ≡ self.now) }
    {
        let octets = Vec::from_slice(alloc, self.octets.lent())?;
        Ok(OctetsOption::of(octets))
    }
}

impl<K: OctetsKind> OctetsOption<Vec<u8>, K> {
    /// The octets of a vector, which is not copied.
    pub fn from_octets(octets: Vec<u8>) -> Result<Plain<K>, LongOptData>
        ensures { MatchResult result (λ k. (length octets.items ≤ 65535) × (k ≡ octets.items)) (λ _. 65535 < length octets.items) }
    {
        LongOptData::check_len(octets.len())?;
        Ok(OctetsOption::of(octets))
    }

    /// The vector of the octets.
    pub fn as_octets(&self) -> &Vec<u8>
        ensures { result.now.items ≡ self.now }
    {
        self.octets.as_vec()
    }

    /// The octets as a slice, at most 65,535.
    pub fn as_slice(&self) -> &[u8]
        ensures value { result.now ≡ self.now }
        ensures short { length self.now ≤ 65535 }
    {
        self.octets.as_slice()
    }

    /// Borrows the option; its octets aren't copied.
    pub fn for_slice(&self) -> PlainRef<'_, K>
        ensures { result ≡ self.now }
    {
        OctetsOption::of(self.octets.as_slice())
    }
}

impl OctetsOption<Vec<u8>, NsidKind> {
    /// No octets: a client's request for the identifier.
    pub fn empty(alloc: Global) -> Nsid
        ensures { result ≡ [] }
    {
        OctetsOption::of(Vec::new(alloc))
    }
}

impl OctetsOption<Vec<u8>, PaddingKind> {
    /// The code of the option.
    pub const CODE: OptionCode = OptionCode::PADDING;
}

impl<S: HoldsOctets, K: OctetsKind> OptData for OctetsOption<S, K> {
    ghost code_of = { λ _. K.number };

    fn code(&self) -> OptionCode {
        K::code()
    }
}

impl<'a, K: OctetsKind> ParseOptData<'a> for OctetsOption<&'a [u8], K> {
    ghost takes = { for_code K.number list_data };

    fn parse_option(
        code: OptionCode,
        parser: &mut Parser<'a>,
    ) -> Result<Option<PlainRef<'a, K>>, ParseError> {
        if code != K::code() {
            return Ok(None);
        }
        let found = PlainRef::parse(parser)?;
        Ok(Some(found))
    }
}

impl<S: HoldsOctets, K: OctetsKind> ComposeOptData for OctetsOption<S, K> {
    ghost octets = { λ k. k };

    /// The number of octets, of which every value has at most 65,535.
    fn compose_len(&self) -> u16
        ensures value { result ≡ length self.now }
        ensures readable { length self.now ≤ 65535 }
    {
        self.octets.as_slice().len() as u16
    }

    fn compose_option(&self, alloc: Global, target: &mut Vec<u8>) -> Result<(), OutOfMemory> {
        target.extend_from_slice(self.octets.as_slice())?;
        Ok(())
    }
}

impl<'a, K: OctetsKind> ReadBack<'a> for OctetsOption<&'a [u8], K> {
    ghost is_readable = { λ k. length k ≤ 65535 };

    ghost comes_back = { list_again K.number };
}

impl<S: HoldsOctets, K: OctetsKind> fmt::Display for OctetsOption<S, K> {
    ghost output = { λ k. Some (octets_text k) };

    fn fmt<W: fmt::Write>(&self, f: &mut fmt::Formatter<W>) -> fmt::Result {
        write_octets(self.octets.as_slice(), f)
    }
}
