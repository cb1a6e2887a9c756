//! Lists of algorithms, owned or borrowed.

ghost use Rattle.std.specs.Prelude.{◌≡◌, ◌≤◌, ◌<◌, ◌++◌, ℕ, List, length, Some, Ok, IfOk, OnOk, MatchResult};
ghost use Rattle.std.specs.Fmt.{WritesOnOk};
ghost use Rattle.std.specs.Iterator.{IsFinite};
ghost use Rattle.dns_name.specs.OptData.{ParsesData, for_code, list_data};
ghost use Rattle.dns_name.specs.Place.{rest};
ghost use Rattle.dns_name.proofs.OptionRoundTrip.{list_again};
ghost use Rattle.dns_algs.specs.Algorithms.{CollectedFrom, more_algorithms_text, algorithms_text};

use crate::collect::collected;
use crate::iter::SecurityAlgorithmIter;
use dns_name::{
    BuildDataError, ComposeOptData, HoldsOctets, LongOptData, OctetStore, OptData, OptionCode,
    OutOfMemory, ParseError, ParseOptData, Parser, ReadBack, SecurityAlgorithm,
};
use std::alloc::Global;
use std::fmt;
use std::marker::{Model, PhantomData};

/// Which list of algorithms it is.
pub trait Variant: Copy + fmt::Debug + Drop {
    /// The number of the option.
    ghost number: { ℕ };

    /// The code of the option.
    fn code() -> OptionCode
        ensures { result ≡ number };
}

/// The option DAU: DNSSEC algorithms that are understood (RFC 6975).
#[derive(Clone, Copy, Debug, PartialEq, Eq)]
pub struct DauVariant;

/// The option DHU: DS hash algorithms that are understood (RFC 6975).
#[derive(Clone, Copy, Debug, PartialEq, Eq)]
pub struct DhuVariant;

/// The option N3U: NSEC3 hash algorithms that are understood (RFC 6975).
#[derive(Clone, Copy, Debug, PartialEq, Eq)]
pub struct N3uVariant;

impl Variant for DauVariant {
    ghost number = { 5 };

    fn code() -> OptionCode {
        OptionCode::DAU
    }
}

impl Variant for DhuVariant {
    ghost number = { 6 };

    fn code() -> OptionCode {
        OptionCode::DHU
    }
}

impl Variant for N3uVariant {
    ghost number = { 7 };

    fn code() -> OptionCode {
        OptionCode::N3U
    }
}

/// Algorithms, one octet each, owned.
pub type Understood<K> = AlgList<Vec<u8>, K>;

/// Algorithms, one octet each, borrowed.
pub type UnderstoodRef<'a, K> = AlgList<&'a [u8], K>;

/// The option DAU, in memory of its own (RFC 6975).
pub type Dau = Understood<DauVariant>;

/// The option DHU, in memory of its own (RFC 6975).
pub type Dhu = Understood<DhuVariant>;

/// The option N3U, in memory of its own (RFC 6975).
pub type N3u = Understood<N3uVariant>;

/// The option DAU, borrowed (RFC 6975).
pub type DauRef<'a> = UnderstoodRef<'a, DauVariant>;

/// The option DHU, borrowed (RFC 6975).
pub type DhuRef<'a> = UnderstoodRef<'a, DhuVariant>;

/// The option N3U, borrowed (RFC 6975).
pub type N3uRef<'a> = UnderstoodRef<'a, N3uVariant>;

/// Algorithms, one octet each, in S.
#[derive(Drop)]
#[derive_where(Debug, PartialEq, Eq, Hash)]
#[derive_where(Clone; S: Copy)]
pub struct AlgList<S: HoldsOctets, K> {
    octets: OctetStore<S>,
    #[derive_where(skip)]
    of: PhantomData<K>,
}

impl<S: HoldsOctets, K> Model for AlgList<S, K> {
    ghost use Rattle.std.specs.Prelude.{List, ℕ, length, ◌≤◌};

    ghost Value = { List ℕ };

    ghost view = { λ k. k.octets };

    ghost inverse = { λ l. record { octets = l; of = record {} } };

    ghost invariant = { λ k. length k.octets ≤ 65535 };
}

impl<S: HoldsOctets, K: Variant> AlgList<S, K> {
    fn of(octets: S) -> AlgList<S, K>
        requires { length (S.octets octets) ≤ 65535 }
        ensures { result ≡ S.octets octets }
    {
        AlgList {
            octets: OctetStore::of(octets),
            of: PhantomData,
        }
    }

    fn checked(octets: S) -> Result<AlgList<S, K>, LongOptData>
        ensures { MatchResult result (λ k. (length (S.octets octets) ≤ 65535) × (k ≡ S.octets octets))
            (λ _. 65535 < length (S.octets octets)) }
    {
        LongOptData::check_len(octets.as_octets().len())?;
        Ok(AlgList::of(octets))
    }

    /// Gives the octets back, which are not copied.
    pub fn into_octets(self) -> S
        ensures { S.octets result ≡ self }
    {
        let AlgList { octets, .. } = self;
        octets.into_inner()
    }
}

impl<'a, K: Variant> AlgList<&'a [u8], K> {
    /// The algorithms of a slice.
    pub fn from_slice(octets: &'a [u8]) -> Result<UnderstoodRef<'a, K>, LongOptData>
        ensures { MatchResult result (λ k. (length octets.now ≤ 65535) × (k ≡ octets.now)) (λ _. 65535 < length octets.now) }
    {
        AlgList::checked(octets)
    }

    /// The algorithms that are left in a parser: all its octets.
    pub fn parse(parser: &mut Parser<'a>) -> Result<UnderstoodRef<'a, K>, ParseError>
        ensures { ParsesData (list_data (rest parser.old)) parser.old parser.new result }
    {
        let found = UnderstoodRef::from_slice(parser.peek_all())?;
        parser.advance_to_end();
        Ok(found)
    }

    /// The octets that are borrowed, one for each algorithm.
    pub fn as_octets(&self) -> &'a [u8]
        ensures value { result.now ≡ self.now }
        ensures short { length self.now ≤ 65535 }
    {
        self.octets.lent()
    }

    /// The octets as a slice, one for each algorithm, at most 65,535.
    pub fn as_slice(&self) -> &'a [u8]
        ensures value { result.now ≡ self.now }
        ensures short { length self.now ≤ 65535 }
    {
        self.octets.lent()
    }

    /// The algorithms, in the order of the octets.
    pub fn iter(&self) -> SecurityAlgorithmIter<'a>
        ensures { result ≡ self.now }
    {
        SecurityAlgorithmIter::of(self.octets.lent())
    }

    /// Copies the octets into an owned list.
    pub fn to_owned(&self, alloc: Global) -> Result<Understood<K>, OutOfMemory>
        ensures { IfOk result (λ k. k ≡ self.now) }
    {
        let octets = Vec::from_slice(alloc, self.octets.lent())?;
        Ok(AlgList::of(octets))
    }
}

impl<K: Variant> AlgList<Vec<u8>, K> {
    /// The algorithms of a vector, which is not copied.
    pub fn from_octets(octets: Vec<u8>) -> Result<Understood<K>, LongOptData>
        ensures { MatchResult result (λ k. (length octets.items ≤ 65535) × (k ≡ octets.items)) (λ _. 65535 < length octets.items) }
    {
        AlgList::checked(octets)
    }

    /// The algorithms that an iterator gives.
    pub fn from_sec_algs<A: IntoIterator<Item = SecurityAlgorithm>>(
        alloc: Global,
        algorithms: A,
    ) -> Result<Understood<K>, BuildDataError>
        requires ends { (s : A.IntoIter) → A.into_iter_gives algorithms s → A.IntoIter.can_next s × IsFinite (A.IntoIter.remaining s) }
        ensures { CollectedFrom A.into_iter_gives A.IntoIter.next_gives algorithms result }
    {
        let iterator = algorithms.into_iter();
        let octets = collected(alloc, iterator)?;
        Ok(AlgList::of(octets))
    }

    /// The vector of the octets, one for each algorithm.
    pub fn as_octets(&self) -> &Vec<u8>
        ensures { result.now.items ≡ self.now }
    {
        self.octets.as_vec()
    }

    /// The octets as a slice, one for each algorithm, at most 65,535.
    pub fn as_slice(&self) -> &[u8]
        ensures value { result.now ≡ self.now }
        ensures short { length self.now ≤ 65535 }
    {
        self.octets.as_slice()
    }

    /// Borrows the list; nothing is copied.
    pub fn for_slice(&self) -> UnderstoodRef<'_, K>
        ensures { result ≡ self.now }
    {
        AlgList::of(self.octets.as_slice())
    }

    /// The algorithms, in the order of the octets.
    pub fn iter(&self) -> SecurityAlgorithmIter<'_>
        ensures { result ≡ self.now }
    {
        SecurityAlgorithmIter::of(self.octets.as_slice())
    }
}

impl<'a, K: Variant> IntoIterator for AlgList<&'a [u8], K> {
    type Item = SecurityAlgorithm;

    type IntoIter = SecurityAlgorithmIter<'a>;

    ghost into_iter_gives = { λ s r. r ≡ s };

    fn into_iter(self) -> SecurityAlgorithmIter<'a> {
        self.iter()
    }
}

impl<'a, K: Variant> IntoIterator for &'a AlgList<Vec<u8>, K> {
    type Item = SecurityAlgorithm;

    type IntoIter = SecurityAlgorithmIter<'a>;

    ghost into_iter_gives = { λ s r. r ≡ s.now };

    fn into_iter(self) -> SecurityAlgorithmIter<'a> {
        self.iter()
    }
}

impl<S: HoldsOctets, K: Variant> OptData for AlgList<S, K> {
    ghost code_of = { λ _. K.number };

    fn code(&self) -> OptionCode {
        K::code()
    }
}

impl<'a, K: Variant> ParseOptData<'a> for AlgList<&'a [u8], K> {
    ghost takes = { for_code K.number list_data };

    fn parse_option(
        code: OptionCode,
        parser: &mut Parser<'a>,
    ) -> Result<Option<UnderstoodRef<'a, K>>, ParseError> {
        if code != K::code() {
            return Ok(None);
        }
        let found = UnderstoodRef::parse(parser)?;
        Ok(Some(found))
    }
}

impl<S: HoldsOctets, K: Variant> ComposeOptData for AlgList<S, K> {
    ghost octets = { λ k. k };

    /// The number of octets, of which every value has at most 65,535.
    fn compose_len(&self) -> u16
        ensures value { result ≡ length self.now }
        ensures readable { length self.now ≤ 65535 }
    {
        self.octets.as_slice().len() as u16
    }

    fn compose_option(&self, alloc: Global, target: &mut Vec<u8>) -> Result<(), OutOfMemory> {
        target.extend_from_slice(self.octets.as_slice())?;
        Ok(())
    }
}

impl<'a, K: Variant> ReadBack<'a> for AlgList<&'a [u8], K> {
    ghost is_readable = { λ k. length k ≤ 65535 };

    ghost comes_back = { list_again K.number };
}

/// Writes numbers in decimal, each after a comma and a space.
fn write_more<W: fmt::Write>(octets: &[u8], f: &mut fmt::Formatter<W>) -> fmt::Result
    ensures { WritesOnOk W.write_str_gives f.old result (more_algorithms_text octets.now) f.new }
{
    let mut left = octets;
    'each: while let Some((number, more)) = left.split_first() {
        write!(f, ", {number}")?;
        left = more;
    }
    Ok(())
}

impl<S: HoldsOctets, K: Variant> fmt::Display for AlgList<S, K> {
    ghost output = { λ k. Some (algorithms_text k) };

    fn fmt<W: fmt::Write>(&self, f: &mut fmt::Formatter<W>) -> fmt::Result {
        let Some((number, more)) = self.octets.as_slice().split_first() else {
            return Ok(());
        };
        write!(f, "{number}")?;
        write_more(more, f)
    }
}
