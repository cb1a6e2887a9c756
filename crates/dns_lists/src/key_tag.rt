//! Key tags, owned or borrowed.

ghost use Rattle.std.specs.Prelude.{◌≡◌, ◌≤◌, ◌<◌, ◌%◌, ◌++◌, ℕ, List, length, Some, Ok, Err, IfOk, OnOk, MatchResult};
ghost use Rattle.std.specs.Fmt.{WritesOnOk};
ghost use Rattle.std.specs.Iterator.{YieldsFirst, item_count};
ghost use Rattle.dns_name.specs.OptData.{ParsesData, for_code};
ghost use Rattle.dns_name.specs.Place.{rest};
ghost use Rattle.dns_lists.specs.RoundTrip.{tags_again};
ghost use Rattle.dns_lists.specs.Tags.{AreTags, tag_data, tag_octets, tags};
ghost use Rattle.dns_lists.specs.Texts.{more_numbers_text, numbers_text};

use dns_name::{
    ComposeOptData, FormReason, HoldsOctets, OctetStore, OptData, OptionCode, OutOfMemory,
    ParseError, ParseOptData, Parser, ReadBack,
};
use std::alloc::Global;
use std::fmt;
use std::marker::Model;

/// Whether octets are tags.
fn check(octets: &[u8]) -> Result<(), ParseError>
    ensures { MatchResult result (λ _. AreTags octets.now × (tag_octets octets.now ≡ Ok octets.now)) (λ e. tag_octets octets.now ≡ Err e) }
{
    if octets.len() > 65535 {
        return Err(ParseError::Form(FormReason::LongList));
    }
    if octets.len() % 2 != 0 {
        return Err(ParseError::Form(FormReason::OddLength));
    }
    Ok(())
}

/// Key tags of two octets each, owned.
pub type KeyTag = HeldKeyTag<Vec<u8>>;

/// Key tags of two octets each, borrowed.
pub type KeyTagRef<'a> = HeldKeyTag<&'a [u8]>;

/// Key tags of two octets each in S.
#[derive(Drop)]
#[derive_where(Debug, PartialEq, Eq, PartialOrd, Ord, Hash)]
#[derive_where(Clone; S: Copy)]
pub struct HeldKeyTag<S: HoldsOctets> {
    octets: OctetStore<S>,
}

impl<S: HoldsOctets> Model for HeldKeyTag<S> {
    ghost use Rattle.std.specs.Prelude.{List, ℕ};
    ghost use Rattle.dns_lists.specs.Tags.{AreTags};

    ghost Value = { List ℕ };

    ghost view = { λ k. k.octets };

    ghost inverse = { λ l. record { octets = l } };

    ghost invariant = { λ k. AreTags k.octets };
}

impl<S: HoldsOctets> HeldKeyTag<S> {
    fn of(octets: S) -> HeldKeyTag<S>
        requires { AreTags (S.octets octets) }
        ensures { result ≡ S.octets octets }
    {
        HeldKeyTag {
            octets: OctetStore::of(octets),
        }
    }

    /// Gives the octets back, which are not copied.
    pub fn into_octets(self) -> S
        ensures { S.octets result ≡ self }
    {
        let HeldKeyTag { octets } = self;
        octets.into_inner()
    }
}

impl<'a> HeldKeyTag<&'a [u8]> {
    /// The tags of a slice.
    pub fn from_slice(octets: &'a [u8]) -> Result<KeyTagRef<'a>, ParseError>
        ensures { result ≡ tag_octets octets.now }
    {
        check(octets)?;
        Ok(HeldKeyTag::of(octets))
    }

    /// The tags that are left in a parser: all its octets.
    pub fn parse(parser: &mut Parser<'a>) -> Result<KeyTagRef<'a>, ParseError>
        ensures { ParsesData (tag_data (rest parser.old)) parser.old parser.new result }
    {
        let found = KeyTagRef::from_slice(parser.peek_all())?;
        parser.advance_to_end();
        Ok(found)
    }

    /// The octets that are borrowed, two for each tag.
    pub fn as_octets(&self) -> &'a [u8]
        ensures value { result.now ≡ self.now }
        ensures tags { AreTags self.now }
    {
        self.octets.lent()
    }

    /// The octets as a slice, two for each tag.
    pub fn as_slice(&self) -> &'a [u8]
        ensures value { result.now ≡ self.now }
        ensures tags { AreTags self.now }
    {
        self.octets.lent()
    }

    /// The tags as numbers, in the order of the octets.
    pub fn iter(&self) -> KeyTagIter<'a>
        ensures { result ≡ tags self.now }
    {
        KeyTagIter::of(self.octets.lent())
    }

    /// Copies the tags into an owned option.
    pub fn to_owned(&self, alloc: Global) -> Result<KeyTag, OutOfMemory>
        ensures { IfOk result (λ k. k ≡ self.now) }
    {
        let octets = Vec::from_slice(alloc, self.octets.lent())?;
        Ok(HeldKeyTag::of(octets))
    }
}

impl HeldKeyTag<Vec<u8>> {
    ghost use Rattle.std.specs.Borrow.{sem};
    ghost use Rattle.dns_lists.specs.Lending.{LendsTags};

    /// The tags of a vector, which is not copied.
    pub fn from_octets(octets: Vec<u8>) -> Result<KeyTag, ParseError>
        ensures { result ≡ tag_octets octets.items }
    {
        check(octets.as_slice())?;
        Ok(HeldKeyTag::of(octets))
    }

    /// The vector of the octets, two for each tag.
    pub fn as_octets(&self) -> &Vec<u8>
        ensures { result.now.items ≡ self.now }
    {
        self.octets.as_vec()
    }

    /// The octets as a slice, two for each tag.
    pub fn as_slice(&self) -> &[u8]
        ensures value { result.now ≡ self.now }
        ensures tags { AreTags self.now }
    {
        self.octets.as_slice()
    }

    /// Borrows the tags; nothing is copied.
    pub fn for_slice(&self) -> KeyTagRef<'_>
        ensures { result ≡ self.now }
    {
        HeldKeyTag::of(self.octets.as_slice())
    }

    /// The octets, to be overwritten; how many there are stays.
    pub fn as_slice_mut(&mut self) -> &mut [u8]
        ensures* writes_back { sem 𝓛 (LendsTags self.entry result) }
        ensures value { result.now ≡ self.old }
    {
        self.octets.as_mut_slice()
    }

    /// The tags as numbers, in the order of the octets.
    pub fn iter(&self) -> KeyTagIter<'_>
        ensures { result ≡ tags self.now }
    {
        KeyTagIter::of(self.octets.as_slice())
    }
}

impl<'a> IntoIterator for HeldKeyTag<&'a [u8]> {
    type Item = u16;

    type IntoIter = KeyTagIter<'a>;

    ghost into_iter_gives = { λ s r. r ≡ tags s };

    fn into_iter(self) -> KeyTagIter<'a> {
        self.iter()
    }
}

impl<'a> IntoIterator for &'a HeldKeyTag<Vec<u8>> {
    type Item = u16;

    type IntoIter = KeyTagIter<'a>;

    ghost into_iter_gives = { λ s r. r ≡ tags s.now };

    fn into_iter(self) -> KeyTagIter<'a> {
        self.iter()
    }
}

impl<S: HoldsOctets> OptData for HeldKeyTag<S> {
    ghost code_of = { λ _. 14 };

    fn code(&self) -> OptionCode {
        OptionCode::KEY_TAG
    }
}

impl<'a> ParseOptData<'a> for HeldKeyTag<&'a [u8]> {
    ghost takes = { for_code 14 tag_data };

    fn parse_option(
        code: OptionCode,
        parser: &mut Parser<'a>,
    ) -> Result<Option<KeyTagRef<'a>>, ParseError> {
        if code != OptionCode::KEY_TAG {
            return Ok(None);
        }
        let found = KeyTagRef::parse(parser)?;
        Ok(Some(found))
    }
}

impl<S: HoldsOctets> ComposeOptData for HeldKeyTag<S> {
    ghost octets = { λ k. k };

    /// The number of octets, two for each tag.
    fn compose_len(&self) -> u16
        ensures value { result ≡ length self.now }
        ensures readable { AreTags self.now }
    {
        self.octets.as_slice().len() as u16
    }

    fn compose_option(&self, alloc: Global, target: &mut Vec<u8>) -> Result<(), OutOfMemory> {
        target.extend_from_slice(self.octets.as_slice())?;
        Ok(())
    }
}

impl<'a> ReadBack<'a> for HeldKeyTag<&'a [u8]> {
    ghost is_readable = { AreTags };

    ghost comes_back = { tags_again };
}

/// Writes tags in hexadecimal, each after a comma and a space.
fn write_more<W: fmt::Write>(tags: KeyTagIter<'_>, f: &mut fmt::Formatter<W>) -> fmt::Result
    ensures { WritesOnOk W.write_str_gives f.old result (more_numbers_text tags.entry) f.new }
{
    let mut left = tags;
    'each: while let Some(tag) = left.next() {
        write!(f, ", {tag:X}")?;
    }
    Ok(())
}

/// Writes tags in hexadecimal, joined by a comma and a space.
fn write_tags<W: fmt::Write>(tags: KeyTagIter<'_>, f: &mut fmt::Formatter<W>) -> fmt::Result
    ensures { WritesOnOk W.write_str_gives f.old result (numbers_text tags.entry) f.new }
{
    let mut left = tags;
    let Some(tag) = left.next() else {
        return Ok(());
    };
    write!(f, "{tag:X}")?;
    write_more(left, f)
}

impl<S: HoldsOctets> fmt::Display for HeldKeyTag<S> {
    ghost output = { λ k. Some (numbers_text (tags k)) };

    fn fmt<W: fmt::Write>(&self, f: &mut fmt::Formatter<W>) -> fmt::Result {
        write_tags(KeyTagIter::of(self.octets.as_slice()), f)
    }
}

/// The tags that are left, in order.
#[derive(Clone, Debug, Drop)]
pub struct KeyTagIter<'a> {
    left: &'a [u8],
}

impl<'a> Model for KeyTagIter<'a> {
    ghost use Rattle.std.specs.Prelude.{List, ℕ, length, ◌%◌, ◌≡◌};
    ghost use Rattle.dns_lists.specs.Tags.{tags};

    ghost Value = { List ℕ };

    ghost view = { λ i. tags i.left.now };

    ghost invariant = { λ i. length i.left.now % 2 ≡ 0 };
}

impl<'a> KeyTagIter<'a> {
    pub(crate) fn of(octets: &'a [u8]) -> KeyTagIter<'a>
        requires { length octets.now % 2 ≡ 0 }
        ensures { result ≡ tags octets.now }
    {
        KeyTagIter { left: octets }
    }
}

impl<'a> Iterator for KeyTagIter<'a> {
    type Item = u16;

    ghost next_gives = { YieldsFirst (λ s. s) };

    ghost remaining = { item_count (λ s. s) };

    fn next(&mut self) -> Option<u16> {
        let [high, low, others @ ..] = self.left else {
            return None;
        };
        self.left = others;
        Some(256 * *high as u16 + *low as u16)
    }
}
