//! CHAIN: the closest name that a client trusts already (RFC 7901).

ghost use Rattle.std.specs.Prelude.{◌≡◌, length, Some, IfOk, refl, ⊤};
ghost use Rattle.std.specs.Cmp.{partial_equiv_from_equiv};
ghost use Rattle.std.specs.Ordering.{as_partial_cmp};
ghost use Rattle.dns_name.specs.Canonical.{name_cmp, name_cmp_total, name_writes, same_name, same_name_equiv, same_name_order, same_name_ties, same_name_writes};
ghost use Rattle.dns_name.specs.Labels.{IsName, spell};
ghost use Rattle.dns_name.specs.NameText.{name_text};
ghost use Rattle.dns_name.specs.OptData.{ParsesData, for_code};
ghost use Rattle.dns_name.specs.Place.{rest};
ghost use Rattle.dns_kinds.specs.RoundTrip.{chain_again};
ghost use Rattle.dns_kinds.specs.Chains.{chain_data};

use dns_name::{
    ComposeOptData, HoldsName, Name, NameRef, OptData, OptionCode, OutOfMemory, ParseError,
    ParseOptData, Parser, ReadBack,
};
use std::alloc::{AllocError, Global};
use std::cmp::Ordering;
use std::fmt;
use std::hash::{Hash, Hasher};
use std::marker::Model;

/// The name, owned, that contracts see as its labels.
pub type Chain = HeldChain<Name>;

/// The name, borrowed, that contracts see as its labels.
pub type ChainRef<'a> = HeldChain<NameRef<'a>>;

/// The name in N, that contracts see as its labels.
#[derive(Debug, Drop)]
pub struct HeldChain<N: HoldsName> {
    start: N,
}

impl<N: HoldsName> Model for HeldChain<N> {
    ghost use Rattle.std.specs.Prelude.{List, ℕ};

    ghost Value = { List (List ℕ) };

    ghost view = { λ k. N.labels k.start };
}

impl<'a> Clone for HeldChain<NameRef<'a>> {
    ghost is_clone = { λ chain copy. copy ≡ chain };

    ghost is_infallible = { λ _. ⊤ };

    fn clone(&self) -> Result<ChainRef<'a>, AllocError> {
        let start = self.start.clone()?;
        Ok(HeldChain { start })
    }
}

impl<N: HoldsName> HeldChain<N> {
    /// The option of a name that the client trusts already (RFC 7901).
    pub fn new(start: N) -> HeldChain<N>
        ensures { result ≡ N.labels start }
    {
        HeldChain { start }
    }

    /// The closest name that the client trusts already (RFC 7901).
    pub fn start(&self) -> &N
        ensures { N.labels result.now ≡ self.now }
    {
        &self.start
    }

    /// Gives the name back, which isn't copied.
    pub fn into_start(self) -> N
        ensures { N.labels result ≡ self }
    {
        let HeldChain { start } = self;
        start
    }
}

impl<'a> HeldChain<NameRef<'a>> {
    /// Reads one uncompressed name; octets after it are left in the parser.
    pub fn parse(parser: &mut Parser<'a>) -> Result<ChainRef<'a>, ParseError>
        ensures { ParsesData (chain_data (rest parser.old)) parser.old parser.new result }
    {
        let (start, taken) = NameRef::at(parser.peek_all(), 0)?;
        parser.advance(taken)?;
        Ok(HeldChain { start })
    }

    /// Copies the name into an owned option.
    pub fn to_owned(&self, alloc: Global) -> Result<Chain, OutOfMemory>
        ensures { IfOk result (λ k. k ≡ self.now) }
    {
        let start = self.start.to_owned(alloc)?;
        Ok(HeldChain { start })
    }
}

impl HeldChain<Name> {
    /// Borrows the option; the name isn't copied.
    pub fn for_slice(&self) -> ChainRef<'_>
        ensures { result ≡ self.now }
    {
        HeldChain {
            start: self.start.for_ref(),
        }
    }
}

impl<N: HoldsName> OptData for HeldChain<N> {
    ghost code_of = { λ _. 13 };

    fn code(&self) -> OptionCode {
        OptionCode::CHAIN
    }
}

impl<'a> ParseOptData<'a> for HeldChain<NameRef<'a>> {
    ghost takes = { for_code 13 chain_data };

    fn parse_option(
        code: OptionCode,
        parser: &mut Parser<'a>,
    ) -> Result<Option<ChainRef<'a>>, ParseError> {
        if code != OptionCode::CHAIN {
            return Ok(None);
        }
        let found = ChainRef::parse(parser)?;
        Ok(Some(found))
    }
}

impl<N: HoldsName> ComposeOptData for HeldChain<N> {
    ghost octets = { spell };

    /// The number of octets, at most 255.
    fn compose_len(&self) -> u16
        ensures value { result ≡ length (spell self.now) }
        ensures readable { IsName self.now }
    {
        self.start.as_name().as_slice().len() as u16
    }

    fn compose_option(&self, alloc: Global, target: &mut Vec<u8>) -> Result<(), OutOfMemory> {
        self.start.as_name().compose(alloc, target)
    }
}

impl<'a> ReadBack<'a> for HeldChain<NameRef<'a>> {
    ghost is_readable = { IsName };

    ghost comes_back = { chain_again };
}

impl<N: HoldsName> PartialEq for HeldChain<N> {
    ghost eq = { same_name };

    ghost laws = { partial_equiv_from_equiv same_name_equiv };

    fn eq(&self, other: &HeldChain<N>) -> bool {
        self.start.as_name() == other.start.as_name()
    }
}

impl<N: HoldsName> Eq for HeldChain<N> {
    ghost laws = { same_name_equiv };
}

impl<N: HoldsName> Hash for HeldChain<N> {
    ghost hash_input = { name_writes };

    ghost respects_eq = { same_name_writes };

    fn hash<H: Hasher>(&self, state: &mut H) {
        self.start.as_name().hash(state);
    }
}

impl<N: HoldsName> Ord for HeldChain<N> {
    ghost cmp = { name_cmp };

    ghost total = { name_cmp_total };

    ghost matches_partial_cmp = { λ a b. refl };

    ghost matches_eq = { same_name_ties };

    fn cmp(&self, other: &HeldChain<N>) -> Ordering {
        self.start.as_name().name_cmp(&other.start.as_name())
    }
}

impl<N: HoldsName> PartialOrd for HeldChain<N> {
    ghost partial_cmp = { as_partial_cmp name_cmp };

    ghost laws = { same_name_order };

    fn partial_cmp(&self, other: &HeldChain<N>) -> Option<Ordering> {
        Some(self.cmp(other))
    }
}

impl<N: HoldsName> fmt::Display for HeldChain<N> {
    ghost output = { λ k. Some (name_text k) };

    fn fmt<W: fmt::Write>(&self, f: &mut fmt::Formatter<W>) -> fmt::Result {
        let start = self.start.as_name();
        write!(f, "{start}")
    }
}
