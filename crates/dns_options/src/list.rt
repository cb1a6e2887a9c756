//! Option lists, borrowed, and what they share with owned ones.

ghost use Rattle.std.specs.Prelude.{◌≡◌, ◌≤◌, length, IsTrue, ◌↔◌, [], Some, IfOk, codes};
ghost use Rattle.std.specs.Cmp.Lexicographic.{slice_cmp};
ghost use Rattle.std.specs.Ordering.{nat_cmp};
ghost use Rattle.dns_name.specs.OptData.{ParsesData};
ghost use Rattle.dns_name.specs.Place.{rest};
ghost use Rattle.dns_message.specs.Options.{IsOptionList, option_list};
ghost use Rattle.dns_option_list.specs.Items.{first_ok, items_of, list_taken};

use crate::opt::Opt;
use dns_message::is_option_list;
use dns_name::{
    FormReason, HoldsOctets, OctetStore, OutOfMemory, ParseError, ParseOptData, Parser,
};
use dns_option_list::OptIter;
use std::alloc::Global;
use std::cmp::Ordering;
use std::fmt;
use std::marker::Model;

/// An option list, borrowed, that contracts see as its octets.
pub type OptRef<'a> = HeldOpt<&'a [u8]>;

/// An option list in S, that contracts see as its octets.
#[derive(Drop)]
#[derive_where(Debug, PartialEq, Eq, PartialOrd, Ord, Hash)]
#[derive_where(Clone; S: Copy)]
pub struct HeldOpt<S: HoldsOctets> {
    pub(crate) octets: OctetStore<S>,
}

impl<S: HoldsOctets> Model for HeldOpt<S> {
    ghost use Rattle.std.specs.Prelude.{List, ℕ, length, ◌≤◌};
    ghost use Rattle.dns_message.specs.Options.{IsOptionList};

    ghost Value = { List ℕ };

    ghost view = { λ k. k.octets };

    ghost inverse = { λ l. record { octets = l } };

    ghost invariant = { λ k. (length k.octets ≤ 65535) × IsOptionList k.octets };
}

impl<S: HoldsOctets> HeldOpt<S> {
    pub(crate) fn of(octets: S) -> HeldOpt<S>
        requires short { length (S.octets octets) ≤ 65535 }
        requires list { IsOptionList (S.octets octets) }
        ensures { result ≡ S.octets octets }
    {
        HeldOpt {
            octets: OctetStore::of(octets),
        }
    }

    /// How many octets there are.
    pub fn len(&self) -> usize
        ensures value { result ≡ length self.now }
        ensures short { result ≤ 65535 }
    {
        self.octets.as_slice().len()
    }

    /// Whether there are no options.
    pub fn is_empty(&self) -> bool
        ensures { IsTrue result ↔ (self.now ≡ []) }
    {
        self.octets.as_slice().is_empty()
    }
}

impl<'a> HeldOpt<&'a [u8]> {
    /// The option list that octets are.
    pub fn from_slice(octets: &'a [u8]) -> Result<OptRef<'a>, ParseError>
        ensures { result ≡ option_list octets.now }
    {
        if octets.len() > 65535 {
            return Err(ParseError::Form(FormReason::LongList));
        }
        if !is_option_list(octets) {
            return Err(ParseError::ShortInput);
        }
        Ok(HeldOpt::of(octets))
    }

    /// The option list that is left in a parser.
    pub fn parse(parser: &mut Parser<'a>) -> Result<OptRef<'a>, ParseError>
        ensures { ParsesData (list_taken (rest parser.old)) parser.old parser.new result }
    {
        let found = OptRef::from_slice(parser.peek_all())?;
        parser.advance_to_end();
        Ok(found)
    }

    /// The octets of all options, at most 65,535.
    pub fn as_slice(&self) -> &'a [u8]
        ensures value { result.now ≡ self.now }
        ensures short { length self.now ≤ 65535 }
        ensures list { IsOptionList self.now }
    {
        self.octets.lent()
    }

    /// The options that the type D reads, in order.
    pub fn iter<D: ParseOptData<'a> + Drop>(&self) -> OptIter<'a, D>
        ensures { result ≡ self.now }
    {
        OptIter::of(self.octets.lent())
    }

    /// The first option that the type D reads; none if it is refused.
    pub fn first<D: ParseOptData<'a> + Drop>(&self) -> Option<D>
        ensures { result ≡ first_ok (items_of D.takes self.now) }
    {
        match self.iter::<D>().next() {
            Some(Ok(value)) => Some(value),
            Some(Err(_)) => None,
            None => None,
        }
    }

    /// The order of the octets.
    pub fn canonical_cmp(&self, other: &OptRef<'_>) -> Ordering
        ensures { result ≡ slice_cmp nat_cmp self.now other.now }
    {
        self.octets.as_slice().cmp(other.octets.as_slice())
    }

    /// Copies all options into an owned list.
    pub fn to_owned(&self, alloc: Global) -> Result<Opt, OutOfMemory>
        ensures { IfOk result (λ k. k ≡ self.now) }
    {
        let octets = Vec::from_slice(alloc, self.octets.lent())?;
        Ok(HeldOpt::of(octets))
    }
}

impl<S: HoldsOctets> fmt::Display for HeldOpt<S> {
    ghost output = { λ _. Some (codes "OPT ...") };

    fn fmt<W: fmt::Write>(&self, f: &mut fmt::Formatter<W>) -> fmt::Result {
        f.write_str("OPT ...")
    }
}
