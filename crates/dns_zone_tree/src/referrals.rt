//! Referrals that are made once, with the zone.

ghost use Rattle.std.specs.Prelude.{◌≡◌, [], IfOk, IfSome, IsTrue, OnOk};
ghost use Rattle.dns_zone.specs.Owned.{ZoneState};
ghost use Rattle.dns_zone_tree.specs.Kinds.{kind_places};
ghost use Rattle.dns_zone_tree.specs.Referrals.{AreReferrals, IsReferral};

use crate::kinds::{Kinds, TypedPlace};
use crate::wire::wire_places;
use crate::zone_tree::ZoneTree;
use dns_base::{Rtype, WireRecords};
use dns_name::OutOfMemory;
use std::alloc::Global;

/// What a referral to a cut has: the NS records of the cut, and the addresses of the hosts that they name.
#[derive(Drop)]
pub struct Referral {
    pub(crate) cut: Kinds,
    /// The NS records in wire form.
    pub authority: WireRecords,
    /// The places of the addresses.
    pub glue: Vec<usize>,
    /// The addresses in wire form.
    pub additional: WireRecords,
}

/// Referrals, and for the first place of a cut's records the number of the referral that may be to it.
#[derive(Drop)]
pub(crate) struct Referrals {
    pub(crate) list: Vec<Referral>,
    pub(crate) numbers: Vec<u32>,
}

/// Whether places with types are others.
fn are_same(kinds: &[TypedPlace], others: &[TypedPlace]) -> bool
    ensures { IsTrue result → kinds.now ≡ others.now }
{
    if kinds.len() != others.len() {
        return false;
    }
    'each: for index in 0..kinds.len() {
        if !kinds[index].is_same(&others[index]) {
            return false;
        }
    }
    true
}

/// The first of some places, or 0.
fn first_place(kinds: &[TypedPlace]) -> usize {
    match kinds.first() {
        Some(kind) => kind.place(),
        None => 0,
    }
}

/// The number at a place, or 0.
fn number_at(numbers: &[u32], place: usize) -> usize {
    match numbers.get(place) {
        Some(number) => *number as usize,
        None => 0,
    }
}

/// The referral of a number, if there is one.
fn numbered(list: &[Referral], number: usize) -> Option<&Referral>
    ensures { (z : ZoneState) → AreReferrals z list.now → IfSome result (λ r. IsReferral z (kind_places 2 r.now.cut) r.now) }
{
    list.get(number)
}

/// The numbers of referrals at the first places of their cuts, of that many places.
fn numbers_of(alloc: Global, list: &[Referral], size: usize) -> Result<Vec<u32>, OutOfMemory> {
    let mut numbers = vec![in alloc; 0u32; size]?;
    for (number, referral) in list.iter().enumerate() {
        let place = first_place(referral.cut.as_slice());
        if place < numbers.len() {
            numbers[place] = u32::try_from(number).unwrap_or(0);
        }
    }
    Ok(numbers)
}

impl Referrals {
    /// None.
    pub(crate) fn new(alloc: Global) -> Referrals
        ensures { result.list.items ≡ [] }
    {
        Referrals {
            list: Vec::new(alloc),
            numbers: Vec::new(alloc),
        }
    }

    /// The referral to a cut, given the places of its records, if it is there.
    pub(crate) fn to_cut(&self, cut: &Kinds) -> Option<&Referral>
        ensures { (z : ZoneState) → AreReferrals z self.now.list.items
            → IfSome result (λ r. IsReferral z (kind_places 2 cut.now) r.now) }
    {
        let kinds = cut.as_slice();
        let number = number_at(self.numbers.as_slice(), first_place(kinds));
        match numbered(self.list.as_slice(), number) {
            Some(kept) => {
                if are_same(kept.cut.as_slice(), kinds) {
                    return Some(kept);
                }
                None
            }
            None => None,
        }
    }
}

impl ZoneTree {
    /// The referral to a cut, given the places of its records, if it was made with the zone.
    pub fn referral(&self, cut: &Kinds) -> Option<&Referral>
        ensures { IfSome result (λ r. IsReferral self.now (kind_places 2 cut.now) r.now) }
    {
        self.referrals.to_cut(cut)
    }

    /// The referral to a cut, given the places of its records.
    pub fn make_referral(&self, alloc: Global, cut: &Kinds) -> Result<Referral, OutOfMemory>
        ensures referral { IfOk result (IsReferral self.now (kind_places 2 cut.now)) }
        ensures cut { IfOk result (λ r. r.cut.places.items ≡ cut.now.places.items) }
    {
        let glue = self.glue(alloc, cut)?;
        let mut authority = WireRecords::new(alloc);
        self.write_kind(alloc, cut, Rtype::NS.to_int(), &mut authority)?;
        let additional = wire_places(alloc, self.records(), glue.as_slice())?;
        let cut = cut.try_clone(alloc)?;
        Ok(Referral {
            cut,
            authority,
            glue,
            additional,
        })
    }

    /// Adds the referral to a cut, if a name has NS records, given the places of its records.
    fn add_referral(
        &self,
        alloc: Global,
        kinds: &Kinds,
        list: &mut Vec<Referral>,
    ) -> Result<(), OutOfMemory>
        ensures { AreReferrals self.now list.old.items → OnOk result (AreReferrals self.now list.new.items) }
    {
        if kinds.has(Rtype::NS.to_int()) {
            let referral = self.make_referral(alloc, kinds)?;
            list.push(referral)?;
            return Ok(());
        }
        Ok(())
    }

    /// The referrals to all names that have NS records.
    fn all_referrals(&self, alloc: Global) -> Result<Vec<Referral>, OutOfMemory>
        ensures { IfOk result (λ v. AreReferrals self.now v.items) }
    {
        let mut list = Vec::new(alloc);
        'each: for node in self.names.nodes() {
            self.add_referral(alloc, &node.kinds, &mut list)?;
        }
        Ok(list)
    }

    /// Makes the referrals to its cuts.
    pub(crate) fn refer(&mut self, alloc: Global) -> Result<(), OutOfMemory>
        ensures { self.new ≡ self.old }
    {
        let list = self.all_referrals(alloc)?;
        let size = if list.is_empty() {
            0
        } else {
            self.records.len()
        };
        let numbers = numbers_of(alloc, list.as_slice(), size)?;
        self.referrals = Referrals { list, numbers };
        Ok(())
    }
}
