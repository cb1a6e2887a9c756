//! Aliases, and what they lead to.

ghost use Rattle.std.specs.Prelude.{◌≡◌, ◌++◌, ◌∷◌, [], ℕ, List, IfOk, IsTrue, Some, false};
ghost use Rattle.std.specs.List.{slice_get};
ghost use Rattle.std.specs.Option.{option_copied};
ghost use Rattle.dns_route.specs.Routes.{ends_name};
ghost use Rattle.dns_zone.specs.Aliases.{followed};
ghost use Rattle.dns_zone.specs.Cuts.{is_cut_off};
ghost use Rattle.dns_zone.specs.ZoneIndex.{IsSought};
ghost use Rattle.dns_zone.specs.Owned.{target};
ghost use Rattle.dns_zone.specs.Paths.{name_path};
ghost use Rattle.dns_zone.specs.Places.{at_places};

use crate::check::ends;
use crate::path::path_of_name;
use crate::zone::Zone;
use dns_base::{Name, Record, RecordData, Rtype};
use dns_name::OutOfMemory;
use std::alloc::Global;

/// How many CNAME records are given at most.
const MOST_ALIASES: usize = 8;

/// What an alias leads to, as places in the zone's list.
#[derive(Drop)]
pub(crate) enum Lead<'a> {
    /// Further aliases, those of the target.
    Alias(&'a [usize]),
    /// The target's records of the type that is asked for.
    Found(&'a [usize]),
    /// No records.
    Nowhere,
}

/// The name that the data of a record is, if it is one.
fn record_target(resource: &Record) -> Option<&Name>
    ensures { option_copied result ≡ target resource.now.rdata }
{
    match &resource.rdata {
        RecordData::Named { name, .. } => Some(name),
        _ => None,
    }
}

/// Places, and others after them.
fn extended(places: Vec<usize>, others: &[usize]) -> Result<Vec<usize>, OutOfMemory>
    ensures { IfOk result (λ v. v.items ≡ places.items ++ others.now) }
{
    let mut places = places;
    places.extend_from_slice(others)?;
    Ok(places)
}

impl Zone {
    ghost use Rattle.dns_zone.specs.Found.{AreAliases, TargetLeadsTo, target_of};

    /// The name that the data of the record at a place is, if it is one.
    pub(crate) fn target(&self, place: usize) -> Option<&Name>
        ensures { option_copied result ≡ target_of (slice_get self.now.records place) }
    {
        match self.records.get(place) {
            Some(record) => record_target(record),
            None => None,
        }
    }

    /// What the path of a name within the zone leads to.
    fn lead_within(&self, rtype: u16, path: &[u8]) -> Lead<'_>
        requires { IsSought self.now.apex path.now }
        ensures { (name : List (List ℕ)) → path.now ≡ name_path name → IsTrue (ends_name name self.now.apex)
            → TargetLeadsTo self.now rtype (Some name) result }
    {
        match self.cut(path) {
            Some(_) => Lead::Nowhere,
            None => self.lead_on(rtype, path),
        }
    }

    /// What the path of a name that isn't at or below a cut leads to.
    fn lead_on(&self, rtype: u16, path: &[u8]) -> Lead<'_>
        ensures { (name : List (List ℕ)) → path.now ≡ name_path name → IsTrue (ends_name name self.now.apex)
            → is_cut_off self.now name ≡ false → TargetLeadsTo self.now rtype (Some name) result }
    {
        if let Some(next) = self.owned(path, Rtype::CNAME.to_int()) {
            return Lead::Alias(next);
        }
        match self.owned(path, rtype) {
            Some(found) => Lead::Found(found),
            None => Lead::Nowhere,
        }
    }

    /// What a name leads to.
    fn lead_to(&self, alloc: Global, rtype: u16, name: &Name) -> Result<Lead<'_>, OutOfMemory>
        ensures { IfOk result (TargetLeadsTo self.now rtype (Some name.now)) }
    {
        if !ends(name, &self.apex) {
            return Ok(Lead::Nowhere);
        }
        let path = path_of_name(alloc, name)?;
        Ok(self.lead_within(rtype, path.as_slice()))
    }

    /// What the alias at a place leads to.
    fn lead(&self, alloc: Global, rtype: u16, place: usize) -> Result<Lead<'_>, OutOfMemory>
        ensures { IfOk result (TargetLeadsTo self.now rtype (target_of (slice_get self.now.records place))) }
    {
        match self.target(place) {
            Some(name) => self.lead_to(alloc, rtype, name),
            None => Ok(Lead::Nowhere),
        }
    }

    /// Gives the alias at a place as well, and what it leads to.
    fn given(
        &self,
        alloc: Global,
        rtype: u16,
        place: usize,
        trail: &mut Vec<usize>,
    ) -> Result<Lead<'_>, OutOfMemory>
        ensures { IfOk result (λ l. (trail.new.items ≡ trail.old.items ++ place ∷ [])
            × TargetLeadsTo self.now rtype (target_of (slice_get self.now.records place)) l) }
    {
        trail.push(place)?;
        self.lead(alloc, rtype, place)
    }

    /// The places of the aliases that are followed from those at places on, and of the records that the last one leads to.
    /// Of the aliases of a name the first is followed.
    pub(crate) fn trail<'a>(
        &'a self,
        alloc: Global,
        rtype: u16,
        first: &'a [usize],
    ) -> Result<Vec<usize>, OutOfMemory>
        ensures { (name : List (List ℕ)) → AreAliases self.now name first.now
            → IfOk result (λ v. at_places self.now.records v.items ≡ followed self.now rtype 8 name) }
    {
        let mut trail = Vec::new(alloc);
        let mut next = first;
        'aliases: for _given in 0..MOST_ALIASES {
            let Some(place) = next.first() else {
                break;
            };
            match self.given(alloc, rtype, *place, &mut trail)? {
                Lead::Alias(more) => next = more,
                Lead::Found(found) => return extended(trail, found),
                Lead::Nowhere => return Ok(trail),
            }
        }
        Ok(trail)
    }
}
