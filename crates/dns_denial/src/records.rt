//! What the records of a zone say of a name, one by one.

ghost use Rattle.std.specs.Prelude.{◌≡◌, ◌&&◌, ◌||◌, not, nat_eq};
ghost use Rattle.std.specs.List.{list_any};
ghost use Rattle.dns_route.specs.Routes.{ends_name};
ghost use Rattle.dns_zone.specs.Cuts.{delegates, is_cut_off};
ghost use Rattle.dns_zone.specs.Owned.{is_owned};
ghost use Rattle.dns_denial.specs.Chains.{is_below_cut, is_record_at};

use dns_base::{Record, Rtype};
use dns_name::Name;
use dns_route::matches_are_suffixes;
use dns_zone_tree::ZoneTree;

/// Whether a name ends with another, as definitions name it.
pub(crate) fn ends(name: &Name, other: &Name) -> bool
    ensures { result ≡ ends_name name.now other.now }
{
    matches_are_suffixes();
    name.ends_with(&other.for_ref())
}

/// Whether a record delegates a name.
fn delegates(zone: &ZoneTree, name: &Name, resource: &Record) -> bool
    ensures { result ≡ delegates zone.now name.now resource.now }
{
    resource.rdata.rtype() == Rtype::NS
        && (ends(name, &resource.owner) && resource.owner != *zone.apex())
}

/// Whether a name is below a delegation point.
pub(crate) fn is_below_cut(zone: &ZoneTree, name: &Name) -> bool
    ensures { result ≡ is_below_cut zone.now name.now }
{
    zone.records().iter().any(|resource| delegates(zone, name, resource) && resource.owner != *name)
}

/// Whether a name is at or below one.
pub(crate) fn is_cut_off(zone: &ZoneTree, name: &Name) -> bool
    ensures { result ≡ is_cut_off zone.now name.now }
{
    zone.records()
        .iter()
        .any(|resource| delegates(zone, name, resource))
}

/// Whether a name owns a record.
pub(crate) fn owns(zone: &ZoneTree, name: &Name) -> bool
    ensures { result ≡ list_any (is_owned name.now) zone.now.records }
{
    zone.records()
        .iter()
        .any(|resource| resource.owner == *name)
}

/// Whether a name owns a record of a type.
pub(crate) fn owns_type(zone: &ZoneTree, name: &Name, rtype: u16) -> bool
    ensures { result ≡ list_any (is_record_at name.now rtype) zone.now.records }
{
    zone.records().iter().any(|resource| resource.owner == *name
        && resource.rdata.rtype().to_int() == rtype)
}
