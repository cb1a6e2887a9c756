//! Which names of a zone must have an NSEC, and which types it lists.

ghost use Rattle.std.specs.Prelude.{◌≡◌, ◌≢◌, ◌&&◌, ◌||◌, not, nat_eq};
ghost use Rattle.dns_denial.specs.Chains.{has_type, is_deniable, must_have};
ghost use Rattle.dns_denial.specs.Checks.{IsHeld, StandsAt, is_kept, is_placed};

use crate::records::{is_below_cut, is_cut_off, owns, owns_type};
use crate::standing::Standing;
use dns_name::Name;
use dns_zone_tree::{ANY, Kinds, ZoneTree};

/// Whether a type's bit says something.
pub(crate) fn is_deniable(rtype: u16) -> bool
    ensures { result ≡ is_deniable rtype }
{
    !(rtype == 46 || rtype == 47)
}

/// Whether there is a place of a type.
fn is_placed(kinds: &Kinds, rtype: u16) -> bool
    ensures { result ≡ is_placed rtype kinds.now }
{
    kinds.has(rtype)
}

/// Whether a name must have an NSEC.
pub(crate) fn must_have(zone: &ZoneTree, name: &Name, standing: &Standing<'_>) -> bool
    requires { StandsAt zone.now name.now standing.now }
    ensures { result ≡ must_have zone.now name.now }
{
    match standing {
        Standing::Held(kinds) => is_placed(kinds, ANY),
        Standing::BelowCut => false,
        Standing::Unknown => owns(zone, name) && !is_below_cut(zone, name),
    }
}

/// Whether the zone has a type at a name, as its records say one by one.
fn has_type_among(zone: &ZoneTree, name: &Name, rtype: u16) -> bool
    ensures { result ≡ has_type zone.now name.now rtype }
{
    owns_type(zone, name, rtype) && (!is_cut_off(zone, name) || (rtype == 2 || rtype == 43))
}

/// Whether places say that the zone has a type at a name.
fn is_kept(zone: &ZoneTree, name: &Name, kinds: &Kinds, rtype: u16) -> bool
    ensures { result ≡ is_kept zone.now name.now rtype kinds.now }
{
    is_placed(kinds, rtype)
        && (!(is_placed(kinds, 2) && *name != *zone.apex()) || (rtype == 2 || rtype == 43))
}

/// Whether the zone has a type at a name, by the places of the name's records.
fn has_type_in(zone: &ZoneTree, name: &Name, kinds: &Kinds, rtype: u16) -> bool
    requires held { IsHeld zone.now name.now kinds.now }
    requires exact { rtype ≢ 255 }
    ensures { result ≡ has_type zone.now name.now rtype }
{
    is_kept(zone, name, kinds, rtype)
}

/// Whether the zone has a type at a name.
pub(crate) fn has_type(zone: &ZoneTree, name: &Name, standing: &Standing<'_>, rtype: u16) -> bool
    requires { StandsAt zone.now name.now standing.now }
    ensures { result ≡ has_type zone.now name.now rtype }
{
    if rtype == ANY {
        return has_type_among(zone, name, rtype);
    }
    match standing {
        Standing::Held(kinds) => has_type_in(zone, name, kinds, rtype),
        Standing::BelowCut => has_type_among(zone, name, rtype),
        Standing::Unknown => has_type_among(zone, name, rtype),
    }
}
