//! Zones whose primary may wake a check.

ghost use Rattle.std.specs.Prelude.{◌≡◌, nat_eq};
ghost use Rattle.std.specs.List.{position};
ghost use Rattle.dns_name.specs.Canonical.{same_name};
ghost use Rattle.dns_secondary.specs.Copies.{same_address, wakes};

use dns_name::{Class, IpAddr, Name};

/// A zone, and the address of its primary.
#[derive(Drop)]
pub struct WatchedZone {
    pub apex: Name,
    pub primary: IpAddr,
}

impl WatchedZone {
    /// Whether a NOTIFY of a class and a name from an address wakes a check of this zone.
    pub fn is_woken(&self, class: Class, name: &Name, source: IpAddr) -> bool
        ensures { result ≡ wakes class name.now source self.now }
    {
        class == Class::IN && *name == self.apex && same_address(&source, &self.primary)
    }
}

/// Whether two addresses are the same.
fn same_address(a: &IpAddr, b: &IpAddr) -> bool
    ensures { result ≡ same_address a.now b.now }
{
    a.as_slice() == b.as_slice()
}

/// The first of some zones that a NOTIFY of a class and a name from an address wakes (RFC 1996, sections 3.10 and 3.11).
pub fn woken_by(zones: &[WatchedZone], class: Class, name: &Name, source: IpAddr) -> Option<usize>
    ensures { result ≡ position (wakes class name.now source) zones.now }
{
    zones
        .iter()
        .position(|zone| zone.is_woken(class, name, source))
}
