//! What a walk through a zone says of a name: which records it has, and whether it is below a delegation point.

ghost use Rattle.std.specs.Prelude.{◌≡◌, None, IfOk};
ghost use Rattle.dns_zone_tree.specs.TreeErrors.{tree_error};
ghost use Rattle.dns_denial.specs.Checks.{StandsAt};

use crate::records::ends;
use dns_name::{Name, OutOfMemory};
use dns_zone_tree::{Kinds, Walk, ZoneTree};
use std::alloc::Global;

/// The type whose walk passes the cut at the name itself.
const DS: u16 = 43;

/// What a walk says of a name.
#[derive(Clone, Copy)]
pub(crate) enum Standing<'a> {
    /// The places of the records of a name that isn't below a cut.
    Held(&'a Kinds),
    /// A cut is above the name.
    BelowCut,
    /// Nothing: the name doesn't exist, or it is below a DNAME record.
    Unknown,
}

/// Walks to a name.
pub(crate) fn standing_of<'a>(
    zone: &'a ZoneTree,
    alloc: Global,
    name: &Name,
) -> Result<Standing<'a>, OutOfMemory>
    requires { tree_error zone.now.apex zone.now.records ≡ None }
    ensures { IfOk result (StandsAt zone.now name.now) }
{
    if !ends(name, zone.apex()) {
        return Ok(Standing::Unknown);
    }
    let found = zone.walk(alloc, &name.for_ref(), DS)?;
    match found {
        Walk::Node(kinds) => Ok(Standing::Held(kinds)),
        Walk::Cut(_) => Ok(Standing::BelowCut),
        Walk::Dname(_) => Ok(Standing::Unknown),
        Walk::Missing(_) => Ok(Standing::Unknown),
    }
}

/// Walks to a name, if it isn't that of which this is said.
pub(crate) fn standing_behind<'a>(
    zone: &'a ZoneTree,
    alloc: Global,
    before: &Name,
    standing: Standing<'a>,
    name: &Name,
) -> Result<Standing<'a>, OutOfMemory>
    requires zone { tree_error zone.now.apex zone.now.records ≡ None }
    requires stands { StandsAt zone.now before.now standing }
    ensures { IfOk result (StandsAt zone.now name.now) }
{
    if *before == *name {
        return Ok(standing);
    }
    standing_of(zone, alloc, name)
}
